//! Long sources.
use std::test::Fail;

/// `count` copies of a text after another text.
pub fn repeated(
    rt: &impl AllocGlobal,
    before: &str,
    text: &str,
    count: u32,
) -> Result<String, Fail> {
    let mut source = String::from_str(rt.alloc(), before)?;
    for _ in 0..count {
        source.push_str(text)?;
    }
    Ok(source)
}

/// Declarations of the names `n0`, `n1` and so on, each between two texts, and then another text.
pub fn declared(
    rt: &impl AllocGlobal,
    before: &str,
    after: &str,
    count: u32,
    body: &str,
) -> Result<String, Fail> {
    let mut source = String::new(rt.alloc());
    for number in 0..count {
        write!(source, "{before}n{number}{after}")?;
    }
    source.push_str(body)?;
    Ok(source)
}
