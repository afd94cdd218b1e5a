//! Calls of the tool over files in memory, with their explanations.
use ft_edge::{MemShelf, MemSink, SureSource};
use ft_explain::{Found, LastLine, Look, explain};
use std::test::Fail;

/// A file: its name and its bytes.
pub(crate) type File<'a> = (&'a str, &'a [u8]);

/// A look-up that knows only some names.
struct Folders;

impl Look for Folders {
    fn look(&self, name: &str) -> Found {
        match name.as_bytes() {
            b"folder" => Found::Folder,
            b"nowhere" => Found::Missing,
            b"secret" => Found::Forbidden,
            b"file" => Found::File,
            _ => Found::Unknown,
        }
    }

    fn is_output(&self, name: &str) -> bool {
        name == "own"
    }

    fn input(&self) -> Found {
        Found::Folder
    }

    fn script(&self) -> Option<&'static str> {
        Some("script")
    }
}

/// The words of a text.
fn split_words(rt: &impl AllocGlobal, text: &str) -> Result<Vec<String>, Fail> {
    let mut words = Vec::new(rt.alloc());
    for word in text.split(' ') {
        words.push(String::from_str(rt.alloc(), word)?)?;
    }
    Ok(words)
}

/// A shelf with these files.
fn shelf_of(rt: &impl AllocGlobal, files: &[File]) -> Result<MemShelf, Fail> {
    let mut shelf = MemShelf::new(rt.alloc());
    for (name, bytes) in files {
        shelf.add(name, bytes)?;
    }
    Ok(shelf)
}

/// Fails unless the text found is the expected one.
fn compare(words: &str, text: &str, found: &str) -> Result<(), Fail> {
    if found == text {
        return Ok(());
    }
    Err(Fail::new(format_args!("of `{words}` is said\n{found}and not\n{text}")))
}

/// Fails unless the text is the explanation of a call with these words over these files.
pub(crate) fn check_said(
    rt: &impl AllocGlobal,
    words: &str,
    files: &[File],
    text: &str,
) -> Result<(), Fail> {
    let mut shelf = shelf_of(rt, files)?;
    let spelled = split_words(rt, words)?;
    let mut sink = LastLine::new(MemSink::new(rt.alloc(), 3000)?);
    let mut script = SureSource::new(&[]);
    let status = ft_tool::tool(
        rt.alloc(),
        spelled.as_slice(),
        &mut shelf,
        &mut script,
        &mut sink,
    );
    let (_, line) = sink.into_parts();
    let found = explain(
        rt.alloc(),
        spelled.as_slice(),
        status,
        line.as_bytes(),
        &mut shelf,
        &Folders,
    )?;
    compare(words, text, found.as_str())
}

/// Fails unless the text is the explanation of a call with these words that ended with this status after this line.
pub(crate) fn check_told(
    rt: &impl AllocGlobal,
    words: &str,
    status: u8,
    line: &str,
    files: &[File],
    text: &str,
) -> Result<(), Fail> {
    let mut shelf = shelf_of(rt, files)?;
    let spelled = split_words(rt, words)?;
    let found = explain(
        rt.alloc(),
        spelled.as_slice(),
        status,
        line.as_bytes(),
        &mut shelf,
        &Folders,
    )?;
    compare(words, text, found.as_str())
}

/// An object, places with the bytes written there, and the explanation.
pub(crate) type Refused = (&'static [u8], &'static [(usize, u8)], &'static str);

/// Fails unless each object is refused with its explanation.
pub(crate) fn check_refused(rt: &impl AllocGlobal, rows: &[Refused]) -> Result<(), Fail> {
    for (object, changes, text) in rows {
        check_altered(rt, object, changes, text)?;
    }
    Ok(())
}

/// Fails unless the text is the explanation of `check` over an object, some of whose bytes are changed.
pub(crate) fn check_altered(
    rt: &impl AllocGlobal,
    object: &[u8],
    changes: &[(usize, u8)],
    text: &str,
) -> Result<(), Fail> {
    let mut bytes = object.to_vec(rt.alloc())?;
    for (place, byte) in changes {
        match bytes.get_mut(*place) {
            Some(changed) => *changed = *byte,
            None => return Err(Fail::new(format_args!("no byte {place}"))),
        }
    }
    check_said(rt, "check file", &[("file", bytes.as_slice())], text)
}
