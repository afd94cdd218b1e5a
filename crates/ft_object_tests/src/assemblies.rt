//! From texts to objects, and back.
use crate::texts::{
    BROKEN, DISORDERED, FIVE, FIVE_COMMENTED, FORMLESS, JUMP, RUN, disordered, formless,
};
use ft_asm::{AsmError, assemble, disassemble};
use ft_object::{decode, encode};
use ft_worked_objects::{A, A2, I, J, J64, K, L, M, N, Q, X};
use std::test::Fail;

/// Worked objects.
const OBJECTS: &[&[u8]] = &[A, A2, I, J, J64, K, L, M, N, Q, X];

/// The bytes with byte 7 set to 2.
fn second(rt: &impl AllocGlobal, bytes: &[u8]) -> Result<Vec<u8>, Fail> {
    let mut bytes = Vec::from_slice(rt.alloc(), bytes)?;
    match bytes.get_mut(7) {
        Some(place) => *place = 2,
        None => return Err(Fail::new(format_args!("no byte 7"))),
    }
    Ok(bytes)
}

/// Whether the text is refused with this error.
fn is_refused(rt: &impl AllocGlobal, text: &[u8], error: AsmError) -> bool {
    match assemble(rt.alloc(), text) {
        Ok(_) => false,
        Err(found) => found == error,
    }
}

/// Whether the text is read as an object whose version 2 spelling is these bytes.
fn is_read(rt: &impl AllocGlobal, text: &[u8], bytes: &[u8]) -> bool {
    match assemble(rt.alloc(), text) {
        Ok(object) => match encode(rt.alloc(), &object) {
            Ok(written) => written.as_slice() == bytes,
            Err(_) => false,
        },
        Err(_) => false,
    }
}

/// The text of the object that the bytes spell.
fn text_of(rt: &impl AllocGlobal, bytes: &[u8]) -> Result<Vec<u8>, Fail> {
    match decode(rt.alloc(), bytes) {
        Ok(object) => match disassemble(rt.alloc(), &object) {
            Ok(text) => Ok(text),
            Err(_) => Err(Fail::new(format_args!("no memory"))),
        },
        Err(_) => Err(Fail::new(format_args!("no object"))),
    }
}

/// Whether the text of the object that the bytes spell is read back as that object.
fn is_read_again(rt: &impl AllocGlobal, bytes: &[u8]) -> Result<bool, Fail> {
    let text = text_of(rt, bytes)?;
    let spelling = second(rt, bytes)?;
    Ok(is_read(rt, text.as_slice(), spelling.as_slice()))
}

/// Whether the object that the bytes spell has this text, which is read back as that object.
fn has_text(rt: &impl AllocGlobal, bytes: &[u8], text: &[u8]) -> Result<bool, Fail> {
    let own = text_of(rt, bytes)?;
    let spelling = second(rt, bytes)?;
    Ok(own.as_slice() == text && is_read(rt, text, spelling.as_slice()))
}

#[test]
fn worked_objects_have_their_texts(rt: HostRuntime) -> Result<(), Fail> {
    let five = has_text(&rt, A, FIVE)?;
    let jump = has_text(&rt, J, JUMP)?;
    let run = has_text(&rt, I, RUN)?;
    assert!(&rt; five && jump && run);
    Ok(())
}

#[test]
fn texts_of_worked_objects_are_read_again(rt: HostRuntime) -> Result<(), Fail> {
    for object in OBJECTS {
        let again = is_read_again(&rt, object)?;
        assert!(&rt; again);
    }
    Ok(())
}

#[test]
fn blanks_and_comments_mean_nothing(rt: HostRuntime) -> Result<(), Fail> {
    let spelling = second(&rt, A)?;
    assert!(&rt; is_read(&rt, FIVE_COMMENTED, spelling.as_slice()));
    Ok(())
}

#[test]
fn lines_of_no_form_are_refused(rt: HostRuntime) {
    for row in FORMLESS {
        let (text, line) = *row;
        assert!(&rt; is_refused(&rt, text, formless(line)), "line {line}");
    }
}

#[test]
fn lines_out_of_order_are_refused(rt: HostRuntime) {
    for row in DISORDERED {
        let (text, line) = *row;
        assert!(&rt; is_refused(&rt, text, disordered(line)), "line {line}");
    }
}

#[test]
fn tables_that_break_a_rule_are_refused(rt: HostRuntime) {
    for row in BROKEN {
        let (text, error) = *row;
        assert!(&rt; is_refused(&rt, text, AsmError::Object(error)), "{error}");
    }
}

#[test]
fn too_long_texts_are_refused_by_their_limit(rt: HostRuntime) -> Result<(), Fail> {
    let text = vec![in rt.alloc(); b'\n'; 134217729]?;
    assert!(&rt; is_refused(&rt, text.as_slice(), AsmError::TooLong));
    Ok(())
}
