//! Worked objects, whose bytes were made by another implementation of the format, and altered ones.
use crate::altered::{
    BEYOND_FIRST, BLOCKS, CELLS, EACH_ERROR, HEADER, LAWFUL, LAWFUL_RUNS, LAWFUL_SECOND,
    LONG_SUBSTITUTIONS, Lawful, MOST_SUBSTITUTIONS, NAMES, NODES, OPERATIONS, QUEUE_ROWS,
    REGISTER_ROWS, RUNS, Row, SECOND, SECOND_CELLS, SUBSTITUTION_ROWS, TRANSFERS, TYPES,
};
use ft_object::{DecodeError, ObjectError, decode, encode};
use ft_types::Program;
use ft_view::View;
use ft_worked_objects::{
    A, A2, I, J, J64, K, L, M, N, P1, P3, P4, P5, P6, P8, P9, P11, P12, P13, P14, P15, P16, P17, Q,
    X, X2,
};
use std::process::Abort;
use std::test::Fail;

/// The worked objects.
const OBJECTS: &[&[u8]] = &[
    A, A2, I, J, J64, K, L, M, N, P1, P3, P4, P5, P6, P8, P9, P11, P12, P13, P14, P15, P16, P17, Q,
    X, X2,
];

/// Whether the bytes spell an object, and are written back with byte 7 set to 2.
fn is_written_again(rt: &impl AllocGlobal, bytes: &[u8]) -> Result<bool, Fail> {
    let second = altered(rt, bytes, &[(7, 2)])?;
    match decode(rt.alloc(), bytes) {
        Ok(object) => match encode(rt.alloc(), &object) {
            Ok(written) => Ok(written.as_slice() == second.as_slice()),
            Err(_) => Ok(false),
        },
        Err(_) => Ok(false),
    }
}

/// Whether the bytes are refused with this error, in place.
fn is_refused_in_place(bytes: &[u8], error: ObjectError) -> bool {
    match View::over(bytes) {
        Ok(_) => false,
        Err(found) => found == error,
    }
}

/// Whether the bytes are refused with this error, both in place and when they are decoded.
fn is_refused(rt: &impl AllocGlobal, bytes: &[u8], error: ObjectError) -> bool {
    let decoded = match decode(rt.alloc(), bytes) {
        Ok(_) => false,
        Err(found) => found == DecodeError::Object(error),
    };
    decoded && is_refused_in_place(bytes, error)
}

/// The name of the first cell, which is a slice of the bytes.
#[tactic(auto, using(ft_types::proofs::Counted::spellable_counted))]
fn first_name(bytes: &[u8]) -> Option<&[u8]> {
    match View::over(bytes) {
        Ok(view) if 0 < view.counts().cells => Some(view.name_of(0)),
        _ => None,
    }
}

/// The bytes with these changes, all of which are at existing places.
fn altered(rt: &impl AllocGlobal, bytes: &[u8], changes: &[(usize, u8)]) -> Result<Vec<u8>, Fail> {
    let mut bytes = Vec::from_slice(rt.alloc(), bytes)?;
    for change in changes {
        let (at, byte) = *change;
        match bytes.get_mut(at) {
            Some(place) => *place = byte,
            None => return Err(Fail::new(format_args!("no byte {at}"))),
        }
    }
    Ok(bytes)
}

fn check_rows(rt: &(impl AllocGlobal + Abort), object: &[u8], rows: &[Row]) -> Result<(), Fail> {
    for row in rows {
        let (field, changes, error) = *row;
        let bytes = altered(rt, object, changes)?;
        assert!(rt;
            is_refused(rt, bytes.as_slice(), error),
            "{field}: refused by {error}"
        );
    }
    Ok(())
}

fn check_lawful(
    rt: &(impl AllocGlobal + Abort),
    object: &[u8],
    rows: &[Lawful],
) -> Result<(), Fail> {
    for row in rows {
        let (shown, changes) = *row;
        let bytes = altered(rt, object, changes)?;
        let again = is_written_again(rt, bytes.as_slice())?;
        assert!(rt; again, "{shown}: written again");
    }
    Ok(())
}

#[test]
fn names_are_kept_when_their_view_is_gone(rt: HostRuntime) {
    assert!(&rt; first_name(J) == Some(b"out".as_slice()));
}

#[test]
fn worked_objects_are_written_again(rt: HostRuntime) -> Result<(), Fail> {
    for object in OBJECTS {
        let again = is_written_again(&rt, object)?;
        assert!(&rt; again);
    }
    Ok(())
}

#[test]
fn lawful_alterations_are_written_again(rt: HostRuntime) -> Result<(), Fail> {
    let second = altered(&rt, J, &[(7, 2)])?;
    check_lawful(&rt, J, LAWFUL)?;
    check_lawful(&rt, second.as_slice(), LAWFUL)?;
    check_lawful(&rt, second.as_slice(), LAWFUL_SECOND)?;
    check_lawful(&rt, I, LAWFUL_RUNS)
}

#[test]
fn prefixes_are_refused_by_their_length(rt: HostRuntime) {
    for n in 0..A.len() {
        assert!(&rt; is_refused(&rt, &A[..n], ObjectError::Length { at: n }));
    }
    for n in 0..J.len() {
        assert!(&rt; is_refused(&rt, &J[..n], ObjectError::Length { at: n }));
    }
}

/// Whether decoding agrees with the view over the bytes: both give the object that they spell, or the same error.
fn answers_are_the_same(rt: &impl AllocGlobal, bytes: &[u8]) -> Result<bool, Fail> {
    match View::over(bytes) {
        Ok(_) => is_written_again(rt, bytes),
        Err(error) => Ok(is_refused(rt, bytes, error)),
    }
}

fn check_turned_bits(rt: &(impl AllocGlobal + Abort), object: &[u8]) -> Result<(), Fail> {
    for n in 0..object.len() {
        let bytes = altered(rt, object, &[(n, object[n] ^ 1)])?;
        let same = answers_are_the_same(rt, bytes.as_slice())?;
        assert!(rt; same, "byte {n}: the same answer");
    }
    Ok(())
}

#[test]
fn turned_bits_have_the_same_answer_in_place(rt: HostRuntime) -> Result<(), Fail> {
    check_turned_bits(&rt, J)?;
    check_turned_bits(&rt, I)
}

#[test]
fn a_byte_more_is_refused_by_the_length(rt: HostRuntime) -> Result<(), Fail> {
    let mut bytes = Vec::from_slice(rt.alloc(), J)?;
    bytes.push(0)?;
    assert!(&rt; is_refused(&rt, bytes.as_slice(), ObjectError::Length { at: 367 }));
    Ok(())
}

#[test]
fn too_many_bytes_are_refused_by_their_limit(rt: HostRuntime) -> Result<(), Fail> {
    let bytes = vec![in rt.alloc(); 0u8; 67108865]?;
    assert!(&rt; is_refused(&rt, bytes.as_slice(), ObjectError::Length { at: 67108864 }));
    Ok(())
}

#[test]
fn altered_tables_are_refused_at_their_fields(rt: HostRuntime) -> Result<(), Fail> {
    check_rows(&rt, A, EACH_ERROR)?;
    check_rows(&rt, J, HEADER)?;
    check_rows(&rt, J, CELLS)?;
    check_rows(&rt, P9, SECOND_CELLS)?;
    check_rows(&rt, J, NODES)?;
    check_rows(&rt, J, TYPES)?;
    check_rows(&rt, J, REGISTER_ROWS)?;
    check_rows(&rt, J, QUEUE_ROWS)?;
    check_rows(&rt, J, NAMES)
}

#[test]
fn altered_code_is_refused_at_its_fields(rt: HostRuntime) -> Result<(), Fail> {
    let mut long = Vec::from_slice(rt.alloc(), J)?;
    check_rows(&rt, J, BLOCKS)?;
    check_rows(&rt, J, OPERATIONS)?;
    check_rows(&rt, J, TRANSFERS)?;
    long.extend_from_slice(&[0; 508])?;
    check_rows(&rt, long.as_slice(), MOST_SUBSTITUTIONS)?;
    long.extend_from_slice(&[0; 4])?;
    check_rows(&rt, long.as_slice(), LONG_SUBSTITUTIONS)?;
    check_rows(&rt, J, SUBSTITUTION_ROWS)
}

#[test]
fn each_version_has_its_own_rules(rt: HostRuntime) -> Result<(), Fail> {
    let second = altered(&rt, J, &[(7, 2)])?;
    check_rows(&rt, J, BEYOND_FIRST)?;
    check_rows(&rt, second.as_slice(), SECOND)?;
    check_rows(&rt, I, RUNS)
}
