//! Tests of maps.
use crate::{MapError, read_map};
use std::alloc::{AllocError, Global};
use std::test::Fail;

/// Why a text is refused, if it is.
fn refusal(alloc: Global, text: &str) -> Result<Option<MapError>, Fail> {
    if text.len() > 65_536 {
        return Err(Fail::new(format_args!("too long")));
    }
    match read_map(alloc, text.as_bytes()) {
        Ok(_) => Ok(None),
        Err(error) => Ok(Some(error)),
    }
}

/// Texts, and why they are refused, if they are.
const TEXTS: &[(&str, Option<MapError>)] = &[
    ("", Some(MapError::Line { line: 1 })),
    ("\n", Some(MapError::Line { line: 1 })),
    ("module m", None),
    ("module m\n", None),
    ("module m\n\n", Some(MapError::Line { line: 2 })),
    ("module  m", Some(MapError::Line { line: 1 })),
    ("module m ", Some(MapError::Line { line: 1 })),
    ("module ", Some(MapError::Line { line: 1 })),
    ("Module m", Some(MapError::Line { line: 1 })),
    ("import go 1\nmodule m\n", Some(MapError::Line { line: 1 })),
    ("module m\nexport while 0", None),
    ("module m\nexport _9 4294967295", None),
    (
        "module m\nexport go 4294967296",
        Some(MapError::Line { line: 2 }),
    ),
    ("module m\nexport go 01", Some(MapError::Line { line: 2 })),
    ("module m\nexport go  1", Some(MapError::Line { line: 2 })),
    ("module m\nexport go", Some(MapError::Line { line: 2 })),
    ("module m\nexport 9go 1", Some(MapError::Line { line: 2 })),
    ("module m\nexport a 0\nexport b 0", None),
    ("module m\nimport a 0\nimport a 1", None),
    ("module m\nimport a 0\nmodule m\nexport a 0", None),
    (
        "module m\nexport a 0\nexport a 1",
        Some(MapError::Twice { line: 3 }),
    ),
    (
        "module m\nexport a 0\nimport b 0",
        Some(MapError::Twice { line: 3 }),
    ),
    (
        "module m\nimport a 0\nexport b 0",
        Some(MapError::Twice { line: 3 }),
    ),
    (
        "module m\nimport a 0\nimport b 0\nimport c 0",
        Some(MapError::Twice { line: 3 }),
    ),
    (
        "module m\nexport a 0\nexport a 1\nhalt",
        Some(MapError::Line { line: 4 }),
    ),
];

#[test]
fn texts_are_judged(rt: HostRuntime) -> Result<(), Fail> {
    for (text, error) in TEXTS {
        assert!(rt; refusal(rt.alloc(), text)? == *error, "{text}");
    }
    Ok(())
}

/// The first piece, then the second repeated `count` times, then the third.
fn long_text(
    alloc: Global,
    first: &str,
    count: u32,
    piece: &str,
    last: &str,
) -> Result<String, AllocError> {
    let mut text = String::from_str(alloc, first)?;
    for _ in 0..count {
        text.push_str(piece)?;
    }
    text.push_str(last)?;
    Ok(text)
}

/// Pieces of long texts, and why the texts are refused, if they are.
const LONG: &[(&str, u32, &str, &str, Option<MapError>)] = &[
    ("module ", 255, "m", "\n", None),
    ("module ", 256, "m", "\n", Some(MapError::Line { line: 1 })),
    ("module m\nexport ", 32, "a", " 0", None),
    (
        "module m\nexport ",
        33,
        "a",
        " 0",
        Some(MapError::Line { line: 2 }),
    ),
    ("", 64, "module m\n", "", None),
    ("", 65, "module m\n", "", Some(MapError::Line { line: 65 })),
];

#[test]
fn long_texts_are_judged(rt: HostRuntime) -> Result<(), Fail> {
    for (first, count, piece, last, error) in LONG {
        let text = long_text(rt.alloc(), first, *count, piece, last)?;
        assert!(rt; refusal(rt.alloc(), text.as_str())? == *error, "{text}");
    }
    Ok(())
}

#[test]
fn a_map_is_read(rt: HostRuntime) -> Result<(), Fail> {
    let text = b"module m\nimport go 1\nmodule a\nexport go 0\n";
    let map = read_map(rt.alloc(), text)?;
    assert!(rt; map.files.len() == 2 && map.imports.len() == 1 && map.exports.len() == 1);
    assert!(rt; map.files.at(1).as_slice() == b"a".as_slice());
    let import = map.imports.at(0);
    assert!(rt; import.module == 0 && import.block == 1 && import.line == 2);
    let export = map.exports.at(0);
    assert!(rt; export.module == 1 && export.block == 0 && export.line == 4);
    assert!(rt; export.name.as_slice() == b"go".as_slice());
    Ok(())
}
