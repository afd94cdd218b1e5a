//! Worked objects by name, and the tool over them.
use ft_edge::{MemShelf, MemSink, Source, SureSource};
use ft_worked_objects::{A, A2, BRANCH, I, J, J64, K, L, LOOP, N, OVER, Q, TWICE, X, X2};
use std::test::Fail;

/// Words, the text written, and the status.
pub type Row<'a> = (&'a str, &'a str, u8);

/// Objects by name.
const OBJECTS: &[(&str, &[u8])] = &[
    ("A", A),
    ("A2", A2),
    ("Q", Q),
    ("X", X),
    ("X2", X2),
    ("L", L),
    ("N", N),
    ("I", I),
    ("J", J),
    ("J64", J64),
    ("K", K),
    ("twice", TWICE),
    ("over", OVER),
    ("loop", LOOP),
];

/// `BRANCH` under four names, each with the two words that it tests.
const BRANCHES: &[(&str, u8, u8)] = &[
    ("taken", 0, 0),
    ("passed", 1, 1),
    ("green", 0, 1),
    ("blue", 1, 0),
];

/// A shelf with the worked objects.
pub fn worked_objects(rt: &impl AllocGlobal) -> Result<MemShelf, Fail> {
    let mut shelf = MemShelf::new(rt.alloc());
    for (name, bytes) in OBJECTS {
        shelf.add(name, bytes)?;
    }
    for (name, green, blue) in BRANCHES {
        let mut bytes = BRANCH.to_vec(rt.alloc())?;
        bytes[119] = *green;
        bytes[151] = *blue;
        shelf.add(name, bytes.as_slice())?;
    }
    Ok(shelf)
}

fn split_words(rt: &impl AllocGlobal, text: &str) -> Result<Vec<String>, Fail> {
    let mut words = Vec::new(rt.alloc());
    for word in text.split(' ') {
        words.push(String::from_str(rt.alloc(), word)?)?;
    }
    Ok(words)
}

/// Runs the tool on the words, with a script, and returns the status.
pub fn status_with_script<I: Source>(
    rt: &impl AllocGlobal,
    words: &str,
    shelf: &mut MemShelf,
    script: &mut I,
    sink: &mut MemSink,
) -> Result<u8, Fail> {
    let words = split_words(rt, words)?;
    Ok(ft_tool::tool(rt.alloc(), words.as_slice(), shelf, script, sink))
}

/// Runs the tool on the words, with an empty script, and returns the status.
pub fn status_of(
    rt: &impl AllocGlobal,
    words: &str,
    shelf: &mut MemShelf,
    sink: &mut MemSink,
) -> Result<u8, Fail> {
    status_with_script(rt, words, shelf, &mut SureSource::new(&[]), sink)
}

/// Fails unless the status is the row's and what was written is its text.
fn compare(row: Row, found: u8, written: &[u8]) -> Result<(), Fail> {
    let (words, text, status) = row;
    if found != status {
        return Err(Fail::new(format_args!("{words} answers {found}, not {status}")));
    }
    if written != text.as_bytes() {
        return Err(Fail::new(format_args!("{words} does not write {text}")));
    }
    Ok(())
}

/// Fails unless the tool over this shelf and this sink writes the row's text and returns its status.
pub fn check_row(
    rt: &impl AllocGlobal,
    row: Row,
    shelf: &mut MemShelf,
    sink: &mut MemSink,
) -> Result<(), Fail> {
    let found = status_of(rt, row.0, shelf, sink)?;
    compare(row, found, sink.written())
}

/// Fails unless the row holds over the worked objects with this script.
pub fn check_script<I: Source>(
    rt: &impl AllocGlobal,
    row: Row,
    script: &mut I,
) -> Result<(), Fail> {
    let mut shelf = worked_objects(rt)?;
    let mut sink = MemSink::new(rt.alloc(), 300)?;
    let found = status_with_script(rt, row.0, &mut shelf, script, &mut sink)?;
    compare(row, found, sink.written())
}

/// Fails unless each row holds over the worked objects.
pub fn check_rows(rt: &impl AllocGlobal, rows: &[Row]) -> Result<(), Fail> {
    let mut shelf = worked_objects(rt)?;
    for row in rows {
        let mut sink = MemSink::new(rt.alloc(), 300)?;
        check_row(rt, *row, &mut shelf, &mut sink)?;
    }
    Ok(())
}

/// Fails unless the row holds over the single file `file` with these bytes.
pub fn check_file(rt: &impl AllocGlobal, bytes: &[u8], row: Row) -> Result<(), Fail> {
    let mut shelf = MemShelf::new(rt.alloc());
    shelf.add("file", bytes)?;
    let mut sink = MemSink::new(rt.alloc(), 300)?;
    check_row(rt, row, &mut shelf, &mut sink)
}

/// Fails unless the row holds over the single file `file` with the bytes of an object, some of them changed.
pub fn check_altered(
    rt: &impl AllocGlobal,
    object: &[u8],
    changes: &[(usize, u8)],
    row: Row,
) -> Result<(), Fail> {
    let mut bytes = object.to_vec(rt.alloc())?;
    for (place, byte) in changes {
        match bytes.get_mut(*place) {
            Some(changed) => *changed = *byte,
            None => return Err(Fail::new(format_args!("no byte {place}"))),
        }
    }
    check_file(rt, bytes.as_slice(), row)
}
