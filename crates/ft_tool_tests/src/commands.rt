//! Each command once, with ample memory.
use ft_edge::{MemShelf, MemSink, SureSource};
use ft_tests::{Row, check_row, check_rows, check_script, status_of, worked_objects};
use std::process::Abort;
use std::test::Fail;

/// Commands on worked objects.
const OVER_OBJECTS: &[Row] = &[
    ("check A", "accepted\n", 0),
    ("check A2", "check block 0 index 3 premise 2\n", 8),
    ("run A --fault 10:r1:6", "out 5\n", 0),
    ("recover A --fault 4:r1:6", "out 5\nagain 0\n", 0),
    ("trial A2 --fault 4:r1:6", "out 6\n", 0),
    (
        "dis A",
        "cell out int 0\nnode 0 memory\ntype 0 0\nblock 0\nmov r0 G 1048576 ref:int\nmov r1 G 5 int\nmov r32 B 1048576 ref:int\nmov r33 B 5 int\nst_G r0 r1\nst_B r32 r33\nhalt\nentry 0\n",
        0,
    ),
    (
        "demo 3",
        "outputs 3 last 18\nfaults 64 masked 3 detected 0 idle 61 corrupt 0\n",
        0,
    ),
    ("--help", "usage\n", 2),
];

#[test]
fn commands_over_objects(rt: HostRuntime) -> Result<(), Fail> {
    check_rows(&rt, OVER_OBJECTS)
}

/// A fault list, a source, an assembly text and a link map.
const TEXTS: &[(&str, &[u8])] = &[
    ("list", b"4:r1:6\n"),
    ("source", b"cell out = 0; out = 7;"),
    ("text", b"entry 0\nhalt\n"),
    ("map", b"module A\nmodule X\n"),
];

/// Commands on texts.
const OVER_TEXTS: &[Row] = &[
    (
        "campaign A --faults list",
        "4:r1:6 detected 11\nfaults 1 masked 0 detected 1 idle 0 corrupt 0\n",
        0,
    ),
    (
        "survey A2 --faults list",
        "4:r1:6 corrupt\nfaults 1 masked 0 detected 0 idle 0 corrupt 1\n",
        10,
    ),
    ("mean source", "out 7\n", 0),
    ("exec source", "out 7\n", 0),
    ("compile text", "source 4 6\n", 6),
    ("asm text", "asm 2 2\n", 12),
    ("link map", "link 3 1\n", 13),
];

#[test]
fn commands_over_texts(rt: HostRuntime) -> Result<(), Fail> {
    let mut shelf = worked_objects(&rt)?;
    for (name, text) in TEXTS {
        shelf.add(name, text)?;
    }
    for row in OVER_TEXTS {
        let mut sink = MemSink::new(rt.alloc(), 300)?;
        check_row(&rt, *row, &mut shelf, &mut sink)?;
    }
    Ok(())
}

/// Commands that write an object.
const WRITERS: &[&str] = &[
    "compile source",
    "asm five",
    "upgrade A",
    "schedule A",
    "link one",
];

/// The texts that these commands read.
const READ: &[(&str, &[u8])] = &[
    ("source", b"cell out = 0; out = 7;"),
    (
        "five",
        b"cell out int 0\nnode 0 memory\ntype 0 0\nblock 0\nmov r0 G 1048576 ref:int\nmov r1 G 5 int\nmov r32 B 1048576 ref:int\nmov r33 B 5 int\nst_G r0 r1\nst_B r32 r33\nhalt\nentry 0\n",
    ),
    ("one", b"module A\n"),
];

#[test]
fn commands_that_write_an_object(rt: HostRuntime) -> Result<(), Fail> {
    let mut shelf = worked_objects(&rt)?;
    for (name, text) in READ {
        shelf.add(name, text)?;
    }
    for words in WRITERS {
        let mut sink = MemSink::new(rt.alloc(), 2_000)?;
        let status = status_of(&rt, words, &mut shelf, &mut sink)?;
        if status != 0 || !sink.written().starts_with(b"TALFT\0\0\x02") {
            return Err(Fail::new(format_args!("{words} answers {status}")));
        }
    }
    Ok(())
}

#[test]
fn a_session(rt: HostRuntime) -> Result<(), Fail> {
    let script = b"step 4\nzap r1 6\nstep 8\nback 8\nreg r1";
    let text = "at 4 running\nzapped\nat 12 detected\nat 4 running\nr1 G 6\n";
    check_script(&rt, ("debug A", text, 0), &mut SureSource::new(script))
}

#[test]
fn no_words_at_all(rt: HostRuntime) -> Result<(), Fail> {
    let mut sink = MemSink::new(rt.alloc(), 100)?;
    let mut shelf = MemShelf::new(rt.alloc());
    let status = ft_tool::tool(
        rt.alloc(),
        &[],
        &mut shelf,
        &mut SureSource::new(&[]),
        &mut sink,
    );
    assert_eq!(rt; status, 2);
    assert_eq!(rt; sink.written(), b"usage\n".as_slice());
    Ok(())
}
