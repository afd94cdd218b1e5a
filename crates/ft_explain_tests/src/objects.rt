//! Explanations of bytes that spell no object.
use crate::calls::{check_altered, check_said, check_told};
use ft_worked_objects::A;
use std::test::Fail;

/// Alterations of `A`: the place, the new byte, and the explanation.
const ALTERED: &[(usize, u8, &str)] = &[
    (
        0,
        0x55,
        "file: error: this is not an object: it does not begin with TALFT and version 1 or 2\n",
    ),
    (
        10,
        0x04,
        "file: error: a count, a scope or a length is out of its range\n  byte 8, the header: the number of cells, 1025\n",
    ),
    (
        67,
        0x01,
        "file: error: padding, or a field that the record does not use, is not zero\n  byte 67, node 0: a field that is not used, 1\n",
    ),
    (
        104,
        0x08,
        "file: error: a code is unknown, a type has more than 8 `ref`s, or a node is of the wrong kind\n  byte 104, instruction 0: its kind, 8\n",
    ),
    (
        64,
        0x02,
        "file: error: a number refers to a part that does not exist, or that this part may not refer to\n  byte 68, node 0: its first part, 0\n",
    ),
    (
        99,
        0x01,
        "file: error: ends, starts or registers are not in ascending order, or there is a stray row or byte\n  byte 96, block 0: its first instruction, 1\n",
    ),
    (
        216,
        0x30,
        "file: error: a cell's name is too long, has a byte that is not allowed, or is used twice\n  byte 216, name byte 0: the byte itself, 48\n",
    ),
    (
        47,
        0x01,
        "file: error: the entry block does not exist\n  byte 44, the header: the entry block, 1\n",
    ),
];

#[test]
fn refused_objects_are_explained(rt: HostRuntime) -> Result<(), Fail> {
    for (place, byte, text) in ALTERED {
        check_altered(&rt, A, &[(*place, *byte)], text)?;
    }
    Ok(())
}

#[test]
fn lengths_are_explained(rt: HostRuntime) -> Result<(), Fail> {
    let text =
        "file: error: the object has 3 bytes, fewer than the 48 of its header: it is cut off; copy it again\n";
    check_said(&rt, "trial file", &[("file", &A[..3])], text)?;
    let text =
        "file: error: the object has 218 bytes, but its header requires 219: it is cut off; copy it again\n";
    check_said(&rt, "upgrade file", &[("file", &A[..218])], text)?;
    let text = "file: error: the object is too long: at most 67108864 bytes are allowed\n";
    check_told(&rt, "dis file", 7, "object 2 67108864\n", &[], text)
}

/// Files that are not objects, each with its explanation.
const OTHERS: &[(&[u8], &str)] = &[
    (
        b"cell out = 0;\n",
        "file: error: this is a source, not an object: `talft compile FILE >OBJECT` makes an object\n",
    ),
    (
        b"# five\ncell out int 0\n",
        "file: error: this is an assembly text, not an object: `talft asm FILE >OBJECT` makes an object\n",
    ),
    (
        b"4:r1:6\n",
        "file: error: this is a fault list, not an object: pass it with `--faults`\n",
    ),
    (
        b"module a.obj\n",
        "file: error: this is a link map, not an object: `talft link FILE >OBJECT` makes an object\n",
    ),
    (
        b"step 4\n",
        "file: error: this is a debugger script, not an object: `talft debug OBJECT <FILE` runs it\n",
    ),
    (
        b"\0asm\x01\0\0\0",
        "file: error: this is a WebAssembly module, not an object: `talft-cc FILE -o OBJECT` makes an object\n",
    ),
    (
        b"\xff\xfec\0e\0",
        "file: error: this is UTF-16 text, not an object: save it as ASCII text\n",
    ),
    (
        b"hello\n",
        "file: error: this is plain text, not an object: `talft compile`, `talft asm` and `talft-cc` make objects\n",
    ),
    (b"", "file: error: the file is empty\n"),
];

#[test]
fn other_files_are_no_objects(rt: HostRuntime) -> Result<(), Fail> {
    for (bytes, text) in OTHERS {
        check_said(&rt, "check file", &[("file", *bytes)], text)?;
    }
    Ok(())
}
