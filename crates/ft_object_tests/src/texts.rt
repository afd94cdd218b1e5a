//! Texts, and why they are refused.
use ft_asm::AsmError;
use ft_object::ObjectError;

/// The text of the worked object that stores 5.
pub(crate) const FIVE: &[u8] =
    b"cell out int 0\nnode 0 memory\ntype 0 0\nblock 0\nmov r0 G 1048576 ref:int\nmov r1 G 5 int\nmov r32 B 1048576 ref:int\nmov r33 B 5 int\nst_G r0 r1\nst_B r32 r33\nhalt\nentry 0\n";

/// The text of the worked object with a jump, a code type with rows and a substitution.
pub(crate) const JUMP: &[u8] =
    b"cell out int 0\nnode 0 memory\nnode 1 var 0\nnode 0 word 5\ntype 0 0\ntype 1 0\nreg r0 G int 1\nreg r32 B int 1\nblock 0\nmov r0 G 5 int\nmov r32 B 5 int\nmov r1 G 7 code:1\nmov r33 B 7 code:1\njmp_G r1\njmp_B r33 0 2\nblock 1\nmov r2 G 1048576 ref:int\nmov r34 B 1048576 ref:int\nst_G r2 r0\nst_B r34 r32\nhalt\nentry 0\n";

/// The text of the worked object with a run of cells.
pub(crate) const RUN: &[u8] =
    b"cell a[0] int 0\ncell a[1] int 0\ncell a[2] int 0\nnode 0 memory\ntype 0 0\nblock 0\nmov r0 G 4 int\nidx r1 r0 0 3\nmov r2 G 9 int\nmov r32 B 4 int\nidx r33 r32 0 3\nmov r34 B 9 int\nst_G r1 r2\nst_B r33 r34\nhalt\nentry 0\n";

/// The same object as `FIVE`, with blanks, comments, lines without words and no last line feed.
pub(crate) const FIVE_COMMENTED: &[u8] =
    b"# stores 5\n\n\t cell\tout  int 0 \n #\nnode 0 memory\n#x y\ntype 0 0\nblock 0\n  mov r0 G 1048576 ref:int\n  mov r1 G 5 int\n\n  mov r32 B 1048576 ref:int\n  mov r33 B 5 int\n  st_G r0 r1\n  st_B r32 r33\n  halt\n\nentry 0";

/// Texts with a line that has none of the forms, and the number of that line.
pub(crate) const FORMLESS: &[(&[u8], u32)] = &[
    (b"cel out int 0\n", 1),
    (b"cell out int\n", 1),
    (b"cell out int 0 0\n", 1),
    (b"cell out ref int 0\n", 1),
    (b"cell out ref:ref: 0\n", 1),
    (b"cell out Int 0\n", 1),
    (b"cell out code 0\n", 1),
    (b"cell out code:65536 0\n", 1),
    (b"cell out int 00\n", 1),
    (b"cell out int -1\n", 1),
    (b"cell out int 0x5\n", 1),
    (b"node 256 memory\n", 1),
    (b"node 0 memory 0\n", 1),
    (b"node 0 word 18446744073709551616\n", 1),
    (b"node 0 word 184467440737095516150\n", 1),
    (b"node 0 var 256\n", 1),
    (b"node 0 add 0 4294967296\n", 1),
    (b"node 0 div 0 0\n", 1),
    (b"node 0 rem 0\n", 1),
    (b"type 256 0\n", 1),
    (b"type 0 0\nreg r64 G int 0\n", 2),
    (b"type 0 0\nreg r00 G int 0\n", 2),
    (b"type 0 0\nreg 0 G int 0\n", 2),
    (b"type 0 0\nreg r0 g int 0\n", 2),
    (b"block 0\nadd r0 r1\n", 2),
    (b"block 0\nadd r0 r1 G\n", 2),
    (b"block 0\nadd r0 r1 r2 r3\n", 2),
    (b"block 0\nADD r0 r1 r2\n", 2),
    (b"block 0\njmp_B r0\n", 2),
    (b"block 0\njmp_B r0 0 1 x\n", 2),
    (b"block 0\nhalt 0\n", 2),
    (b"block 0\n#\n\nhalt\r\n", 4),
    (b"entry 0\r\n", 1),
    (b"entry 0\0\n", 1),
    (b"entry 0\n\0", 2),
    (b"entry 0\nentry\n", 2),
];

/// Texts with a line that has one of the forms but is not allowed there, or with a missing line; and the line's number.
pub(crate) const DISORDERED: &[(&[u8], u32)] = &[
    (b"", 1),
    (b"\n", 2),
    (b"#", 2),
    (b"cell out int 0", 2),
    (b"cell out int 0\n", 2),
    (b"node 0 word 18446744073709551615\n", 2),
    (b"node 0 memory\ncell out int 0\n", 2),
    (b"reg r0 G int 0\n", 1),
    (b"pend 0 0\n", 1),
    (b"halt\n", 1),
    (b"type 0 0\nnode 0 memory\n", 2),
    (b"type 0 0\npend 0 0\nreg r0 G int 0\n", 3),
    (b"type 0 0\nhalt\n", 2),
    (b"block 0\ntype 0 0\n", 2),
    (b"block 0\nhalt\nreg r0 G int 0\n", 3),
    (b"block 0\ncell out int 0\n", 2),
    (b"entry 0\nentry 0\n", 2),
    (b"entry 0\n\n#\nhalt\nx\n", 4),
];

/// Texts whose lines are in order but whose tables break a rule of the format, with the first error.
pub(crate) const BROKEN: &[(&[u8], ObjectError)] = &[
    (b"entry 0\n", ObjectError::Count { at: 16 }),
    (b"type 0 0\nentry 0\n", ObjectError::Count { at: 28 }),
    (
        b"type 0 0\nblock 0\nentry 0\n",
        ObjectError::Count { at: 32 },
    ),
    (
        b"type 0 0\nblock 0\nhalt\nentry 1\n",
        ObjectError::Entry { at: 44 },
    ),
    (
        b"type 0 0\nblock 0\nhalt\nentry 0\n",
        ObjectError::Index { at: 56 },
    ),
    (
        b"cell out int 0\nnode 5 memory\ntype 0 0\nblock 0\nhalt\nentry 0\n",
        ObjectError::Index { at: 88 },
    ),
    (
        b"cell 0 int 0\nnode 0 memory\ntype 0 0\nblock 0\nhalt\nentry 0\n",
        ObjectError::Name { at: 120 },
    ),
    (
        b"cell a\0b int 0\nnode 0 memory\ntype 0 0\nblock 0\nhalt\nentry 0\n",
        ObjectError::Name { at: 121 },
    ),
    (
        b"cell a code:1 0\nnode 0 memory\ntype 0 0\nblock 0\nhalt\nentry 0\n",
        ObjectError::Index { at: 54 },
    ),
    (
        b"node 0 rem 0 1\ntype 0 0\nblock 0\nhalt\nentry 0\n",
        ObjectError::Index { at: 52 },
    ),
    (
        b"node 0 memory\ntype 0 0\nblock 0\nblock 0\nhalt\nentry 0\n",
        ObjectError::Order { at: 88 },
    ),
    (
        b"node 0 memory\ntype 0 0\nblock 0\nidx r0 r0 0 1\nentry 0\n",
        ObjectError::Index { at: 92 },
    ),
];

/// The refusal of a text because of a line that has none of the forms.
pub(crate) fn formless(line: u32) -> AsmError {
    AsmError::Text { line }
}

/// The refusal of a text because of a line that is out of place or missing.
pub(crate) fn disordered(line: u32) -> AsmError {
    AsmError::Order { line }
}
