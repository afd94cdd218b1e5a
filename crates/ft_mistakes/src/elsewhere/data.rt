//! Mnemonics of other machines that move words, load and store them, or compute with numbers.
use crate::elsewhere::Row;

/// The mnemonics, with the advice for each.
pub(super) const ROWS: &[Row] = &[
    (
        "push pushq pop popq enter leave",
        "there is no stack: `st_G` and `st_B` store, and `ld_G` and `ld_B` load",
    ),
    ("li ldi lui", "write `mov`, as in `mov r1 G 5 int`"),
    (
        "la lea leaq adr",
        "write `mov` with the address of the cell, as in `mov r1 G 1048576 ref:int`",
    ),
    (
        "mv",
        "to copy a register, add 0 to it, as in `add r1 r2 G 0`",
    ),
    (
        "lw lwu lb lbu lh lhu lwz ldr ldrb lda load",
        "write `ld_G` for green or `ld_B` for blue",
    ),
    (
        "sw sb sh sd stw str strb sta store",
        "write `st_G` for green or `st_B` for blue",
    ),
    ("inc incl incq", "write `add` with 1, as in `add r1 r1 G 1`"),
    ("dec decl decq", "write `sub` with 1, as in `sub r1 r1 G 1`"),
    (
        "neg negl negq",
        "multiply by 18446744073709551615 (2^64 - 1), as in `mul r1 r1 G 18446744073709551615`",
    ),
    (
        "div divu idiv mod modu rem remu",
        "there is no division; `idx` takes a number modulo the length of an array",
    ),
    ("clr", "write `mov` with 0, as in `mov r1 G 0 int`"),
];
