//! Explanations of objects refused because of their words: cells, colours, types and stores.
use crate::calls::{Refused, check_refused};
use ft_worked_objects::{A, A2, I, N, P1, P3, P4, P8, P9, X2};
use std::test::Fail;

/// An object whose cell is refused, and an object for each premise that fails.
const REFUSED: &[Refused] = &[
    (
        A,
        &[(53, 1)],
        "file: error: cell 0, `out`, begins with 0, which is not a value of its type code:0\n",
    ),
    (
        P1,
        &[],
        "file: error: block 0, instruction 4: a register that it reads has no type (premise 1)\n  st_G r0 r9\n  r0: G ref:int\n  r9: no type\n",
    ),
    (
        A2,
        &[],
        "file: error: block 0, instruction 3: its two operands do not have the same colour (premise 2)\n  add r33 r1 B 0\n  r1: G int\n",
    ),
    (
        P3,
        &[],
        "file: error: block 0, instruction 1: its word is not a value of the type that it claims (premise 3)\n  mov r1 G 5 ref:int\n  no cell has the address 5: the only cell is at 1048576\n",
    ),
    (
        P4,
        &[],
        "file: error: block 0, instruction 4: its address register does not hold the address of a cell (`ref`) (premise 4)\n  st_G r1 r0\n  r1: G int\n  r0: G ref:int\n  the register with the address comes first, then the one with the value\n",
    ),
    (
        N,
        &[],
        "file: error: block 0, instruction 10: eight stores are already pending (premise 7)\n  st_G r0 r1\n  r0: G ref:int\n  r1: G int\n",
    ),
    (
        P8,
        &[],
        "file: error: block 0, instruction 5: no green store is pending (premise 8)\n  st_B r32 r33\n  r32: B ref:int\n  r33: B int\n",
    ),
    (
        P9,
        &[],
        "file: error: block 0, instruction 5: its address is not known to be that of the oldest pending store (premise 9)\n  st_B r32 r33\n  r32: B ref:int\n  r33: B int\n",
    ),
    (
        X2,
        &[],
        "file: error: block 0, instruction 7: its value is not known to be that of the oldest pending store (premise 10)\n  st_B r32 r34\n  r32: B ref:int\n  r34: B int\n",
    ),
    (
        I,
        &[(68, 1), (77, 0x10)],
        "file: error: block 0, instruction 1: the cells of its run do not all have the same type, or that type has 8 `ref`s (premise 18)\n  idx r1 r0 0 3\n  r0: G int\n",
    ),
];

#[test]
fn words_that_are_not_accepted_are_explained(rt: HostRuntime) -> Result<(), Fail> {
    check_refused(&rt, REFUSED)
}
