//! Explanations of objects refused because of their control flow: the entry block, jumps, branches and ends.
use crate::calls::{Refused, check_refused};
use ft_worked_objects::{A, J, P5, P6, P11, P12, P13, P14, P15, P16, P17};
use std::test::Fail;

/// An object whose entry block is refused, and an object for each premise that fails.
const REFUSED: &[Refused] = &[
    (
        A,
        &[(92, 1)],
        "file: error: a run cannot begin in block 0: its code type 0 has 1 integer variable, but it must have none\n",
    ),
    (
        P5,
        &[],
        "file: error: block 0, instruction 4: its target register does not hold the address of a block (`code`) (premise 5)\n  jmp_G r1\n  r1: G int\n",
    ),
    (
        P6,
        &[],
        "file: error: block 0, instruction 5: no `jmp_G` is pending (premise 6)\n  jmp_B r33 0 2\n  r33: B code:1\n",
    ),
    (
        P11,
        &[],
        "file: error: block 0, instruction 5: the word that it tests is not known to be the one that `bz_G` tests (premise 11)\n  bz_B r32 r33 0 2\n  r32: B int\n  r33: B code:1\n",
    ),
    (
        P12,
        &[],
        "file: error: block 0, instruction 5: its target is not known to be that of the green jump or branch (premise 12)\n  jmp_B r33 0 2\n  r33: B code:0\n",
    ),
    (
        P13,
        &[],
        "file: error: block 0, instruction 5: a register is not what the target's code type expects (premise 13)\n  jmp_B r33 0 2\n  r33: B code:1\n  the colours and types match code type 1, but one of these registers does not have the expected value: r0 r32\n",
    ),
    (
        J,
        &[(203, 0)],
        "file: error: block 0, instruction 5: a register is not what the target's code type expects (premise 13)\n  jmp_B r33 0 2\n  r33: B code:1\n  r32: G int, but code type 1 expects B int\n",
    ),
    (
        P14,
        &[],
        "file: error: block 0, instruction 6: a green store is still waiting for its blue one (premise 14)\n  halt\n",
    ),
    (
        P15,
        &[],
        "file: error: block 0, instruction 9: the memory is not known to be what the target's code type expects (premise 15)\n  jmp_B r33 0 2\n  r33: B code:1\n",
    ),
    (
        P16,
        &[],
        "file: error: block 0, instruction 5: its substitution does not fit the integer variables of the target or of this block (premise 16)\n  jmp_B r33 0\n  r33: B code:1\n  the substitution has 0 rows, but code type 1 has 1 integer variable\n",
    ),
    (
        P17,
        &[],
        "file: error: block 0, instruction 5: it is the last instruction of its block, but a block must end with `jmp_B` or `halt` (premise 17)\n  st_B r32 r33\n  r32: B ref:int\n  r33: B int\n",
    ),
];

#[test]
fn transfers_that_are_not_accepted_are_explained(rt: HostRuntime) -> Result<(), Fail> {
    check_refused(&rt, REFUSED)
}
