//! Explanations of refused assembly texts.
use crate::calls::{check_said, check_told};
use std::test::Fail;

/// Texts, each with its explanation.
const TEXTS: &[(&str, &str)] = &[
    (
        "cel out int 0\nentry 0\n",
        "file:1:1: error: unknown instruction `cel`; did you mean `cell`?\n cel out int 0\n ^~~\n",
    ),
    (
        "ret\n",
        "file:1:1: error: unknown instruction `ret`: there are no calls: `jmp_G` and `jmp_B` jump to an address in a register\n ret\n ^~~\n",
    ),
    (
        "NOP\n",
        "file:1:1: error: unknown instruction `NOP`: delete the line\n NOP\n ^~~\n",
    ),
    (
        "rev r1 r2\n",
        "file:1:1: error: unknown instruction `rev`; did you mean `reg`?\n rev r1 r2\n ^~~\n",
    ),
    (
        "node 0 memory\ntype 0 0\nblock 0\nrev r1 r2\nhalt\nentry 0\n",
        "file:4:1: error: unknown instruction `rev`: `man talft-assembly` lists the instructions\n rev r1 r2\n ^~~\n",
    ),
    (
        "node 0 memory\ntype 0 0\nblock 0\n\tmov r0 G 7\nhalt\nentry 0\n",
        "file:4:12: error: missing BASIC, the type of the word: `int`, `ref:int` for the address of a cell, or `code:T` for that of a block: `mov` is followed by R C W BASIC\n \tmov r0 G 7\n \t          ^\n",
    ),
    (
        "node 0 memory\ntype 0 0\nblock 0\nadd r0 r1\nhalt\nentry 0\n",
        "file:4:10: error: missing R, a register: `add` is followed by R R R, or R R C W\n add r0 r1\n          ^\n",
    ),
    (
        "mov r64 G 5 int\n",
        "file:1:5: error: invalid `r64`: a register is r0 to r63\n mov r64 G 5 int\n     ^~~\n",
    ),
    (
        "add r1 r2 G 0x5\n",
        "file:1:13: error: invalid `0x5`: numbers are decimal\n add r1 r2 G 0x5\n             ^~~\n",
    ),
    (
        "mov r1 G 18446744073709551616 int\n",
        "file:1:10: error: invalid `18446744073709551616`: the largest number is 18446744073709551615 (2^64 - 1)\n mov r1 G 18446744073709551616 int\n          ^~~~~~~~~~~~~~~~~~~~\n",
    ),
    (
        "mov r1 G 05 int\n",
        "file:1:10: error: invalid `05`: numbers have no leading zeros\n mov r1 G 05 int\n          ^~\n",
    ),
    (
        "type 256 0\n",
        "file:1:6: error: invalid `256`: the largest number here is 255\n type 256 0\n      ^~~\n",
    ),
    (
        "mov r1, G 5 int\n",
        "file:1:5: error: invalid `r1,`: words are separated by spaces, without commas\n mov r1, G 5 int\n     ^~~\n",
    ),
    (
        "MOV r1 G 5 int\n",
        "file:1:1: error: unknown instruction `MOV`; did you mean `mov`?\n MOV r1 G 5 int\n ^~~\n",
    ),
    (
        "movi r1 G 5 int\n",
        "file:1:1: error: unknown instruction `movi`; did you mean `mov`?\n movi r1 G 5 int\n ^~~~\n",
    ),
    (
        "ld r1 r2\n",
        "file:1:1: error: unknown instruction `ld`: write `ld_G` for green or `ld_B` for blue\n ld r1 r2\n ^~\n",
    ),
    (
        "halt;\n",
        "file:1:1: error: unexpected `halt;`: lines do not end with `;`\n halt;\n ^~~~~\n",
    ),
    (
        "cell out int\n",
        "file:1:13: error: missing INIT, a number: `cell` is followed by NAME BASIC INIT\n cell out int\n             ^\n",
    ),
    (
        "block\n",
        "file:1:6: error: missing TYPE, the number of a type: `block` is followed by TYPE\n block\n      ^\n",
    ),
    (
        "main:\n",
        "file:1:1: error: unexpected `main:`: there are no labels: `block TYPE` begins a block, and blocks are numbered from 0\n main:\n ^~~~~\n",
    ),
    (
        "; the end\n",
        "file:1:1: error: unexpected `;`: a comment begins with `#`, on a line of its own\n ; the end\n ^\n",
    ),
    (
        "halt // the end\n",
        "file:1:6: error: unexpected `//`: a comment begins with `#`, on a line of its own\n halt // the end\n      ^~\n",
    ),
    (
        "halt # the end\n",
        "file:1:6: error: unexpected `#`: a comment begins with `#`, on a line of its own\n halt # the end\n      ^\n",
    ),
    (
        "st_G r0 r1 r2\n",
        "file:1:12: error: unexpected `r2`: nothing may follow on this line\n st_G r0 r1 r2\n            ^~\n",
    ),
    (
        "block 0\r\n",
        "file:1:8: error: the line ends with a carriage return: save the file with Unix line endings\n block 0?\n        ^\n",
    ),
    (
        "\u{feff}halt\n",
        "file:1:1: error: the file begins with a byte order mark: save it without one\n ?halt\n ^\n",
    ),
    (
        "node 0 word\n",
        "file:1:12: error: missing W, a number: `node` is followed by SCOPE, a kind and its operands, as in `node 0 word 5`\n node 0 word\n            ^\n",
    ),
    (
        "TALFT",
        "file: error: this is an object, not an assembly text: `talft dis FILE` writes its assembly text\n",
    ),
    (
        "cell out = 0;\n",
        "file: error: this is a source, not an assembly text: `talft compile FILE >OBJECT` makes an object\n",
    ),
    ("", "file: error: the file is empty\n"),
    (
        "entry 0\nhalt\n",
        "file:2:1: error: nothing may follow `entry`, which is line 1: move that line to the end\n halt\n ^~~~\n",
    ),
    (
        "node 0 memory\ntype 0 0\nblock 0\nhalt\nentry 0\nentry 0\n",
        "file:6:1: error: `entry` is there twice: delete this line or line 5\n entry 0\n ^~~~~\n",
    ),
    (
        "node 0 memory\n",
        "file: error: the text ends before line 2: its last line must be `entry B`\n",
    ),
];

/// Texts whose tables break a rule, each with its explanation.
const TABLES: &[(&str, &str)] = &[
    (
        "cell out int 0\nnode 5 memory\ntype 0 0\nblock 0\nhalt\nentry 0\n",
        "file:3:8: error: invalid `0`: the scope of node 0 is larger than the one here\n type 0 0\n        ^\n",
    ),
    (
        "node 0 memory\ntype 0 0\nblock 0\nhalt\nentry 3\n",
        "file:5:7: error: there is no block 3: the text has 1 block, numbered from 0\n entry 3\n       ^\n",
    ),
    (
        "node 0 memory\ntype 0 0\nblock 4\nhalt\nentry 0\n",
        "file:3:7: error: invalid `4`: there is no type 4: the text has 1 type, numbered from 0\n block 4\n       ^\n",
    ),
    (
        "# a comment\nnode 0 memory\n\nnode 0 var 3\ntype 0 0\nblock 0\nhalt\nentry 0\n",
        "file:4:12: error: invalid `3`: a variable's number must be below the scope of its node\n node 0 var 3\n            ^\n",
    ),
    (
        "node 0 memory\ntype 0 7\nblock 0\nhalt\nentry 0\n",
        "file:2:8: error: invalid `7`: there is no node 7: the text has 1 node, numbered from 0\n type 0 7\n        ^\n",
    ),
    (
        "node 0 memory\nnode 0 add 1 1\ntype 0 0\nblock 0\nhalt\nentry 0\n",
        "file:2:12: error: invalid `1`: this is node 1, and a node may refer only to earlier nodes\n node 0 add 1 1\n            ^\n",
    ),
    (
        "node 0 word 1\ntype 0 0\nblock 0\nhalt\nentry 0\n",
        "file:2:8: error: invalid `0`: this node is an integer, but a memory is needed here\n type 0 0\n        ^\n",
    ),
    (
        "cell out int 0\ncell out int 1\nnode 0 memory\ntype 0 0\nblock 0\nhalt\nentry 0\n",
        "file:2:6: error: invalid `out`: an earlier cell has this name\n cell out int 1\n      ^~~\n",
    ),
    (
        "cell 9out int 0\nnode 0 memory\ntype 0 0\nblock 0\nhalt\nentry 0\n",
        "file:1:6: error: invalid `9out`: a name begins with a letter or `_`\n cell 9out int 0\n      ^~~~\n",
    ),
    (
        "cell a code:2 0\nnode 0 memory\ntype 0 0\nblock 0\nhalt\nentry 0\n",
        "file:1:8: error: invalid `code:2`: there is no type 2: the text has 1 type, numbered from 0\n cell a code:2 0\n        ^~~~~~\n",
    ),
    (
        "node 0 memory\ntype 0 0\nreg r1 G int 0\nblock 0\nhalt\nentry 0\n",
        "file:3:14: error: invalid `0`: this node is a memory, but an integer is needed here\n reg r1 G int 0\n              ^\n",
    ),
    (
        "node 0 memory\nnode 0 word 1\ntype 0 0\nreg r2 G int 1\nreg r1 G int 1\nblock 0\nhalt\nentry 0\n",
        "file:5:5: error: invalid `r1`: the `reg` lines of a type list each register at most once, in ascending order\n reg r1 G int 1\n     ^~\n",
    ),
    (
        "node 0 memory\ntype 0 0\nblock 0\nblock 0\nhalt\nentry 0\n",
        "file:4:1: error: the block before this one has no instruction\n block 0\n ^~~~~\n",
    ),
    (
        "node 0 memory\nblock 0\nhalt\nentry 0\n",
        "file: error: the text has 0 types: 1 to 4096 are allowed\n",
    ),
    (
        "node 0 memory\ntype 0 0\nblock 0\njmp_B r1 0 5\nentry 0\n",
        "file:4:12: error: invalid `5`: there is no node 5: the text has 1 node, numbered from 0\n jmp_B r1 0 5\n            ^\n",
    ),
    (
        "node 0 memory\ntype 0 0\nblock 0\nidx r1 r2 0 3\nhalt\nentry 0\n",
        "file:4:11: error: invalid `0`: there is no cell 0: the text has 0 cells, numbered from 0\n idx r1 r2 0 3\n           ^\n",
    ),
    (
        "cell out int 0\nnode 0 memory\ntype 0 0\nblock 0\nidx r2 r1 0 5\nhalt\nentry 0\n",
        "file:5:13: error: invalid `5`: cells 0 to 4 are named, but the text has 1 cell\n idx r2 r1 0 5\n             ^\n",
    ),
    (
        "cell a int 0\ncell b int 0\nnode 0 memory\ntype 0 0\nblock 0\nidx r2 r1 1 2\nhalt\nentry 0\n",
        "file:6:13: error: invalid `2`: cells 1 to 2 are named, but the text has 2 cells\n idx r2 r1 1 2\n             ^\n",
    ),
];

#[test]
fn refused_texts_are_explained(rt: HostRuntime) -> Result<(), Fail> {
    for (source, text) in TEXTS {
        check_said(&rt, "asm file", &[("file", source.as_bytes())], text)?;
    }
    Ok(())
}

#[test]
fn broken_rules_are_explained_at_their_lines(rt: HostRuntime) -> Result<(), Fail> {
    for (source, text) in TABLES {
        check_said(&rt, "asm file", &[("file", source.as_bytes())], text)?;
    }
    Ok(())
}

#[test]
fn a_text_that_is_too_long_is_explained(rt: HostRuntime) -> Result<(), Fail> {
    let text = "file: error: the text is too long: at most 134217728 bytes are allowed\n";
    check_told(&rt, "asm file", 12, "asm 3 134217728\n", &[], text)
}
