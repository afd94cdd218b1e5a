//! Explanations of refused fault lists, campaigns and scripts, and of files that cannot be read.
use crate::calls::{check_said, check_told};
use ft_tests::repeated;
use ft_worked_objects::A;
use std::test::Fail;

#[test]
fn a_line_that_is_no_fault_is_shown(rt: HostRuntime) -> Result<(), Fail> {
    let list = b"4:r1:6\n4:r99:6\n4:r1:6\n";
    let text =
        "list:2:5: error: invalid fault: expected STEP:SITE:WORD; invalid site `r99`: a site is r0 to r63, d, pcg, pcb, qa0 to qa7 or qv0 to qv7\n 4:r99:6\n     ^\n";
    check_said(
        &rt,
        "survey file --faults list",
        &[("file", A), ("list", list)],
        text,
    )
}

#[test]
fn a_campaign_that_is_too_long_is_explained(rt: HostRuntime) -> Result<(), Fail> {
    let list = repeated(&rt, "", "0:r0:0\n", 1_001)?;
    let text =
        "list: error: the campaign is too long: faults times steps is 1001000000, and at most 1000000000 is allowed; give fewer faults or a smaller `--steps`\n";
    check_said(
        &rt,
        "campaign file --faults list",
        &[("file", A), ("list", list.as_bytes())],
        text,
    )
}

/// Lines of a list that are not faults, each with its explanation.
const LINES: &[(&str, &str)] = &[
    (
        "4:r1:6\r\n",
        "list:1:7: error: the line ends with a carriage return: save the file with Unix line endings\n 4:r1:6?\n       ^\n",
    ),
    (
        "\u{feff}4:r1:6\n",
        "list:1:1: error: the file begins with a byte order mark: save it without one\n ?4:r1:6\n ^\n",
    ),
    (
        "4:r1:6\n\n",
        "list:2:1: error: empty lines are not allowed in this file\n \n ^\n",
    ),
    (
        "# a\n",
        "list:1:1: error: comments are not allowed in this file\n # a\n ^\n",
    ),
    (
        "4:r1:6 \n",
        "list:1:7: error: the line ends with whitespace\n 4:r1:6 \n       ^\n",
    ),
    (
        "4:r1:06\n",
        "list:1:7: error: invalid fault: expected STEP:SITE:WORD; invalid word `06`: numbers have no leading zeros\n 4:r1:06\n       ^\n",
    ),
    (
        "4:r1:18446744073709551616\n",
        "list:1:25: error: invalid fault: expected STEP:SITE:WORD; invalid word `18446744073709551616`: the largest number is 18446744073709551615 (2^64 - 1)\n 4:r1:18446744073709551616\n                         ^\n",
    ),
    (
        "halt\n",
        "list: error: this is an assembly text, not a fault list: `talft asm FILE >OBJECT` makes an object\n",
    ),
    (
        "4:r1\n",
        "list:1:5: error: invalid fault: expected STEP:SITE:WORD; the word is missing\n 4:r1\n     ^\n",
    ),
    (
        "4:r1:6\tmasked\n",
        "list:1:7: error: this line has a verdict after the fault; a fault list has only STEP:SITE:WORD\n 4:r1:6\tmasked\n       ^\n",
    ),
    (
        "4:r1:6 10:r1:6\n",
        "list:1:8: error: only one fault per line\n 4:r1:6 10:r1:6\n        ^\n",
    ),
    (
        "4:r1 \t:6\n",
        "list:1:5: error: invalid fault: expected STEP:SITE:WORD; invalid site `r1 \t`: it contains a tab\n 4:r1 \t:6\n     ^\n",
    ),
];

#[test]
fn lines_that_are_no_fault_are_explained(rt: HostRuntime) -> Result<(), Fail> {
    for (list, text) in LINES {
        let files: &[(&str, &[u8])] = &[("file", A), ("list", list.as_bytes())];
        check_said(&rt, "survey file --faults list", files, text)?;
    }
    Ok(())
}

#[test]
fn lines_that_are_no_command_are_explained(rt: HostRuntime) -> Result<(), Fail> {
    let script: &[u8] =
        b"step 1\nstpe 2\nreg r64\n\nwhere\nback\t1\nP/x r1\nzap r1  6\ngo 1000001\nback\n";
    let text =
        "standard input:2:1: error: unknown command `stpe`; did you mean `step`?\n stpe 2\n ^\nstandard input:3:1: error: invalid command: expected `reg R`\n reg r64\n ^\nstandard input:4:1: error: empty lines are not allowed in this file\n \n ^\nstandard input:6:5: error: words are separated by one space, not by a tab\n back\t1\n     ^\nstandard input:7:1: error: unknown command `P/x`: `reg R` and `cell NAME` show a word; `talft-debugger` has `print`\n P/x r1\n ^\nstandard input:8:8: error: words are separated by one space\n zap r1  6\n        ^\nstandard input:9:1: error: invalid command: expected `go N`; the largest number here is 1000000\n go 1000001\n ^\nstandard input:10:1: error: invalid command: expected `back N`\n back\n ^\n";
    check_told(&rt, "debug file", 0, "", &[("script", script)], text)
}

/// Calls by words, status and line, each with its explanation if only the object exists.
const TOLD: &[(&str, u8, &str, &str)] = &[
    (
        "campaign file --faults list",
        11,
        "list 1 7\n",
        "list: error: line 7 is not a fault: expected STEP:SITE:WORD\n",
    ),
    (
        "campaign file --faults list",
        11,
        "list 2 65536\n",
        "list: error: the fault list is too long: at most 65536 lines and 4194304 bytes are allowed; `talft-campaign` splits longer lists\n",
    ),
    (
        "debug file",
        11,
        "list 4 1048576\n",
        "standard input: error: the script is too long: at most 1048576 bytes are allowed\n",
    ),
    ("check missing", 3, "", "missing: error: cannot be read\n"),
    ("check nowhere", 3, "", "nowhere: error: no such file\n"),
    ("check folder", 3, "", "folder: error: is a folder\n"),
    ("check secret", 3, "", "secret: error: permission denied\n"),
    (
        "check file/x/y",
        3,
        "",
        "file/x/y: error: `file` is not a folder\n",
    ),
    (
        "check nowhere/x/y",
        3,
        "",
        "nowhere/x/y: error: there is no folder `nowhere`\n",
    ),
    ("check folder/x", 3, "", "folder/x: error: cannot be read\n"),
    ("check secret/x", 3, "", "secret/x: error: cannot be read\n"),
    ("check file", 3, "", "talft: error: a file cannot be read\n"),
    ("debug file", 3, "", "error: standard input is a folder\n"),
    (
        "campaign file --steps 5 --faults list",
        3,
        "",
        "list: error: cannot be read\n",
    ),
    (
        "survey missing --faults list",
        3,
        "",
        "missing: error: cannot be read\nlist: error: cannot be read\n",
    ),
    (
        "run file",
        4,
        "out 5\n",
        "talft: error: the output could not be written\n",
    ),
    ("run file", 5, "", "talft: error: memory ran out\n"),
    ("run file", 0, "out 5\n", ""),
    (
        "compile own",
        6,
        "source 4 0\n",
        "own: error: standard output is this file, which the shell emptied: give the output another name\n",
    ),
    (
        "run file",
        9,
        "source 7 0\n",
        "file: still running after 1000000 steps: raise `--steps`\n",
    ),
    ("survey file --faults file", 10, "faults 1\n", ""),
    ("check file", 8, "accepted\n", ""),
];

#[test]
fn calls_are_explained_by_their_status(rt: HostRuntime) -> Result<(), Fail> {
    for (words, status, line, text) in TOLD {
        let files: &[(&str, &[u8])] = &[("file", A), ("own", b"source 4 0\n")];
        check_told(&rt, words, *status, line, files, text)?;
    }
    Ok(())
}
