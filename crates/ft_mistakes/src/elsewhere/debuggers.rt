//! Commands of other debuggers, and commands that exist at the prompt but not in scripts.
use crate::elsewhere::Row;

/// The commands, with the advice for each.
pub(super) const ROWS: &[Row] = &[
    ("quit exit q", "a session ends when its input ends"),
    (
        "print p output display examine inspect",
        "`reg R` and `cell NAME` show a word; `talft-debugger` has `print`",
    ),
    (
        "x",
        "`cell NAME` shows the word of a cell; `talft-debugger` has `x`",
    ),
    (
        "info i",
        "`where`, `reg R`, `cell NAME` and `queue` show the state; `talft-debugger` has `info`",
    ),
    (
        "list l disassemble disas",
        "`talft dis OBJECT` writes the instructions; `talft-debugger` has `disassemble`",
    ),
    (
        "backtrace bt frame",
        "`where` shows the place: there are no calls",
    ),
    (
        "run r continue cont c",
        "`go N` takes N steps, up to a breakpoint",
    ),
    (
        "next n nexti ni stepi si s",
        "`step N` takes N steps, and an instruction takes two",
    ),
    (
        "reverse-step reverse-stepi rs rsi",
        "`back N` goes back N steps",
    ),
    ("b", "`break B I` sets a breakpoint"),
    ("set flip", "`zap SITE WORD` changes a word"),
    (
        "help h ?",
        "a script has `step`, `go`, `back`, `zap`, `reg`, `queue`, `cell`, `where` and `break`",
    ),
    (
        "watch delete until finish end undo diff explain plan line goto tbreak source record",
        "`talft-debugger` has this command",
    ),
];
