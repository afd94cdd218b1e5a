//! How commands are written, and what their help says.
//!
//! `build/help.awk` reads these lists too, to answer requests for help before the program is compiled. So each list
//! ends with `];` at the start of a line.

/// The commands, three lines each: how it is written, what it does, and an example.
pub(crate) const COMMANDS: &[&str] = &[
    "compile SOURCE
compile a source and write its object
talft compile fibonacci.src >fibonacci.obj",
    "check OBJECT
report whether the typing rules accept an object
talft check five.obj",
    "run OBJECT [--steps N] [--fault STEP:SITE:WORD] [--wild LIST]
check an object and run it, with or without a fault
talft run five.obj --fault 4:r1:6",
    "recover OBJECT [--steps N] [--fault STEP:SITE:WORD] [--wild LIST]
run an object; if a fault is detected, run it again without the fault
talft recover five.obj --fault 4:r1:6",
    "exec SOURCE [--steps N]
compile a source and run its object
talft exec fibonacci.src --steps 5000",
    "trial OBJECT [--steps N] [--fault STEP:SITE:WORD] [--wild LIST]
run an object without checking it
talft trial five.obj --steps 100",
    "campaign OBJECT --faults FILE [--steps N] [--wild LIST]
check an object and try each fault of a list on it
talft campaign five.obj --faults five.faults",
    "survey OBJECT --faults FILE [--steps N] [--wild LIST]
try each fault of a list on an object without checking it
talft survey mixed.obj --faults mixed.faults",
    "mean SOURCE [--turns N]
write the output that a source specifies
talft mean fibonacci.src",
    "debug OBJECT [--wild LIST] <SCRIPT
run debugger commands from standard input
talft debug five.obj <five.script",
    "demo N
make an object of N turns, run it and try 64 faults on it; N is 1 to 10921
talft demo 100",
    "upgrade OBJECT
write an object in version 2 of the format
talft upgrade old.obj >new.obj",
    "asm TEXT
assemble a text and write its object
talft asm five.asm >five.obj",
    "dis OBJECT
write the assembly text of an object
talft dis five.obj",
    "schedule OBJECT
check an object and write its schedule
talft schedule five.obj >scheduled.obj",
    "link MAP
link the modules of a link map and write the object
talft link updown.map >updown.obj",
];

/// The options: how each is written, and its help text.
pub(crate) const OPTIONS: &[&str] = &[
    "--steps N                 run at most N steps: 0 to 1000000000, for campaign and survey 0 to 1000000 (default 1000000)",
    "--turns N                 run at most N loop iterations: 0 to 1000000000 (default 1000000)",
    "--fault STEP:SITE:WORD    before step STEP, counted from 0, the word at SITE becomes WORD (default no fault);
                            SITE is r0 to r63, d, pcg, pcb, qa0 to qa7 or qv0 to qv7; numbers are decimal, below 2^64",
    "--wild LIST               answers to loads from addresses without a cell, separated by commas, each a number or `stop` (default none)",
    "--faults FILE             the fault list: one STEP:SITE:WORD on each line",
];

/// The three lines of the command with this name.
pub(crate) fn command_lines(name: &str) -> Option<&'static str> {
    for command in COMMANDS {
        if first_word(*command) == name {
            return Some(*command);
        }
    }
    None
}

/// The part of a text before its first space.
pub fn first_word(text: &str) -> &str {
    match text.split_once(' ') {
        Some((word, _)) => word,
        None => text,
    }
}

/// How a command is written.
pub(crate) fn form(command: &'static str) -> &'static str {
    match command.split_once("\n") {
        Some((form, _)) => form,
        None => command,
    }
}

/// How the command that these words name is written; empty if they name none.
pub fn form_of_words(words: &[String]) -> &'static str {
    match words {
        [first, ..] => form(command_lines(first.as_str()).unwrap_or("")),
        [] => "",
    }
}

/// What a command does, and an example.
pub(crate) fn summary_and_example(command: &'static str) -> (&'static str, &'static str) {
    let Some((_, rest)) = command.split_once("\n") else {
        return ("", "");
    };
    match rest.split_once("\n") {
        Some(parts) => parts,
        None => (rest, ""),
    }
}

/// What the operand of a command is called.
pub(crate) fn operand_of(command: &'static str) -> &'static str {
    match form(command).split_once(' ') {
        Some((_, rest)) => first_word(rest),
        None => "",
    }
}

/// What the value of an option of a command is called; `None` if the command does not take the option.
pub(crate) fn value_of(command: &'static str, option: &str) -> Option<&'static str> {
    let mut is_next = false;
    for word in form(command).split(' ') {
        if is_next {
            return Some(word.strip_suffix("]").unwrap_or(word));
        }
        is_next = option.starts_with("--") && word.strip_prefix("[").unwrap_or(word) == option;
    }
    None
}

/// The largest number that a command takes as its operand or as the value of an option.
pub(crate) fn most_of(command: &'static str) -> u64 {
    match first_word(command).as_bytes() {
        b"campaign" | b"survey" => 1_000_000,
        b"demo" => 10_921,
        _ => 1_000_000_000,
    }
}
