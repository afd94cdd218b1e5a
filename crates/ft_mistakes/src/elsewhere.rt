//! Mnemonics of other machines, commands of other debuggers, and what to write instead.
mod bits;
mod control;
mod data;
mod debuggers;

/// Words, separated by spaces, and the advice for each.
type Row = (&'static str, &'static str);

/// The mnemonics of other machines.
const MACHINES: &[&[Row]] = &[control::ROWS, data::ROWS, bits::ROWS];

/// Whether a word is in a list of words separated by spaces. Case is ignored.
fn is_among(word: &str, known: &'static str) -> bool {
    known.split(' ').any(|one| one.eq_ignore_ascii_case(word))
}

/// The advice that a table gives for a word.
fn said_in(rows: &'static [Row], word: &str) -> Option<&'static str> {
    let mut found = None;
    for (known, said) in rows {
        if is_among(word, *known) {
            found = Some(*said);
        }
    }
    found
}

/// The advice for a mnemonic of another machine. The mnemonic of this machine with the most similar spelling often
/// means something else.
pub(crate) fn of_machine(word: &str) -> Option<&'static str> {
    for rows in MACHINES {
        if let Some(said) = said_in(*rows, word) {
            return Some(said);
        }
    }
    None
}

/// A command without its format, as in `x/4`.
fn before_format(word: &str) -> &str {
    match word.split_once('/') {
        Some((name, _)) => name,
        None => word,
    }
}

/// The advice for a command of another debugger.
pub(crate) fn of_debugger(word: &str) -> Option<&'static str> {
    said_in(debuggers::ROWS, before_format(word))
}
