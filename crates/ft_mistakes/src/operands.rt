//! The operands of the lines of assembly texts.
use crate::kinds::say_kinds;
use crate::lines::begins_comment;
use crate::numbers::{is_number, say_misfit};
use crate::page::Page;
use ft_isa::{NoMemory, Site, read_site};

/// The maximum number of `ref:` in a basic type.
const MOST_REFS: usize = 255;

/// An operand that does not fit its form: its place in the line, its text, and its form.
#[derive(Clone, Copy)]
pub(crate) struct Operand<'t> {
    pub at: usize,
    pub text: &'t [u8],
    pub form: &'static str,
}

/// Whether a byte separates words.
fn is_blank(byte: u8) -> bool {
    byte == b' ' || byte == b'\t'
}

/// The place of the first word at or after a place in a line.
pub(crate) fn word_start(line: &[u8], at: usize) -> usize {
    let rest = line.get(at..).unwrap_or(&[]);
    at.saturating_add(rest.iter().take_while(|byte| is_blank(**byte)).count())
}

/// The word that begins at a place in a line; empty at the line's end.
pub(crate) fn word_at(line: &[u8], at: usize) -> &[u8] {
    let rest = line.get(at..).unwrap_or(&[]);
    let length = rest.iter().take_while(|byte| !is_blank(**byte)).count();
    rest.get(..length).unwrap_or(&[])
}

/// The place of a word in a line, counted from 0; the line's end if it has fewer words.
pub(crate) fn place_of_word(line: &[u8], number: usize) -> usize {
    let mut at = word_start(line, 0);
    for _ in 0..number {
        let past = at.saturating_add(word_at(line, at).len());
        at = word_start(line, past);
    }
    at
}

/// A word in a line, counted from 0; empty if it has fewer words.
pub(crate) fn word(line: &[u8], number: usize) -> &[u8] {
    word_at(line, place_of_word(line, number))
}

/// How many words a line has.
pub(crate) fn count_words(line: &[u8]) -> usize {
    let mut count: usize = 0;
    let mut is_inside = false;
    for byte in line {
        let begins = !is_blank(*byte) && !is_inside;
        count = count.saturating_add(usize::from(begins));
        is_inside = !is_blank(*byte);
    }
    count
}

/// Whether a word is a register.
pub(crate) fn is_register(word: &[u8]) -> bool {
    matches!(read_site(word), Some(Site::R(_)))
}

/// Whether a word is a colour.
fn is_colour(word: &[u8]) -> bool {
    matches!(word, b"G" | b"B")
}

/// A basic type without its `ref:`.
fn base_of(word: &[u8]) -> &[u8] {
    let mut base = word;
    for _ in 0..MOST_REFS {
        let Some(rest) = base.strip_prefix(b"ref:") else {
            break;
        };
        base = rest;
    }
    base
}

/// Whether a word is a basic type.
fn is_basic(word: &[u8]) -> bool {
    let base = base_of(word);
    match base.strip_prefix(b"code:") {
        Some(number) => is_number(number, 65_535),
        None => base == b"int".as_slice(),
    }
}

/// The largest number that fits a form.
fn most_of(form: &str) -> u64 {
    match form.as_bytes() {
        b"W" | b"INIT" => u64::MAX,
        b"SCOPE" | b"I" | b"INTS" => 255,
        _ => 4_294_967_295,
    }
}

/// Whether a word fits a form.
fn fits(word: &[u8], form: &str) -> bool {
    match form.as_bytes() {
        b"R" => is_register(word),
        b"C" => is_colour(word),
        b"BASIC" => is_basic(word),
        b"NAME" | b"KIND" => !word.is_empty(),
        _ => is_number(word, most_of(form)),
    }
}

/// What fits this form, in words; empty for a number.
fn rule_of(form: &str) -> &'static str {
    match form.as_bytes() {
        b"R" => "a register is r0 to r63",
        b"SECOND" => "a register is r0 to r63, and a number comes after its colour, as in `G 5`",
        b"C" => "a colour is G or B",
        b"BASIC" => "a basic type is `int` or `code:T`, after any number of `ref:`",
        b"nothing" => "nothing may follow on this line",
        _ => "",
    }
}

/// What a missing operand is, if its form alone does not say it.
pub(crate) fn meaning_of(form: &str) -> &'static str {
    match form.as_bytes() {
        b"R" => ", a register",
        b"C" => ", a colour: G or B",
        b"W" | b"INIT" => ", a number",
        b"TYPE" => ", the number of a type",
        b"NODE" | b"MEMORY" => ", the number of a node",
        b"B" => ", the number of a block",
        b"BASIC" =>
            ", the type of the word: `int`, `ref:int` for the address of a cell, or `code:T` for that of a block",
        _ => "",
    }
}

/// What is wrong with an operand regardless of its form; empty if nothing is.
fn habit_of(text: &[u8]) -> &'static str {
    if let [b'#', byte, ..] = text
        && byte.is_ascii_digit()
    {
        "numbers are written without `#`"
    } else if begins_comment(text) {
        "a comment begins with `#`, on a line of its own"
    } else if text.ends_with(b",") {
        "words are separated by spaces, without commas"
    } else if text.ends_with(b";") {
        "lines do not end with `;`"
    } else {
        ""
    }
}

/// Says what is wrong with an operand.
pub(crate) fn say_rule(page: &mut Page, operand: Operand<'_>) -> Result<(), NoMemory> {
    let habit = habit_of(operand.text);
    if !habit.is_empty() {
        return page.say(habit);
    }
    if operand.form == "KIND" {
        return say_kinds(page, operand.text);
    }
    let rule = rule_of(operand.form);
    if !rule.is_empty() {
        return page.say(rule);
    }
    say_misfit(page, operand.text, most_of(operand.form))
}

/// A superfluous word in a line, at or after a place.
fn further(line: &[u8], at: usize) -> Option<Operand<'_>> {
    let start = word_start(line, at);
    let text = word_at(line, start);
    if text.is_empty() {
        return None;
    }
    Some(Operand {
        at: start,
        text,
        form: "nothing",
    })
}

/// The first word at or after a place that is not the number of a node.
fn wrong_row(line: &[u8], at: usize) -> Option<Operand<'_>> {
    let mut at = at;
    for _ in 0..line.len() {
        let start = word_start(line, at);
        let text = word_at(line, start);
        if text.is_empty() {
            return None;
        }
        if !fits(text, "ROW") {
            return Some(wrong_at(at, start, text, "ROW"));
        }
        at = start.saturating_add(text.len());
    }
    None
}

/// An operand at fault: the missing one at a place, or a wrong one after it.
fn wrong_at<'t>(at: usize, start: usize, text: &'t [u8], form: &'static str) -> Operand<'t> {
    Operand {
        at: if text.is_empty() { at } else { start },
        text,
        form,
    }
}

/// The first operand of a line that does not fit the forms, which are separated by blanks.
pub(crate) fn wrong_operand<'t>(line: &'t [u8], forms: &'static str) -> Option<Operand<'t>> {
    let first = word_start(line, 0);
    let mut at = first.saturating_add(word_at(line, first).len());
    for form in forms.split(' ') {
        if form == "nothing" {
            break;
        }
        if form == "ROW" {
            return wrong_row(line, at);
        }
        let start = word_start(line, at);
        let text = word_at(line, start);
        if !fits(text, form) {
            return Some(wrong_at(at, start, text, form));
        }
        at = start.saturating_add(text.len());
    }
    further(line, at)
}

/// The first wrong operand of an operation, which takes three registers, or two registers, a colour and a word.
pub(crate) fn wrong_operation(line: &[u8]) -> Option<Operand<'_>> {
    let wrong = wrong_operand(line, "R R R")?;
    if is_colour(wrong.text) {
        return wrong_operand(line, "R R C W");
    }
    if wrong.at == place_of_word(line, 3) && is_number(wrong.text, u64::MAX) {
        return Some(Operand {
            form: "SECOND",
            ..wrong
        });
    }
    Some(wrong)
}
