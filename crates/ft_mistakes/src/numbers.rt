//! Explains why words are not numbers.
use crate::dashes::begins_with_dash;
use crate::page::Page;
use ft_isa::{NoMemory, read_number};

/// Whether a word is a number of at most `most`.
pub fn is_number(word: &[u8], most: u64) -> bool {
    match read_number(word) {
        Some(number) => number <= most,
        None => false,
    }
}

/// Whether a word consists of digits.
fn is_digits(word: &[u8]) -> bool {
    let count = word.iter().take_while(|byte| byte.is_ascii_digit()).count();
    count > 0 && count == word.len()
}

/// Whether a word contains this byte.
fn has(word: &[u8], wanted: u8) -> bool {
    word.iter().any(|byte| *byte == wanted)
}

/// The message for a word with a blank in it; empty if it has none.
pub(crate) fn blank_in(word: &[u8]) -> &'static str {
    if has(word, b'\t') {
        "it contains a tab"
    } else if has(word, b' ') {
        "it contains whitespace"
    } else {
        ""
    }
}

/// What is wrong with a word that is not written like a number.
fn misspelled(word: &[u8]) -> &'static str {
    if word.starts_with(b"0x") || word.starts_with(b"0X") {
        return "numbers are decimal";
    }
    if word.starts_with(b"-") || word.starts_with(b"+") || begins_with_dash(word) {
        return "numbers have no sign";
    }
    if word.ends_with(b",") {
        return "words are separated by spaces, without commas";
    }
    let blank = blank_in(word);
    if !blank.is_empty() {
        return blank;
    }
    if has(word, b'\r') {
        return "it contains a carriage return: save the file with Unix line endings";
    }
    if has(word, b'.') {
        return "numbers are integers";
    }
    "numbers consist of decimal digits, as in `42`"
}

/// Says why a word is not a number of at most `most`.
pub fn say_misfit(page: &mut Page, word: &[u8], most: u64) -> Result<(), NoMemory> {
    if !is_digits(word) {
        return page.say(misspelled(word));
    }
    if word.starts_with(b"0") && word.len() > 1 {
        return page.say("numbers have no leading zeros");
    }
    if most == u64::MAX {
        return page.say("the largest number is 18446744073709551615 (2^64 - 1)");
    }
    page.say(format_args!("the largest number here is {most}"))
}
