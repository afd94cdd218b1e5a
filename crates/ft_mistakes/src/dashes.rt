//! Words that begin with a typographic dash, which editors and web pages write instead of a hyphen.
use crate::forms::{OPTIONS, first_word};
use crate::page::Page;
use ft_isa::NoMemory;

/// The hyphen, and the dashes that are used instead of it.
const DASHES: &[char] = &[
    '-', '\u{2010}', '\u{2011}', '\u{2012}', '\u{2013}', '\u{2014}', '\u{2015}', '\u{2212}',
];

/// A word that begins with a typographic dash, and the name after it.
#[derive(Clone, Copy)]
pub(crate) struct Dashed<'w> {
    word: &'w str,
    name: &'w str,
}

/// Whether bytes begin with a typographic dash.
pub(crate) fn begins_with_dash(bytes: &[u8]) -> bool {
    matches!(
        bytes,
        [0xe2, 0x80, 0x90..=0x95, ..] | [0xe2, 0x88, 0x92, ..]
    )
}

/// Whether a name begins with a letter.
fn begins_with_letter(name: &str) -> bool {
    matches!(name.as_bytes(), [b'a'..=b'z' | b'A'..=b'Z', ..])
}

/// The part of a word before `=`.
fn before_value(word: &str) -> &str {
    match word.split_once('=') {
        Some((name, _)) => name,
        None => word,
    }
}

/// Parses a word in which a typographic dash, perhaps after hyphens, comes before a name; `None` for any other word.
fn read_dashed(word: &str) -> Option<Dashed<'_>> {
    let is_dashed = begins_with_dash(word.trim_start_matches('-').as_bytes());
    let name = before_value(word.trim_start_matches(DASHES));
    if is_dashed && begins_with_letter(name) {
        Some(Dashed { word, name })
    } else {
        None
    }
}

/// The first word that begins with a typographic dash.
pub(crate) fn first_dashed(words: &[String]) -> Option<Dashed<'_>> {
    let mut first = None;
    for word in words {
        if first.is_none() {
            first = read_dashed(word.as_str());
        }
    }
    first
}

/// Whether an option has this name.
fn has_name(option: &'static str, name: &str) -> bool {
    match first_word(option).strip_prefix("--") {
        Some(known) => known == name,
        None => false,
    }
}

/// Whether a name is that of an option or asks for help.
fn is_of_option(name: &str) -> bool {
    matches!(name.as_bytes(), b"help" | b"h")
        || OPTIONS.iter().any(|option| has_name(*option, name))
}

/// Parses a word as an option with a typographic dash; `None` if it may be a file name.
pub(crate) fn dashed_option(word: &str) -> Option<Dashed<'_>> {
    let dashed = read_dashed(word)?;
    if is_of_option(dashed.name) {
        Some(dashed)
    } else {
        None
    }
}

/// Says that a word begins with a typographic dash, and how to write it.
pub(crate) fn say_dashed(page: &mut Page, dashed: Dashed<'_>) -> Result<(), NoMemory> {
    page.say("talft: error: ")?;
    page.quote(dashed.word.as_bytes())?;
    page.say(" begins with a typographic dash: write ")?;
    page.quote_option(dashed.name)?;
    page.say("\n")
}
