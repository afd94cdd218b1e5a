//! Finds words with similar spelling.
use crate::page::Page;
use ft_isa::NoMemory;
use std::alloc::Global;
use strsim::osa_distance;

/// The length of the longest word that is compared.
const LONGEST: usize = 32;

/// The maximum edit distance for a word of this length.
fn edits_allowed(length: usize) -> usize {
    if length < 4 { 1 } else { 2 }
}

/// Whether one word, of at least three letters, is a prefix of the other.
fn begins_alike(word: &str, known: &str) -> bool {
    (word.len() >= 3 && known.starts_with(word)) || (known.len() >= 3 && word.starts_with(known))
}

/// Whether a word is probably a misspelling of a known one.
pub fn is_near(alloc: Global, word: &str, known: &str) -> Result<bool, NoMemory> {
    if word.len() > LONGEST || known.len() > LONGEST || word.is_empty() {
        return Ok(false);
    }
    if word.eq_ignore_ascii_case(known) || begins_alike(word, known) {
        return Ok(true);
    }
    let edits = osa_distance(alloc, word, known)?;
    Ok(edits <= edits_allowed(known.len()) && edits < known.len().min(word.len()))
}

/// Asks whether a word was meant.
pub fn say_near(page: &mut Page, known: &[u8]) -> Result<(), NoMemory> {
    page.say("; did you mean ")?;
    page.quote(known)?;
    page.say("?")
}
