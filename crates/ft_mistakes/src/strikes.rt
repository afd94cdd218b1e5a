//! Explains why texts are not faults.
use crate::numbers::{blank_in, is_number, say_misfit};
use crate::page::Page;
use ft_isa::{NoMemory, read_site, read_strike};

/// Whether a text is a fault.
pub fn is_fault(text: &str) -> bool {
    read_strike(text.as_bytes()).is_ok()
}

/// Says why a part of a fault is not a number.
fn say_wrong_number(page: &mut Page, called: &str, word: &str) -> Result<(), NoMemory> {
    if word.is_empty() {
        return page.say(format_args!("the {called} is missing"));
    }
    page.say(format_args!("invalid {called} "))?;
    page.quote(word.as_bytes())?;
    page.say(": ")?;
    say_misfit(page, word.as_bytes(), u64::MAX)
}

/// Whether a word is a site except for capitals.
fn is_site_in_capitals(site: &[u8]) -> bool {
    match site {
        [a, b, c] => read_site(&[
            a.to_ascii_lowercase(),
            b.to_ascii_lowercase(),
            c.to_ascii_lowercase(),
        ])
        .is_some(),
        [a, b] => read_site(&[a.to_ascii_lowercase(), b.to_ascii_lowercase()]).is_some(),
        [a] => read_site(&[a.to_ascii_lowercase()]).is_some(),
        _ => false,
    }
}

/// Why a word is not a site.
fn wrong_site(site: &str) -> &'static str {
    let blank = blank_in(site.as_bytes());
    if is_site_in_capitals(site.as_bytes()) {
        "write sites in lower case, as in `r1`"
    } else if blank.is_empty() {
        "a site is r0 to r63, d, pcg, pcb, qa0 to qa7 or qv0 to qv7"
    } else {
        blank
    }
}

/// A text up to a separator, and the text after it.
fn parts_of(text: &str, separator: char) -> (&str, Option<&str>) {
    match text.split_once(separator) {
        Some((first, rest)) => (first, Some(rest)),
        None => (text, None),
    }
}

/// Says what is wrong with a site and a word that this character separates.
pub(crate) fn say_site_and_word(
    page: &mut Page,
    text: &str,
    separator: char,
) -> Result<(), NoMemory> {
    let (site, word) = parts_of(text, separator);
    if site.is_empty() {
        return page.say("the site is missing");
    }
    if read_site(site.as_bytes()).is_none() {
        page.say("invalid site ")?;
        page.quote(site.as_bytes())?;
        page.say(": ")?;
        return page.say(wrong_site(site));
    }
    match word {
        Some(word) => say_wrong_number(page, "word", word),
        None => page.say("the word is missing"),
    }
}

/// Says which part of a text keeps it from being a fault.
pub(crate) fn say_wrong_part(page: &mut Page, text: &str) -> Result<(), NoMemory> {
    let (step, rest) = parts_of(text, ':');
    if !is_number(step.as_bytes(), u64::MAX) {
        return say_wrong_number(page, "step", step);
    }
    match rest {
        Some(rest) => say_site_and_word(page, rest, ':'),
        None => page.say("the site and the word are missing"),
    }
}
