//! What is wrong with lines of fault lists, scripts and link maps, which have no comments or empty lines.
use crate::spaces::first_space;

/// A byte order mark.
const MARK: &[u8] = b"\xef\xbb\xbf";

/// The message for a line that ends with a carriage return.
pub(crate) const RETURN: &str =
    "the line ends with a carriage return: save the file with Unix line endings";

/// The message for a text that begins with a byte order mark.
pub(crate) const MARKED: &str = "the file begins with a byte order mark: save it without one";

/// The message for a line that is not UTF-8.
pub(crate) const NOT_UTF8: &str = "this line is not UTF-8: write it in ASCII";

/// The message for a Ctrl-Z.
pub(crate) const CTRL_Z: &str =
    "unexpected Ctrl-Z (byte 0x1A), which old editors put at the end of a file: remove it";

/// The message for a line that begins a block of code in Markdown, or ends one.
pub(crate) const FENCE: &str = "this line is a Markdown code fence: remove both fences";

/// Whether a line is a code fence.
pub(crate) fn begins_fence(line: &[u8]) -> bool {
    line.starts_with(b"```")
}

/// A code fence or a Ctrl-Z, which copying and old editors add to files: its place in the line, and its message.
pub(crate) fn wrong_extra(line: &[u8]) -> Option<(usize, &'static str)> {
    if begins_fence(line) {
        return Some((0, FENCE));
    }
    let at = line.iter().position(|byte| *byte == 0x1a)?;
    Some((at, CTRL_Z))
}

/// The place of the first byte of a line that is not UTF-8.
pub(crate) fn first_not_utf8(line: &[u8]) -> Option<usize> {
    match str::from_utf8(line) {
        Ok(_) => None,
        Err(error) => Some(error.valid_up_to()),
    }
}

/// Whether a text begins with a byte order mark.
pub(crate) fn is_marked(text: &[u8]) -> bool {
    text.starts_with(MARK)
}

/// Whether a text begins like a comment in some language.
pub(crate) fn begins_comment(text: &[u8]) -> bool {
    text.starts_with(b"#")
        || text.starts_with(b";")
        || text.starts_with(b"//")
        || text.starts_with(b"/*")
}

/// Whether a byte is a blank.
fn is_blank(byte: Option<&u8>) -> bool {
    matches!(byte, Some(b' ' | b'\t'))
}

/// What is wrong with a line in any of these formats, and where.
pub(crate) fn wrong_line(line: &[u8]) -> Option<(usize, &'static str)> {
    let last = line.len().saturating_sub(1);
    if is_marked(line) {
        return Some((0, MARKED));
    }
    if line.ends_with(b"\r") {
        return Some((last, RETURN));
    }
    if let Some(wrong) = wrong_extra(line) {
        return Some(wrong);
    }
    if line.trim_ascii().is_empty() {
        return Some((0, "empty lines are not allowed in this file"));
    }
    if begins_comment(line.trim_ascii_start()) {
        return Some((0, "comments are not allowed in this file"));
    }
    if let Some(at) = first_not_utf8(line) {
        return Some((at, NOT_UTF8));
    }
    if is_blank(line.first()) {
        return Some((0, "the line begins with whitespace"));
    }
    if is_blank(line.last()) {
        return Some((last, "the line ends with whitespace"));
    }
    first_space(line)
}

/// What is wrong with a byte between words, given the byte before it; empty if nothing is.
fn wrong_after(before: u8, byte: u8) -> &'static str {
    match (before, byte) {
        (_, b'\t') => "words are separated by one space, not by a tab",
        (b' ', b' ') => "words are separated by one space",
        _ => "",
    }
}

/// What is wrong between the words of a line, and where.
fn wrong_gap(line: &[u8]) -> Option<(usize, &'static str)> {
    let mut wrong = None;
    let mut before: u8 = 0;
    for (at, byte) in line.iter().enumerate() {
        let words = wrong_after(before, *byte);
        if wrong.is_none() && !words.is_empty() {
            wrong = Some((at, words));
        }
        before = *byte;
    }
    wrong
}

/// What is wrong with a line of words, or between its words, and where.
pub fn wrong_words(line: &[u8]) -> Option<(usize, &'static str)> {
    match wrong_line(line) {
        Some(wrong) => Some(wrong),
        None => wrong_gap(line),
    }
}
