//! Explains why objects are refused.
use crate::content::{Content, begins_as_object, content_of_file, is_text, say_kind};
use crate::excerpt::part;
use crate::fields::{Field, HEADER, field_at};
use crate::page::Page;
use crate::records::{HEADER_SIZE, Part, record_at, total};
use ft_format::Header;
use ft_isa::NoMemory;

/// What objects begin with.
const BEGINNING: &[u8] = b"TALFT";

/// The header of an object's bytes.
fn header_of(bytes: &[u8]) -> Option<Header> {
    if bytes.len() < HEADER_SIZE {
        return None;
    }
    Some(Header::read(bytes))
}

/// The number that bytes represent in big-endian order.
fn value_of(bytes: &[u8]) -> u64 {
    let mut value: u64 = 0;
    for byte in bytes {
        value = value.wrapping_mul(256).wrapping_add(u64::from(*byte));
    }
    value
}

/// The format's rule with this number, in words.
pub fn rule(number: u64) -> &'static str {
    match number {
        1 => "this is not an object: it does not begin with TALFT and version 1 or 2",
        2 => "the object's size does not match its header",
        3 => "a count, a scope or a length is out of its range",
        4 => "padding, or a field that the record does not use, is not zero",
        5 => "a code is unknown, a type has more than 8 `ref`s, or a node is of the wrong kind",
        6 => "a number refers to a part that does not exist, or that this part may not refer to",
        7 =>
            "ends, starts or registers are not in ascending order, or there is a stray row or byte",
        8 => "a cell's name is too long, has a byte that is not allowed, or is used twice",
        _ => "the entry block does not exist",
    }
}

/// The message for an object that was copied in text mode.
const AS_TEXT: &str =
    "  each line feed has a carriage return before it, as after a copy in text mode: copy the object in binary mode\n";

/// The message for an object with a line feed after its end.
const LINE_FEED: &str =
    "  a line feed follows its end; an editor or a text tool may have added it: copy the object in binary mode\n";

/// The message for an object with another one after it.
const JOINED: &str =
    "  another object follows its end: `talft link MAP` joins objects, and `cat` does not\n";

/// The message for an object with text after its end.
const TEXT: &str =
    "  text follows its end: messages belong elsewhere, so redirect only standard output (no `2>&1`)\n";

/// The message for an object without zero bytes, which each header has.
const NO_ZEROS: &str =
    "the object has no zero bytes, because a text tool removed or replaced them: copy it in binary mode\n";

/// Whether an object has lost its zero bytes: in every object, one follows `TALFT`.
fn has_lost_zeros(bytes: &[u8]) -> bool {
    bytes.len() > BEGINNING.len()
        && bytes.starts_with(BEGINNING)
        && bytes.iter().all(|byte| *byte != 0)
}

/// Whether a line feed, perhaps with a carriage return, follows an object of this many bytes.
fn has_line_feed(bytes: &[u8], wanted: usize) -> bool {
    matches!(part(bytes, wanted, bytes.len()), b"\n" | b"\r\n")
}

/// What to do about an object whose end is missing.
const CUT_OFF: &str = ": it is cut off; copy it again\n";

/// Whether there are as many surplus bytes as CR LF pairs.
fn is_as_text(bytes: &[u8], wanted: usize) -> bool {
    let mut ends: usize = 0;
    let mut last = 0;
    for byte in bytes {
        ends = ends.saturating_add(usize::from(last == b'\r' && *byte == b'\n'));
        last = *byte;
    }
    ends > 0 && bytes.len().checked_sub(wanted) == Some(ends)
}

/// Says what is wrong with the number of bytes.
fn say_length(page: &mut Page, bytes: &[u8]) -> Result<(), NoMemory> {
    let length = bytes.len();
    match header_of(bytes) {
        Some(header) => {
            let wanted = total(header);
            page.say(format_args!(
                "the object has {length} bytes, but its header requires {wanted}"
            ))?;
            page.say(if length < wanted { CUT_OFF } else { "\n" })?;
            if has_line_feed(bytes, wanted) {
                return page.say(LINE_FEED);
            }
            if begins_as_object(part(bytes, wanted, length)) {
                return page.say(JOINED);
            }
            page.say(if is_as_text(bytes, wanted) {
                AS_TEXT
            } else if length > wanted && is_text(part(bytes, wanted, length)) {
                TEXT
            } else {
                ""
            })
        }
        None => {
            page.say(format_args!(
                "the object has {length} bytes, fewer than the 48 of its header"
            ))?;
            page.say(CUT_OFF)
        }
    }
}

/// Writes the name and the value of a field.
fn say_field(page: &mut Page, bytes: &[u8], start: usize, field: Field) -> Result<(), NoMemory> {
    let (offset, size, name) = field;
    let at = start.saturating_add(offset);
    let value = value_of(part(bytes, at, at.saturating_add(size)));
    page.say(format_args!(": {name}, {value}\n"))
}

/// Says which record and which field contain a place.
fn say_place(page: &mut Page, bytes: &[u8], at: usize) -> Result<(), NoMemory> {
    page.say(format_args!("  byte {at}"))?;
    if at < HEADER_SIZE
        && let Some(field) = field_at(HEADER, at)
    {
        page.say(", the header")?;
        return say_field(page, bytes, 0, field);
    }
    if let Some(header) = header_of(bytes)
        && let Some(record) = record_at(header, at)
    {
        let words = record.part.words();
        let number = record.number;
        page.say(format_args!(", {words} {number}"))?;
        let kind = bytes.get(record.start).copied().unwrap_or(0);
        if let Some(field) = record.part.field(kind, at.saturating_sub(record.start)) {
            return say_field(page, bytes, record.start, field);
        }
    }
    page.say("\n")
}

/// Whether bytes may be a damaged or truncated object.
fn may_be_damaged(bytes: &[u8], content: Content) -> bool {
    let is_begun = !bytes.is_empty() && BEGINNING.starts_with(bytes);
    is_begun || matches!(content, Content::Object | Content::Binary)
}

/// Says what is wrong with the number of bytes if the bytes cannot be read again.
fn say_short(page: &mut Page, at: u64) -> Result<(), NoMemory> {
    match at {
        0 => page.say("the file is empty\n"),
        1..48 => page.say(format_args!(
            "the object has {at} bytes, fewer than the 48 of its header\n"
        )),
        _ => page.say(format_args!(
            "the object's size does not match its header: the smaller of the two is {at} bytes\n"
        )),
    }
}

/// Explains why an object is refused if its bytes cannot be read again.
fn explain_unseen(page: &mut Page, name: &str, number: u64, at: u64) -> Result<(), NoMemory> {
    page.head(name)?;
    if number == 2 {
        return say_short(page, at);
    }
    page.say(rule(number))?;
    page.say(format_args!(", at byte {at}\n"))
}

/// Explains why an object is refused.
pub fn explain_object(
    page: &mut Page,
    name: &str,
    number: u64,
    at: u64,
    object: Option<&[u8]>,
) -> Result<(), NoMemory> {
    let Some(bytes) = object else {
        return explain_unseen(page, name, number, at);
    };
    let content = content_of_file(page.alloc(), name, bytes)?;
    if !may_be_damaged(bytes, content) {
        return say_kind(page, name, content, Content::Object);
    }
    page.head(name)?;
    if has_lost_zeros(bytes) {
        return page.say(NO_ZEROS);
    }
    if number == 2 {
        return say_length(page, bytes);
    }
    page.say(rule(number))?;
    page.say("\n")?;
    if number == 1 {
        return Ok(());
    }
    say_place(page, bytes, at as usize)
}

/// Explains that a file is too long to be an object.
pub fn explain_long(page: &mut Page, name: &str, most: u64) -> Result<(), NoMemory> {
    page.head(name)?;
    page.say(format_args!("the object is too long: at most {most} bytes are allowed\n"))
}
