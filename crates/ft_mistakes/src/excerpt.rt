//! Places in texts, with the line around them.
use crate::page::Page;
use ft_isa::NoMemory;
use ft_text::read_line;

/// The maximum number of bytes of a line that are shown.
const WIDTH: usize = 100;

/// The maximum number of bytes that are shown before the place.
const BEFORE: usize = 60;

/// The maximum number of bytes of a line of an assembly text that are examined: a line with 1,048,576 substitution rows,
/// each after one space, has fewer.
const EXAMINED: usize = 16_777_216;

/// A place in a text.
#[derive(Clone, Copy)]
pub struct Place<'a> {
    /// The line's number, counted from 1.
    number: usize,
    /// The line without its line feed.
    line: &'a [u8],
    /// How many bytes of the line precede the place.
    before: usize,
}

/// Whether a byte continues a character.
fn goes_on(byte: u8) -> bool {
    byte & 0xc0 == 0x80
}

/// The first place at or after this one where a character begins, or the end.
pub(crate) fn letter_from(bytes: &[u8], at: usize) -> usize {
    let at = at.min(bytes.len());
    let next = part(bytes, at, at.saturating_add(3).min(bytes.len()));
    at.saturating_add(next.iter().take_while(|byte| goes_on(**byte)).count())
}

/// How many characters begin in the bytes.
fn letters(bytes: &[u8]) -> usize {
    bytes.iter().filter(|byte| !goes_on(**byte)).count()
}

/// The bytes of a text from one place up to another; empty if that is not a range of the text.
pub(crate) fn part(text: &[u8], start: usize, past: usize) -> &[u8] {
    text.get(start..past).unwrap_or(&[])
}

/// The first line of a text without its line feed.
fn first_line(text: &[u8]) -> &[u8] {
    match read_line(text) {
        Some((line, _)) => line,
        None => &[],
    }
}

impl<'a> Place<'a> {
    /// The place of byte `at`; the end of the text if it has fewer bytes.
    pub fn of(text: &'a [u8], at: usize) -> Place<'a> {
        let at = at.min(text.len());
        let mut number: usize = 1;
        let mut start: usize = 0;
        for (i, byte) in part(text, 0, at).iter().enumerate() {
            if *byte == b'\n' {
                number = number.saturating_add(1);
                start = i.saturating_add(1);
            }
        }
        Place {
            number,
            line: first_line(part(text, start, text.len())),
            before: at.saturating_sub(start),
        }
    }

    /// The start of line `wanted`, counted from 1; `None` if the text has fewer lines.
    pub fn of_line(text: &'a [u8], wanted: usize) -> Option<Place<'a>> {
        let mut number: usize = 1;
        let mut start: usize = 0;
        for (i, byte) in text.iter().enumerate() {
            if number == wanted {
                break;
            }
            if *byte == b'\n' {
                number = number.saturating_add(1);
                start = i.saturating_add(1);
            }
        }
        if number != wanted || start >= text.len() {
            return None;
        }
        Some(Place {
            number,
            line: first_line(part(text, start, text.len())),
            before: 0,
        })
    }

    /// The place in the same line after this many bytes.
    pub fn after(self, before: usize) -> Place<'a> {
        Place { before, ..self }
    }

    /// The same place, if only the first `EXAMINED` bytes of the line are examined.
    pub(crate) fn in_short_line(self) -> Place<'a> {
        let past = letter_from(self.line, EXAMINED);
        Place {
            line: part(self.line, 0, past),
            ..self
        }
    }

    /// The line's number, counted from 1.
    pub fn number(&self) -> usize {
        self.number
    }

    /// The line without its line feed.
    pub fn line(&self) -> &'a [u8] {
        self.line
    }

    /// The number of the character at the place, counted from 1 in its line.
    pub fn column(&self) -> usize {
        letters(part(self.line, 0, self.before)).saturating_add(1)
    }

    /// Where the shown part of the line begins.
    fn first(&self) -> usize {
        letter_from(self.line, self.before.saturating_sub(BEFORE))
    }

    /// Where the shown part of the line ends.
    fn past(&self, first: usize) -> usize {
        letter_from(self.line, first.saturating_add(WIDTH))
    }

    /// Says what is wrong with the byte at the place, and shows it.
    pub fn explain(&self, page: &mut Page, name: &str, words: &str) -> Result<(), NoMemory> {
        page.head_at(name, self)?;
        page.say(words)?;
        page.say("\n")?;
        self.show(page, 1)
    }

    /// Shows the line, with a caret below the place and tildes below the rest of the `length` bytes there. A long line
    /// is cut around the place.
    pub fn show(&self, page: &mut Page, length: usize) -> Result<(), NoMemory> {
        let first = self.first();
        let past = self.past(first);
        let cut = if first > 0 { ".." } else { "" };
        page.say(" ")?;
        page.say(cut)?;
        page.show(part(self.line, first, past))?;
        page.say(if past < self.line.len() {
            "..\n "
        } else {
            "\n "
        })?;
        page.indent(cut.as_bytes())?;
        page.indent(part(self.line, first, self.before))?;
        page.say("^")?;
        let end = self.before.saturating_add(length).min(past);
        page.repeat(
            '~',
            letters(part(self.line, self.before, end)).saturating_sub(1),
        )?;
        page.say("\n")
    }
}
