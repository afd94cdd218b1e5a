//! An explanation under construction.
use crate::excerpt::{Place, letter_from, part};
use ft_isa::NoMemory;
use std::alloc::Global;
use std::fmt::Display;

/// The maximum number of bytes of a word that are quoted.
const QUOTED: usize = 40;

/// The length of the longest name that a file can have.
const LONGEST_NAME: usize = 4096;

/// An explanation under construction.
#[derive(Drop)]
pub struct Page {
    alloc: Global,
    text: String,
}

/// Whether a character changes text direction or is invisible.
fn is_unseen(letter: char) -> bool {
    matches!(
        letter,
        '\u{200b}'..='\u{200f}' | '\u{2028}'..='\u{202e}' | '\u{2066}'..='\u{2069}' | '\u{feff}'
    )
}

/// A character as it is shown: a control character could change what a terminal shows.
fn shown(letter: char) -> char {
    if letter != '\t' && (letter.is_control() || is_unseen(letter)) {
        '?'
    } else {
        letter
    }
}

impl Page {
    /// An empty page.
    pub fn new(alloc: Global) -> Page {
        Page {
            alloc,
            text: String::new(alloc),
        }
    }

    /// The allocator of the page.
    pub fn alloc(&self) -> Global {
        self.alloc
    }

    /// Adds words.
    pub fn say<D: Display + Drop>(&mut self, words: D) -> Result<(), NoMemory> {
        write!(self.text, "{words}")?;
        Ok(())
    }

    /// Adds bytes of a file or of a name, without control characters.
    pub fn show(&mut self, bytes: &[u8]) -> Result<(), NoMemory> {
        let text = String::from_utf8_lossy(self.alloc, bytes)?;
        for letter in text.as_str().chars() {
            self.text.push(shown(letter))?;
        }
        Ok(())
    }

    /// Adds bytes of a file or of a name between other words.
    pub fn show_between(
        &mut self,
        before: &str,
        bytes: &[u8],
        after: &str,
    ) -> Result<(), NoMemory> {
        self.say(before)?;
        self.show(bytes)?;
        self.say(after)
    }

    /// Adds at most this many bytes, and `..` if more follow.
    fn show_some(&mut self, bytes: &[u8], most: usize) -> Result<(), NoMemory> {
        let end = letter_from(bytes, most);
        self.show(part(bytes, 0, end))?;
        self.say(if end < bytes.len() { ".." } else { "" })
    }

    /// Adds bytes of a file or of a name between back quotes, and shortens long ones.
    pub fn quote(&mut self, bytes: &[u8]) -> Result<(), NoMemory> {
        self.say("`")?;
        self.show_some(bytes, QUOTED)?;
        self.say("`")
    }

    /// Adds the name of an option between back quotes, after its hyphens, and shortens a long one.
    pub fn quote_option(&mut self, name: &str) -> Result<(), NoMemory> {
        self.say(if name.len() == 1 { "`-" } else { "`--" })?;
        self.show_some(name.as_bytes(), QUOTED)?;
        self.say("`")
    }

    /// Adds a count and the noun for what is counted.
    pub fn count(&mut self, count: u32, what: &str) -> Result<(), NoMemory> {
        let end = if count == 1 { "" } else { "s" };
        self.say(format_args!("{count} {what}{end}"))
    }

    /// Adds the name of a file, and shortens one that is too long.
    pub fn name(&mut self, name: &str) -> Result<(), NoMemory> {
        let most = if name.len() > LONGEST_NAME {
            QUOTED
        } else {
            LONGEST_NAME
        };
        self.show_some(name.as_bytes(), most)
    }

    /// Adds blanks that take as much room as these bytes when they are shown.
    pub fn indent(&mut self, bytes: &[u8]) -> Result<(), NoMemory> {
        let text = String::from_utf8_lossy(self.alloc, bytes)?;
        for letter in text.as_str().chars() {
            self.text.push(if letter == '\t' { '\t' } else { ' ' })?;
        }
        Ok(())
    }

    /// Adds an ASCII character this many times.
    pub fn repeat(&mut self, letter: char, times: usize) -> Result<(), NoMemory> {
        for _ in 0..times {
            self.text.push(letter)?;
        }
        Ok(())
    }

    /// Adds `NAME: error: `.
    pub fn head(&mut self, name: &str) -> Result<(), NoMemory> {
        self.name(name)?;
        self.say(": error: ")
    }

    /// Adds `NAME:LINE:COLUMN: error: `.
    pub fn head_at(&mut self, name: &str, place: &Place<'_>) -> Result<(), NoMemory> {
        self.name(name)?;
        self.say(":")?;
        self.say(place.number())?;
        self.say(":")?;
        self.say(place.column())?;
        self.say(": error: ")
    }

    /// The text of the page.
    pub fn finish(self) -> String {
        let Page { alloc: _, text } = self;
        text
    }
}
