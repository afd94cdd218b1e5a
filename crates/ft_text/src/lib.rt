//! Lines of text: built without allocating, read one by one, and split into words.
//!
//! The crate promises that a `Line` consists of the bytes added to it: pieces unchanged, and numbers in decimal digits
//! without leading zeros; that a text is split into its lines; that a line is split after a piece and at its first space;
//! and that its words are read one by one. Its definitions: `specs/Lines.antt` and `specs/LineWords.antt` (the words of a
//! line).
#![tactic(auto)]

mod first_line;
mod line;
mod line_words;
mod words;

pub use first_line::read_line;
pub use line::{Line, ROOM};
pub use line_words::next_word;
pub use words::{after, first_space, split_word};
