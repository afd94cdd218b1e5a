//! Link maps: the modules that are linked, and what they export and import.
//!
//! The crate promises that a text is read as the map that its lines describe, or refused at the first
//! misplaced line, or else at the first repeated one; and that an accepted map is sound.
//! `specs/MapLines.antt` defines lines, `MapAnswers.antt` their map or refusal, and `Sound.antt` what a
//! sound map is.
#![tactic(auto)]

mod blocks;
mod draft;
mod entry;
mod laws;
mod link_map;
mod map_error;
mod names;
mod reading;
#[cfg(test)]
mod tests;
mod words;

pub use laws::lines_are_one;
pub use link_map::{Ask, LinkMap};
pub use map_error::MapError;
pub use reading::read_map;
