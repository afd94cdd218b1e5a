//! Explains to people why a call was refused or did not succeed.
//!
//! `explain` returns what the program writes to standard error: for a refused call, the place in the file, the
//! line there and what is wrong with it; for a run that was detected or cut, the reason; and help.
//! The crate promises nothing about the wording. Each call is safe and terminates, and `LastLine`, which captures
//! the refusal, behaves like the sink that it wraps. The tests show the message for each refusal.
#![tactic(auto)]

mod cells;
mod checks;
mod claims;
mod comparisons;
mod declared;
mod detections;
mod emptied;
mod endless;
mod indices;
mod joins;
mod known;
mod last_line;
mod links;
mod look;
mod modules;
mod named;
mod outcomes;
mod premises;
mod reads;
mod refusal;
mod reruns;
mod silent;
mod telling;
mod unread;

pub use ft_mistakes::{asks_for_version, form_of_words};
pub use last_line::LastLine;
pub use look::{Found, Look};
pub use telling::explain;
