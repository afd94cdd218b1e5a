//! The words of a command line.
//!
//! The crate promises that `command_of` returns what the words ask for, by the table of commands in
//! `specs/Commands.antt`: a command, its operand, and its options in any order, each at most once and followed by its
//! value (`specs/Options.antt`). Any other words ask for the usage line, and no words ask for more than one thing
//! (`words_ask_for_one_thing`).
#![tactic(auto)]

mod allowed;
mod command;
mod laws;
mod options;
mod verb;

pub use allowed::Allowed;
pub use command::{Campaign, Command, Debugging, Execution, Meaning, Run, command_of};
pub use laws::words_ask_for_one_thing;
pub use verb::Verb;
