//! Scripts of the debugger: their lines, read as commands.
//!
//! The crate promises that each line is read as the command that it spells, and as a bad command exactly when it spells
//! none. The lines of a script give one list of commands. Its definitions: `specs/Commands.antt`, and
//! `specs/Reads.antt` for commands that were read.
#![tactic(auto)]

mod command;
mod laws;
mod reading;
mod register;
mod script;
mod words;

pub use command::Command;
pub use laws::commands_are_one;
pub use register::Register;
pub use script::read_script;
