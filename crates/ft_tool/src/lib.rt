//! The tool: what a command line does with files, a script and an output.
//!
//! The crate promises that, unless reading or writing fails or memory runs out, `tool` writes the output and returns
//! the status that the words ask for. `specs/Answers.antt` defines both by one rule per command, and `ft_command`
//! defines which words ask for which command. The lines of refusals are in `specs/Texts.antt`.
#![tactic(auto)]

mod assemble;
mod at_system;
mod campaign;
mod check;
mod compile;
mod debug;
mod demo;
mod disassemble;
mod ending;
mod exec;
mod laws;
mod link;
mod load;
mod mean;
mod over_file;
mod over_list;
mod over_object;
mod recover;
mod refused;
mod run;
mod schedule;
mod script;
mod survey;
mod top;
mod trial;
mod unlinked;
mod upgrade;

pub use at_system::whole;
pub use ft_demo::sample;
pub use laws::{answers_matter_after_a_strike_alone, words_have_one_answer};
pub use top::tool;
