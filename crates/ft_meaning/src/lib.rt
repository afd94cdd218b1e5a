//! What a program means, with a budget of loop iterations.
//!
//! The crate promises that, unless a write fails or memory runs out, `mean` writes one line for each output of the
//! program's meaning, and returns whether the program ended, or was cut when its turns ran out. More turns change
//! nothing for a program that ended, except the turns left over. For one that was cut, the outputs so far stay, and
//! more may follow. Its definitions: `specs/Meaning.antt`, `specs/Lines.antt`, `specs/Ends.antt`.
#![tactic(auto)]

mod laws;
mod mean_end;
mod output_line;
mod run;
mod whole;

pub use laws::{array_words_are_meant, fibonacci_numbers_are_meant, more_turns_extend_a_meaning};
pub use mean_end::MeanEnd;
pub use whole::mean;
