//! Lowering: blocks of three-address steps that do what a program means.
//!
//! The crate promises that `lower` returns a well-formed flow, with at most as many instructions as the program weighs
//! and no more pairs than it needs, and that the flow's run commits the outputs of the program's meaning and ends when
//! the meaning ends. Its definitions: `specs/Flow.antt` (steps and runs), `specs/Well.antt` (well-formed flows),
//! `specs/Cutting.antt` (the blocks of a row of steps), `specs/Lowered.antt` (how statements become steps),
//! `specs/Lowers.antt` (what a program's flow does, whatever the initial words).
#![tactic(auto)]

mod counting;
mod cutting;
mod emission;
mod flow;
mod laws;
mod lowering;
mod step3;

pub use cutting::next_block;
pub use flow::Flow;
pub use laws::{array_words_are_run, fibonacci_numbers_are_run, flows_mean_their_own_words};
pub use lowering::lower;
pub use step3::Step3;
