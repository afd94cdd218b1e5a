//! Flows as texts: from a text of three-address steps to an object that stands for it.
//!
//! The crate promises that the object of a text is accepted and commits what the text's steps store, whatever initial
//! words its cells are given, and that any other text is refused at its first wrong line. Its definitions:
//! `specs/Texts.antt` (what a text says, or why it is refused), `specs/Faults.antt` (which rule a step breaks),
//! `specs/Runs.antt` (what the steps do, and when an object stands for a text).
#![tactic(auto)]

mod bodies;
mod cells;
mod choosing;
mod fault;
mod fields;
mod flow_error;
mod heads;
mod laws;
mod limits;
mod rows;
mod steps;
mod tests_of_steps;
mod texts;
mod words;

pub use choosing::choose_spares;
pub use fault::{Fault, Frame, Rule, SparesError};
pub use flow_error::FlowError;
pub use laws::{small_text_is_read, spares_change_nothing};
pub use texts::compile_text;
