//! What the machine does, as definitions: states, steps, strikes and runs.
//!
//! The crate promises that in every running state exactly one row of the table of steps applies and gives the machine's
//! step, and that a stopped machine does not change. Its definitions: states (`specs/State.antt`), steps, also as a
//! table of rows (`specs/Step.antt`), strikes and runs (`specs/Strike.antt`, `specs/Run.antt`), and when one run agrees
//! with another (`specs/Agrees.antt`).
#![tactic(auto)]

mod laws;
mod status;

pub use laws::{steps_are_the_table, stopped_machines_stay};
pub use status::Status;
