//! The main theorem: one fault is masked or detected.
//!
//! The crate promises, over the definitions only, that the run of an accepted object without a fault fits its types as
//! long as it is running, and is never detected; and that after each step a run that is struck once has committed
//! exactly what the run without the strike has, or has detected the fault and stopped after a prefix. Its definitions:
//! the place of a run and the states that fit it (`specs/TypedState.antt`), what the laws say about each step
//! (`specs/Soundness.antt`), and which states one fault leaves alike (`specs/Alike.antt`).
#![tactic(auto)]

mod laws;

pub use laws::{
    accepted_objects_fit_their_types, one_fault_is_masked_or_detected, rows_keep_what_fits,
    steps_keep_states_alike, strikes_leave_states_alike, struck_runs_stay_alike,
};
