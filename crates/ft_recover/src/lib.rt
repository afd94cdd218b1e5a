//! Recovery: the whole output of an accepted program under at most one fault.
//!
//! The crate promises that, unless a write fails or memory runs out, `recover` writes exactly the outputs of the run
//! without a fault, each once, and ends as that run does. If the fault is detected, it starts the program again and
//! leaves out the outputs already committed. Its definitions are in `specs/Recovery.antt`.
#![tactic(auto)]

mod passing;
mod recover_end;
mod recovery;
mod runs;

pub use recover_end::RecoverEnd;
pub use recovery::recover;
