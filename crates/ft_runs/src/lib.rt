//! Runs of accepted objects as types: without a fault, and struck once.
//!
//! The crate promises that a run without a fault fits its types while it is running, and is never detected; and that a
//! struck run stays like it or is detected. It restates the main theorem of `ft_tolerance` for users of these runs. The
//! definitions are in `specs/Runs.antt`, and build on those of the main theorem.
#![tactic(auto)]

mod clean;
mod hit;
mod runs;
mod struck;

pub use clean::Clean;
pub use ft_tolerance::one_fault_is_masked_or_detected;
pub use hit::Hit;
pub use runs::{run, run_clean};
pub use struck::Struck;
