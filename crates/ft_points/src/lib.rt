//! Points: states from which a struck run goes on as the run without a fault.
//!
//! The crate promises, over the definitions only, that a struck run of an accepted object that reaches a certified state
//! may be struck again: any number of faults, at most one between two points, leaves the output right. Its definitions:
//! certified states, in which each typed word stands in registers of both colours and the two agree
//! (`specs/Certified.antt`), and runs that go back to the last certified state (`specs/Points.antt`).
#![tactic(auto)]

mod laws;

pub use laws::{
    certified_runs_are_masked, certified_states_fit, faultless_legs_complete,
    faultless_states_are_certified, legs_are_right, points_are_renewed,
    states_at_one_place_go_together,
};
