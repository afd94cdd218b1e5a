//! Legs: runs of accepted programs that go back to a point when a fault shows.
//!
//! The crate promises that a machine's state is certified exactly when its definition says so, and that a copy of a
//! state that is certified, after at most one strike since a point, is a point again. So a driver that keeps such copies
//! stands any number of faults, at most one between two points. Its definitions are those of `ft_points`.
#![tactic(auto)]

mod certified;
mod keeping;

pub use certified::is_certified;
pub use keeping::keep;
