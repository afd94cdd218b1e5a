//! Meters of work.
//!
//! Code that may do much work asks a `Meter` for each piece of it beforehand, and gives up if it is refused. `Steps`, a
//! ghost counter, never refuses and compiles to nothing; a `Budget` refuses exactly what goes beyond it. The crate
//! promises that no meter counts more than what was asked for. `specs/Budgets.antt` says what a budget has counted.
#![tactic(auto)]

mod budget;
mod meter;
mod steps;

pub use budget::Budget;
pub use meter::Meter;
