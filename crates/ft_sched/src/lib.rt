//! The scheduler.
//!
//! The crate promises that the schedule of a checked program is the only object that comes from it by permitted
//! exchanges of neighbouring instructions and in which no exchange is permitted any more; that it is spellable and
//! accepted; and that, without a fault, its run has the same status and, some steps later, the same outputs. The
//! definitions are those of `ft_exchange`. The scheduler looks at each instruction once, and a second time at each one
//! that waits (`src/order.rt`).
#![tactic(auto)]

mod blocks;
mod last_places;
mod order;
mod scheduling;
mod waiting;

pub use scheduling::schedule;
