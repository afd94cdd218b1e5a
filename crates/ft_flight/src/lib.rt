//! Runs in the caller's memory, which allocate nothing.
//!
//! The crate promises that `go` takes the machine's steps, by its definition, from any state that a caller's words stand for, and that
//! every value of these words stands for one; and that the outputs handed out in a cycle are the first outputs of the cycle without a
//! strike, each once, and that the next cycle may begin with the cells, if it was struck at most once. No function takes an allocator. Its
//! definitions: the state that words stand for (`specs/States.antt`), what a call that takes steps does (`specs/Steps.antt`), and cycles
//! (`specs/Flights.antt`).
#![tactic(auto)]

mod calls;
mod causes;
mod cycling;
mod flown;
mod going;
mod laws;
mod plain_queue;
mod reason;
mod state;
mod stepping;

pub use calls::{again_on, cycle_on, go_on};
pub use causes::{cause_of, causes_are_exact};
pub use cycling::{again, begin, cycle, strike};
pub use flown::{CellOutput, FlightEnd, Flown};
pub use going::go;
pub use laws::{cells_keep_their_types, int_cells_may_hold_any_words};
pub use plain_queue::{PlainPair, PlainQueue};
pub use reason::{Cause, Reason};
pub use state::FlightState;
