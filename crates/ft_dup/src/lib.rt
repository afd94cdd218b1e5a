//! Doubling: the instructions of a flow's steps, each in green and in blue.
//!
//! The crate promises that `duplicate` returns exactly the images of the flow's steps, in order, and the blocks'
//! starts, and that any object that carries a well-formed flow's instructions runs as the flow does. Its definitions:
//! `specs/Shape.antt` (which flows are doubled), `specs/Images.antt` (the instructions of a step), `specs/Doubles.antt`
//! (which objects carry a flow, and what their runs do).
#![tactic(auto)]

mod doubled;
mod emission;
mod laws;
mod registers;
mod sizes;
mod whole;

pub use doubled::Doubled;
pub use laws::{fibonacci_program_is_doubled, well_flows_have_the_shape};
pub use registers::{blue_register, green_register};
pub use whole::duplicate;
