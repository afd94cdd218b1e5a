//! The machine, step by step and over whole runs.
//!
//! The crate promises that a `Machine` holds a state of the machine's definition: `new` is the start, `step` one step,
//! and `strike` one strike. `go` takes steps and passes each output to an `Outlet`; `run_under` is a run under a plan,
//! and `drive` such a run with a line for each output. The definitions are those of `ft_semantics`;
//! `specs/Answers.antt`, `specs/Goes.antt` and `specs/Drives.antt` relate the calls' results to them.
#![tactic(auto)]

mod bank;
mod cells;
mod first;
mod first_output;
mod lines;
mod machine;
mod outlet;
mod processor;
mod registers;
mod run;
mod stepped;
mod stepping;
mod stretch;
mod wild;

pub use cells::{cell_at, has_cell};
pub use first::entry_address;
pub use ft_semantics::Status;
pub use lines::{Lines, put_output};
pub use machine::Machine;
pub use outlet::Outlet;
pub use processor::Processor;
pub use registers::Registers;
pub use run::{RunEnd, drive, run_under, steps_before, strike_before};
pub use stepped::{Advance, Gone, Pause, Stepped};
pub use stepping::has_instr;
pub use wild::WildLeft;
