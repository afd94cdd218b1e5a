//! The words, instructions and plans of the machine.
//!
//! The crate promises that operations are arithmetic modulo 2^64, bitwise operations or shifts, that one table gives
//! their codes and words, that another says which registers each instruction reads and writes, that a register's number
//! is below 64, that an output's line is its cell's name and its value in decimal digits, that a count of steps grows
//! by exactly what is counted, and that the readers of sites, strikes and wild answers accept exactly their texts. Its
//! definitions: `specs/Words.antt`, `specs/Operations.antt`, `specs/Instructions.antt`, `specs/Registers.antt`,
//! `specs/PlanText.antt`.
#![tactic(auto)]

mod basic;
mod colour;
mod instr;
mod memory;
mod number_text;
mod op;
mod output;
mod plan;
mod reg;
mod site_text;
mod steps;
mod strike_text;
mod wild_text;

pub use basic::{Base, Basic, INT, REF_INT};
pub use colour::{Colour, Coloured};
pub use instr::{Instr, Subst};
pub use memory::NoMemory;
pub use number_text::read_number;
pub use op::{Op, apply};
pub use output::{FIRST_CELL, LINE_ROOM, Output, VALUE_ROOM, write_line};
pub use plan::{Plan, Site, Strike, Wild};
pub use reg::Reg;
pub use site_text::read_site;
pub use steps::Steps;
pub use strike_text::{Form, read_strike};
pub use wild_text::{WildError, read_wild};

#[cfg(test)]
mod tests;
