//! The meaning of the RISC-V instructions that native code for checked objects consists of: 28 of RV64IM.
//!
//! The crate promises that a word is decoded as the one table of instructions says, that every other word is refused,
//! and that a step leaves the registers, the program counter and the memory that the equation of its instruction gives.
//! There is no extension C: a jump or a taken branch to an address that is not a multiple of 4 traps, and writes nothing.
//! Its definitions: `specs/Fields.antt`, `specs/Table.antt`, `specs/Results.antt`, `specs/Memory.antt`,
//! `specs/Step.antt`. Source of the rules: "The RISC-V Instruction Set Manual, Volume I: Unprivileged Architecture".
#![tactic(auto)]

mod fields;
mod hart;
mod instr;
mod laws;
mod memory;
mod reg;
mod results;
mod table;

pub use hart::{Effect, Hart};
pub use instr::{Condition, ImmediateOperation, Instr, Operation, ShiftOperation, UpperOperation};
pub use laws::table_is_unambiguous;
pub use memory::{code_at, load, store};
pub use reg::Reg;
pub use table::decode;
