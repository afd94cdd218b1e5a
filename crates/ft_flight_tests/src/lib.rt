//! Tests of cycles in a caller's memory, and of native instructions.
//!
//! These tests have a crate of their own, since a crate with tests is proved twice. The object's outputs were worked out
//! by hand from the machine's table of steps, and the encodings of instructions were made by LLVM's assembler.
#![tactic(auto)]

#[cfg(test)]
mod cycles;
#[cfg(test)]
mod native;
