//! Flows: blocks of steps.
use crate::step3::Step3;

/// Blocks of steps, one after the other, for a number of variables (at most 31) and a number of cells (at most 1,024).
/// Each `Go` and each `Stop` ends its block. Block 0 is the entry. Pair i is variable i, if there is such a variable.
#[derive(Drop)]
pub struct Flow {
    pub vars: u8,
    pub cells: u32,
    pub steps: Vec<Step3>,
}
