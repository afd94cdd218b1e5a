//! Why the steps of a flow are refused.
use thiserror::Error;

/// What the steps of a flow refer to: the number of variables (at most 31), of cells, and of blocks.
#[derive(Clone, Copy, Debug, PartialEq, Eq)]
pub struct Frame {
    pub vars: u8,
    pub cells: u32,
    pub blocks: usize,
}

/// A rule that a step breaks.
#[derive(Clone, Copy, Debug, PartialEq, Eq, Error)]
pub enum Rule {
    /// It names a pair that isn't below 32.
    #[error("no such pair")]
    Pair,
    /// It names a cell or an array that doesn't exist.
    #[error("no such cell or array")]
    Cell,
    /// It goes to a block that doesn't exist, or to the first block.
    #[error("no such block to go to")]
    Target,
    /// It reads a pair that no earlier step of its block sets and that is no variable.
    #[error("it reads a pair that is not set")]
    Unset,
    /// It is a jump, and a variable is not set yet.
    #[error("a variable is not set")]
    Variable,
    /// It is a store or a jump, and all 32 pairs are set: none is left for its address.
    #[error("no pair is left for the address")]
    Spare,
    /// With it the code has more than 65,536 instructions.
    #[error("more than 65536 instructions")]
    Long,
    /// It is missing: the last block isn't ended.
    #[error("the last block is not ended")]
    Open,
}

/// The first step that breaks a rule, and the first rule that it breaks.
#[derive(Clone, Copy, Debug, PartialEq, Eq)]
pub struct Fault {
    pub at: usize,
    pub rule: Rule,
}

/// Why no spares were chosen.
#[derive(Clone, Copy, Debug, PartialEq, Eq)]
pub enum SparesError {
    /// A step breaks a rule.
    Broken(Fault),
    /// Memory ran out.
    NoMemory,
}
