//! Why a text is refused.
use crate::fault::Rule;
use thiserror::Error;

/// Why a text is refused, with the number of a line, counted from 1.
#[derive(Clone, Copy, Debug, PartialEq, Eq, Error)]
pub enum FlowError {
    /// The line has none of the forms that may stand there.
    #[error("line {line}: none of the forms that may stand here")]
    Form { line: u32 },
    /// The line declares a name that is not a name of at most 32 letters, digits and underscores, or that an earlier
    /// line declares too.
    #[error("line {line}: not a valid new name")]
    Name { line: u32 },
    /// With this line there are more than 1,024 cells.
    #[error("line {line}: more than 1024 cells")]
    Cells { line: u32 },
    /// The line begins a block, but the block before it isn't ended.
    #[error("line {line}: the block before is not ended")]
    Falls { line: u32 },
    /// The line is a step after the end of a block, or before the first block.
    #[error("line {line}: a step outside a block")]
    Stray { line: u32 },
    /// This line, after the last, is missing: there is no version, no number of variables or no block, or the last block
    /// isn't ended.
    #[error("line {line}: the text ends too early")]
    Missing { line: u32 },
    /// The step on this line breaks a rule.
    #[error("line {line}: {rule}")]
    Step { line: u32, rule: Rule },
    /// The text has more than 134,217,728 bytes.
    #[error("more than 134217728 bytes")]
    TooLong,
    /// Memory ran out.
    #[error("out of memory")]
    NoMemory,
}
