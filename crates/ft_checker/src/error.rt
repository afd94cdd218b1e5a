//! Why an object is not accepted.
use ft_isa::NoMemory as OutOfMemory;
use ft_rules::Why;
use thiserror::Error;

/// Why an object is not accepted: a run may not begin with its entry block's code type; the initial word of a cell does
/// not have the cell's type (the lowest such cell is named); or an instruction is refused, given by its block and its
/// index in the block, both counted from 0, with its first failing premise. Or memory ran out.
#[derive(Clone, Copy, Debug, PartialEq, Eq, Error)]
pub enum CheckError {
    #[error("a run cannot begin with the entry block's code type")]
    EntryType,
    #[error("the initial word of cell {cell} does not have the cell's type")]
    CellType { cell: u32 },
    #[error("instruction {index} of block {block}: {why}")]
    Refused { block: u32, index: u32, why: Why },
    #[error("out of memory")]
    NoMemory,
}

impl From<OutOfMemory> for CheckError {
    ghost use Rattle.std.specs.Prelude.{◌≡◌};
    ghost use Rattle.ft_checker.specs.declared.error.CheckError.TheVariants.{NoMemory};

    ghost from_gives = { λ _ e. e ≡ NoMemory };

    fn from(_error: OutOfMemory) -> CheckError {
        CheckError::NoMemory
    }
}
