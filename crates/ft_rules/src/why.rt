//! Why a row does not apply, and its result if it does.
use ft_isa::NoMemory as OutOfMemory;
use ft_typing::Why;
use std::alloc::AllocError;
use thiserror::Error;

/// Why there is no next context: a premise fails, or memory ran out.
#[derive(Clone, Copy, Debug, PartialEq, Eq, Error)]
pub enum RuleError {
    #[error("{0}")]
    Refused(Why),
    #[error("out of memory")]
    NoMemory,
}

impl From<OutOfMemory> for RuleError {
    ghost use Rattle.std.specs.Prelude.{◌≡◌};
    ghost use Rattle.ft_rules.specs.declared.why.RuleError.TheVariants.{NoMemory};

    ghost from_gives = { λ _ e. e ≡ NoMemory };

    fn from(_error: OutOfMemory) -> RuleError {
        RuleError::NoMemory
    }
}

/// The result of a row: the block continues after the instruction, or ends with it.
#[derive(Clone, Copy, Debug, PartialEq, Eq)]
pub enum Next {
    On,
    Ends,
}
