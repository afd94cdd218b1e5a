//! Why a source is refused.
ghost use Rattle.std.specs.Prelude.{◌≡◌};

use thiserror::Error;

/// The first refusal of a source, in the order that `parse` here and `resolve` in `ft_scope` state; places count bytes
/// from 0. `NoMemory` may be returned in place of any other result.
#[derive(Clone, Copy, Debug, PartialEq, Eq, Error)]
pub enum SourceError {
    /// The text has more than 1,048,576 bytes.
    #[error("more than 1048576 bytes")]
    TooLong,
    /// The byte at `at` begins no token, or is the 33rd of a name.
    #[error("invalid token at byte {at}")]
    Byte { at: usize },
    /// The number whose first digit is at `at` is 2^64 or more.
    #[error("number too large at byte {at}")]
    Number { at: usize },
    /// No program is possible after the token at `at`; if something is missing at the end of the text, `at` is the
    /// text's length.
    #[error("syntax error at byte {at}")]
    Syntax { at: usize },
    /// The token at `at` opens a 101st bracket or brace, or is the 201st operator of one assignment,
    /// its index included, or of one test.
    #[error("nested too deeply at byte {at}")]
    Deep { at: usize },
    /// The name declared at `at` was declared before.
    #[error("declared twice at byte {at}")]
    Twice { at: usize },
    /// The name at `at` in a statement isn't declared.
    #[error("unknown name at byte {at}")]
    Unknown { at: usize },
    /// The name at `at` in a statement is an array's and has no index, or has one and is not an array's.
    #[error("misused name at byte {at}")]
    Array { at: usize },
    /// The length of an array at `at` is 0 or above 1,024.
    #[error("invalid array length at byte {at}")]
    Length { at: usize },
    /// There are `count` cells, more than 1,024.
    #[error("too many cells: {count}")]
    Cells { count: u64 },
    /// The program needs `need` pairs of registers, more than 32.
    #[error("too many pairs of registers: {need}")]
    Registers { need: u64 },
    /// The program's weight is `weight`, more than 65,536.
    #[error("program too large: weight {weight}")]
    Weight { weight: u64 },
    /// Memory ran out.
    #[error("out of memory")]
    NoMemory,
}

impl SourceError {
    ghost use Rattle.ft_syntax.specs.Errors.{source_number, source_told};

    /// The number of the refusal, from 1; 0 if memory ran out.
    pub fn number(self) -> u32
        ensures { result ≡ source_number self }
    {
        match self {
            SourceError::TooLong => 1,
            SourceError::Byte { at: _ } => 2,
            SourceError::Number { at: _ } => 3,
            SourceError::Syntax { at: _ } => 4,
            SourceError::Deep { at: _ } => 5,
            SourceError::Twice { at: _ } => 6,
            SourceError::Unknown { at: _ } => 7,
            SourceError::Cells { count: _ } => 8,
            SourceError::Registers { need: _ } => 9,
            SourceError::Weight { weight: _ } => 10,
            SourceError::Array { at: _ } => 11,
            SourceError::Length { at: _ } => 12,
            SourceError::NoMemory => 0,
        }
    }

    /// The refusal's argument: a place in bytes, the number that exceeds a limit, or for `TooLong` the limit itself; 0
    /// if memory ran out.
    pub fn told(self) -> u64
        ensures { result ≡ source_told self }
    {
        match self {
            SourceError::TooLong => 1_048_576,
            SourceError::Byte { at } => at as u64,
            SourceError::Number { at } => at as u64,
            SourceError::Syntax { at } => at as u64,
            SourceError::Deep { at } => at as u64,
            SourceError::Twice { at } => at as u64,
            SourceError::Unknown { at } => at as u64,
            SourceError::Cells { count } => count,
            SourceError::Registers { need } => need,
            SourceError::Weight { weight } => weight,
            SourceError::Array { at } => at as u64,
            SourceError::Length { at } => at as u64,
            SourceError::NoMemory => 0,
        }
    }
}
