//! Why a text cannot be split into tokens.
use thiserror::Error;

/// The first error of a text.
#[derive(Clone, Copy, Debug, PartialEq, Eq, Error)]
pub enum LexError {
    /// The byte at `at`, counted from 0, begins no token, or is the 33rd of a name.
    #[error("invalid token at byte {at}")]
    Byte { at: usize },
    /// The digits from byte `at` spell 2^64 or more.
    #[error("number too large at byte {at}")]
    Number { at: usize },
}
