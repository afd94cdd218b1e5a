//! Why bytes spell no object.
ghost use Rattle.std.specs.Prelude.{◌≡◌};

use thiserror::Error;

/// The first rule of the format that bytes break. `at` is the offset in bytes of the field that breaks it. For `Length`
/// it is 67,108,864 if there are more bytes than that, else the smaller of the number of bytes and the required number,
/// which is 48 for the header and then the header's total.
#[derive(Clone, Copy, Debug, PartialEq, Eq, Error)]
pub enum ObjectError {
    /// The bytes do not begin with the magic number of a version.
    #[error("object 1 {at}")]
    Magic { at: usize },
    /// There are more than 67,108,864 bytes, fewer than the 48 of a header, or not exactly as many as the header's
    /// counts require.
    #[error("object 2 {at}")]
    Length { at: usize },
    /// A count, a scope or a length is out of its range.
    #[error("object 3 {at}")]
    Count { at: usize },
    /// Padding, or a field that the record does not use, is not zero.
    #[error("object 4 {at}")]
    Pad { at: usize },
    /// A code has no meaning, there are too many refs, or a node is of the wrong sort.
    #[error("object 5 {at}")]
    Kind { at: usize },
    /// A number refers to a part that does not exist or may not be used here.
    #[error("object 6 {at}")]
    Index { at: usize },
    /// Ends or beginnings are out of order or out of range, registers are out of order, the rows of a substitution do
    /// not follow the previous ones, or there are stray rows or name bytes.
    #[error("object 7 {at}")]
    Order { at: usize },
    /// A name is too long, has a byte that is not allowed there, or is another cell's name.
    #[error("object 8 {at}")]
    Name { at: usize },
    /// The entry block does not exist.
    #[error("object 9 {at}")]
    Entry { at: usize },
}

impl ObjectError {
    ghost use Rattle.ft_format.specs.Errors.{error_number, error_place};

    /// The number of the error, from 1.
    pub fn number(self) -> u32
        ensures { result ≡ error_number self }
    {
        match self {
            ObjectError::Magic { at: _ } => 1,
            ObjectError::Length { at: _ } => 2,
            ObjectError::Count { at: _ } => 3,
            ObjectError::Pad { at: _ } => 4,
            ObjectError::Kind { at: _ } => 5,
            ObjectError::Index { at: _ } => 6,
            ObjectError::Order { at: _ } => 7,
            ObjectError::Name { at: _ } => 8,
            ObjectError::Entry { at: _ } => 9,
        }
    }

    /// The place of the error, its `at`.
    pub fn place(self) -> usize
        ensures { result ≡ error_place self }
    {
        match self {
            ObjectError::Magic { at } => at,
            ObjectError::Length { at } => at,
            ObjectError::Count { at } => at,
            ObjectError::Pad { at } => at,
            ObjectError::Kind { at } => at,
            ObjectError::Index { at } => at,
            ObjectError::Order { at } => at,
            ObjectError::Name { at } => at,
            ObjectError::Entry { at } => at,
        }
    }
}
