//! Operators as they are written.

/// A binary operator.
#[derive(Clone, Copy, PartialEq, Eq)]
pub enum Operator {
    /// `==`
    Equal,
    /// `<`
    Less,
    /// `&`
    And,
    /// `|`
    Or,
    /// `^`
    Xor,
    /// `<<`
    Up,
    /// `>>`
    Down,
    /// `+`
    Plus,
    /// `-`
    Minus,
    /// `*`
    Star,
}
