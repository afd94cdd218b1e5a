//! What a token is.

/// The kind of a token.
#[derive(Clone, Copy, Debug, PartialEq, Eq)]
pub enum Kind {
    /// A letter or `_`, and the letters, digits and `_` after it, if they are not a reserved word.
    Name,
    /// A run of digits that spells a number below 2^64.
    Number,
    /// `cell`
    Cell,
    /// `var`
    Var,
    /// `while`
    While,
    /// `if`
    If,
    /// `else`
    Else,
    /// `=`
    Assign,
    /// `;`
    Semi,
    /// `(`
    LParen,
    /// `)`
    RParen,
    /// `{`
    LBrace,
    /// `}`
    RBrace,
    /// `+`
    Plus,
    /// `-`
    Minus,
    /// `*`
    Star,
    /// `<`
    Less,
    /// `==`
    EqEq,
    /// `[`
    LBracket,
    /// `]`
    RBracket,
    /// `&`
    And,
    /// `|`
    Or,
    /// `^`
    Xor,
    /// `<<`
    Shl,
    /// `>>`
    Shr,
}
