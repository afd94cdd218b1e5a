//! Expressions.
use ft_isa::Op;

/// An expression over names of type `N`.
#[derive(Debug, Drop)]
pub enum Expr<N> {
    /// A word.
    Literal(u64),
    /// The word of a cell or a variable.
    Name(N),
    /// `name[index]`, the word of a cell of an array.
    At {
        name: N,
        index: Box<Expr<N>>,
    },
    /// An operation on the words of two expressions.
    Op {
        op: Op,
        a: Box<Expr<N>>,
        b: Box<Expr<N>>,
    },
}
