//! Statements.
use crate::expr::Expr;

/// A statement over names of type `N`.
#[derive(Debug, Drop)]
pub enum Stmt<N> {
    /// `to = value;`
    Assign {
        to: N,
        value: Expr<N>,
    },
    /// `to[index] = value;`
    AssignAt {
        to: N,
        index: Expr<N>,
        value: Expr<N>,
    },
    /// `while (test) { body }`
    While {
        test: Expr<N>,
        body: Vec<Stmt<N>>,
    },
    /// `if (test) { yes } else { no }`; without `else`, `no` is empty.
    If {
        test: Expr<N>,
        yes: Vec<Stmt<N>>,
        no: Vec<Stmt<N>>,
    },
}
