//! Declarations.
use crate::spot::Spot;

/// A declaration.
#[derive(Debug, Drop)]
pub enum Decl<'a> {
    /// `cell name = init;`
    Cell {
        name: Spot<'a>,
        init: u64,
    },
    /// `var name;`
    Var {
        name: Spot<'a>,
    },
    /// `cell name[length] = init;`, with the place of the length's first byte.
    Array {
        name: Spot<'a>,
        length: u64,
        length_at: usize,
        init: u64,
    },
}
