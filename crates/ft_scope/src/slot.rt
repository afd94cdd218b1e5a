//! What a name refers to.

/// A cell or a variable by its number, or the cells of an array; cells and variables are numbered
/// from 0 in the order of their declarations.
#[derive(Clone, Copy, Debug, PartialEq, Eq)]
pub enum Slot {
    /// A cell.
    Cell(u32),
    /// A variable.
    Var(u8),
    /// The cells of an array, `length` of them from `first` on.
    Run { first: u32, length: u32 },
}
