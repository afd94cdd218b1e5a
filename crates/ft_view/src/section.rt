//! The sections of an object.

/// One of the nine sections of an object, in order.
#[derive(Clone, Copy, Debug, PartialEq, Eq)]
pub enum Section {
    /// Cells: where their names end, their basic types and initial words.
    Cells,
    /// Nodes of expressions.
    Nodes,
    /// Code types without their rows.
    Types,
    /// Register rows of the code types.
    Regs,
    /// Queue rows of the code types.
    Queue,
    /// Blocks.
    Blocks,
    /// Instructions.
    Instrs,
    /// Substitution rows of the blue transfers.
    Substs,
    /// The bytes of the cells' names.
    Names,
}
