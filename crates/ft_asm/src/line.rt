//! What a line of a text says.
use ft_isa::Instr;
use ft_static::Node;
use ft_types::{Cell, RegType, Table};

/// An instruction as its line spells it. The rows of its substitution are the node numbers in `rows`, so `first` and
/// `past` in `instr` are 0.
#[derive(Drop)]
pub struct Code {
    pub instr: Instr,
    pub rows: Table<u32>,
}

/// What a line says.
#[derive(Drop)]
pub enum Line {
    /// A cell.
    Cell(Cell),
    /// A node.
    Node(Node),
    /// A code type, whose rows follow: the number of its integer variables, and the node of its memory.
    Type { ints: u8, memory: u32 },
    /// A register row of the last code type.
    Reg(RegType),
    /// A queue row of the last code type: the nodes of an address and of a value.
    Pend { address: u32, value: u32 },
    /// The start of a block of this code type.
    Block(u32),
    /// An instruction.
    Code(Code),
    /// The entry block.
    Entry(u32),
}
