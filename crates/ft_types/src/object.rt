//! Objects: code with its types, its blocks and its cells.
use crate::table::Table;
use ft_isa::{Basic, Colour, Instr, Reg};
use ft_static::Node;

/// What a code type says about a register: its colour, the basic type of its word, and the node of the integer that it
/// holds.
#[derive(Clone, Copy, Debug, PartialEq, Eq)]
pub struct RegType {
    pub reg: Reg,
    pub colour: Colour,
    pub basic: Basic,
    pub expr: u32,
}

/// What is known at the start of a block of this type: the number of its integer variables (0 to 128); the registers
/// that have a type, in increasing order; the pairs of address node and value node in the store queue, oldest first (at
/// most 8); and the node of the memory.
#[derive(Drop)]
pub struct CodeType {
    pub ints: u8,
    pub regs: Table<RegType>,
    pub queue: Table<(u32, u32)>,
    pub memory: u32,
}

/// A block: the number of its first instruction, and the number of its code type. It extends to the next block, or to
/// the last instruction.
#[derive(Clone, Copy, Debug, PartialEq, Eq)]
pub struct Block {
    pub start: u32,
    pub code_type: u32,
}

/// A named word of memory: a name of 1 to 40 bytes, the basic type of its word, and its initial word.
#[derive(Drop)]
pub struct Cell {
    pub name: Table<u8>,
    pub basic: Basic,
    pub init: u64,
}

/// Code with its types, its blocks and its cells, and the number of the block in which a run begins. `substs` lists the
/// nodes that blue jumps and branches substitute for variables, in the order of the code.
#[derive(Drop)]
pub struct Object {
    pub cells: Table<Cell>,
    pub nodes: Table<Node>,
    pub types: Table<CodeType>,
    pub blocks: Table<Block>,
    pub instrs: Table<Instr>,
    pub substs: Table<u32>,
    pub entry: u32,
}

/// How many cells, code types, blocks, instructions and substitution rows a program has.
#[derive(Clone, Copy, Debug, PartialEq, Eq)]
pub struct Counts {
    pub cells: u32,
    pub types: u32,
    pub blocks: u32,
    pub instrs: u32,
    pub substs: u32,
}

/// A code type without its rows: the number of its integer variables, how many register rows and queue
/// rows it has, and the node of its memory.
#[derive(Clone, Copy, Debug, PartialEq, Eq)]
pub struct TypeHead {
    pub ints: u8,
    pub regs: u32,
    pub queue: u32,
    pub memory: u32,
}

/// A cell without its name.
#[derive(Clone, Copy, Debug, PartialEq, Eq)]
pub struct CellHead {
    pub basic: Basic,
    pub init: u64,
}
