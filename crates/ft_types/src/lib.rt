//! Objects and programs: an object's tables, and how to read them.
//!
//! The crate promises that an object returns its parts exactly as its tables hold them. It defines the parts of an
//! object (`specs/Objects.antt`), the numbers that encode a node (`specs/NodeRows.antt`), which objects can be spelled
//! in bytes (`specs/Spellable.antt`), the line of an output (`specs/Texts.antt`) and an object with other initial words
//! (`specs/InitialWords.antt`). A copy of a program is the object that the program represents, or that object with other
//! instructions.
#![tactic(auto)]

mod copying;
mod object;
mod program;
mod rows;
mod table;
mod words;

pub use copying::{copy_cells, copy_object, copy_with_instrs};
pub use object::{Block, Cell, CellHead, CodeType, Counts, Object, RegType, TypeHead};
pub use program::{INSTR_BYTES, Program, end_of};
pub use table::Table;
pub use words::{ShapeNumbers, high_half, joined, low_half, row_words, shape_numbers};
