//! Assembly text: objects as lines of words.
//!
//! The crate promises that, unless memory runs out, `assemble` returns the one object that a text spells, or the exact
//! reason why the text is refused, and that `disassemble` writes a text that spells the given object and no other.
//! `specs/Words.antt`, `specs/Lines.antt` and `specs/Listings.antt` say what lines mean; `NodeForms` and `InstrForms`
//! do so for the lines of nodes and instructions. `specs/Reads.antt` says which text spells which object and why a text
//! is refused.
#![tactic(auto)]

mod asm_error;
mod assembly;
mod code_lines;
mod disassembly;
mod draft;
mod fields;
mod forms;
mod instr_forms;
mod laws;
mod line;
mod node_forms;
mod writing;

pub use asm_error::AsmError;
pub use assembly::{assemble, assemble_bytes};
pub use disassembly::{disassemble, put_codes};
pub use laws::{answers_are_one, readings_are_one, texts_are_read};
pub use line::{Code, Line};
