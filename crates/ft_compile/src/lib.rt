//! Compiled objects: what a source means, as an object that the checker accepts.
//!
//! The crate promises that `compile` refuses exactly the texts that are not programs, and otherwise, unless memory runs
//! out, returns the object of the text's program. It stands for the program: it is spellable and accepted, and whatever
//! its initial words, its run commits the outputs of the meaning of the program with these words and ends when that
//! meaning ends. It is the object of a flow of the program, and the linker accepts it as a module. Its definitions:
//! `specs/StandsFor.antt` (what stands for a program), `specs/Emitted.antt` (the object of a flow).
#![tactic(auto)]

mod cells;
mod code_types;
mod compiling;
mod emission;
mod flows;
mod laws;
mod notes;
mod placing;
mod walking;

pub use compiling::compile;
pub use flows::compile_flow;
pub use laws::{
    all_words_stand, carried_blocks_run_as_meant, compiled_objects_are_modules,
    emitted_objects_are_accepted, programs_have_cells, programs_have_objects,
    runs_and_meanings_write_the_same_lines,
};
