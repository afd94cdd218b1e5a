//! Names, limits and size of a source.
//!
//! The crate promises that `resolve` returns a syntax tree's program, with each name replaced by the cell,
//! the array or the variable that it names, or the tree's first refusal; and that a program is within the
//! limits on cells, registers and weight. Its definitions: `specs/Scope.antt`, `specs/CellNames.antt`,
//! `specs/Size.antt`, `specs/Resolved.antt`, and for whole texts `specs/Outcome.antt` and
//! `specs/Proper.antt`.
#![tactic(auto)]

mod cell_names;
mod laws;
mod limits;
mod making;
mod measure;
mod misuse;
mod names;
mod prog;
mod renaming;
mod resolving;
mod slot;

pub use cell_names::cell_name;
pub use laws::{one_text_has_one_outcome, programs_are_proper};
pub use prog::Prog;
pub use resolving::resolve;
pub use slot::Slot;
