//! The exports of the C library: the calls of `ft_embed`, with plain C types.
//!
//! Each export restates the clauses of its counterpart, with the same definitions. A `Handle` is C's
//! reference to a run that continues across calls: a pointer to a `Task`, or none (`specs/Held.antt`,
//! `specs/Handles.antt`). No C function is declared here.
#![tactic(auto)]

mod cells;
mod handle;
mod loose;
mod machines;
mod modules;
mod over_objects;
mod over_texts;
mod trials;

pub use cells::talft_set_cell;
pub use handle::Handle;
pub use machines::{talft_advance, talft_close, talft_open, talft_restart, talft_strike};
pub use modules::talft_link;
pub use over_objects::{
    talft_check, talft_name, talft_recover, talft_run, talft_schedule, talft_upgrade,
};
pub use over_texts::{talft_assemble, talft_compile, talft_disassemble};
pub use trials::talft_campaign;
