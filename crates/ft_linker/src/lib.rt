//! The linker, which makes one object from modules and a map.
//!
//! The crate promises that a `Linker` is the list of the objects that were added, that `add` refuses a module exactly
//! as `ft_modules` defines it, and that `finish` returns exactly the object into which a sound map links the modules,
//! or exactly the refusal (`specs/Linking.antt`); both may run out of memory. The linked object obeys the rules of the
//! format, is accepted, runs as the modules do, and tolerates one fault. No tree is walked: trees of expressions are
//! compared by numbers (`specs/Numbers.antt`).
#![tactic(auto)]

mod assembling;
mod blocks;
mod cells;
mod changes;
mod checks;
mod imports;
mod joins;
mod laying;
mod lines;
mod link_error;
mod linker;
mod modules;
mod numbers;
mod raising;
mod rows;
mod totals;
mod traced;
mod types;

pub use ft_link_map::{Ask, LinkMap, MapError, read_map};
pub use link_error::LinkError;
pub use linker::Linker;
