//! Objects read in place.
//!
//! A `View` is a slice of bytes that spell an object; nothing is copied. The crate promises that bytes are accepted or
//! refused as the format says (`ft_format`), with the first broken rule and its place (`specs/Found.antt`), and that
//! each call returns the corresponding part of the object that the bytes spell. Each kind of record has its own module,
//! which checks and reads it. A place is an offset in bytes from the start of the object.
#![tactic(auto)]

mod block;
mod byte_part;
mod cell;
mod code_type;
mod header;
mod in_place;
mod instr;
mod name;
mod node;
mod node_records;
mod part;
mod parts;
mod queue_pair;
mod reg;
mod rules;
mod same_name;
mod section;
mod sections;
mod tables;
mod view;

pub use section::Section;
pub use view::View;
