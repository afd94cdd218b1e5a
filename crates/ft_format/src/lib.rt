//! The object format: which bytes spell which object.
//!
//! `specs/Rows.antt` says how an object is written. `specs/Rules.antt` and `specs/Broken.antt` list the rules in order,
//! except those for nodes and instructions, which are in `specs/NodeRecords.antt` and `specs/InstrRecords.antt`.
//! `specs/Versions.antt` lists what differs between the two versions of the format. `specs/Format.antt` says which
//! bytes spell which object. The crate promises that these agree (`src/laws.rt`): bytes break no rule exactly when they
//! spell an object, they spell at most one, an object has at most one spelling per version, and what version 1 spells,
//! version 2 spells with one byte changed. It also provides each record as a struct of numbers, to read or write.
#![tactic(auto)]

mod header;
mod laws;
mod numbers;
mod object_error;
mod places;
mod rows;
mod version;

pub use header::Header;
pub use laws::{
    rules_are_exact, spellings_are_apart, spellings_are_one, versions_differ_in_byte_7,
};
pub use numbers::{put, put_pair};
pub use object_error::ObjectError;
pub use places::Places;
pub use rows::cell_row::CellRow;
pub use rows::code_row::CodeRow;
pub use rows::node_row::NodeRow;
pub use rows::pair_row::PairRow;
pub use rows::reg_row::RegRow;
pub use rows::subst_row::SubstRow;
pub use rows::type_row::TypeRow;
pub use version::Version;
