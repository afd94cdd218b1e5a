//! The typing of objects, as definitions: typed words, contexts, the typing rules, and acceptance.
//!
//! The crate promises that the typing rule of an instruction is its row in the table of premises and effects, that the
//! tests of words and of basic types decide whether a word has a type and whether a type is accepted as another, and
//! that an object is accepted exactly when it has no refusal. Its definitions: `specs/TypedWord.antt`,
//! `specs/Premise.antt`, `specs/Context.antt`, the rules, also as data (`specs/TypingRow.antt`), and
//! `specs/Accepted.antt`. Examples of accepted and refused objects are in `specs/Examples.antt`.
#![tactic(auto)]

mod basic_types;
mod examples;
mod laws;
mod why;

pub use basic_types::{is_seen_as, same_basic, same_colour};
pub use examples::{examples_of_acceptance, examples_of_refusal};
pub use laws::{acceptance_is_no_refusal, rows_are_the_table, types_are_tested};
pub use why::Why;
