//! Source texts, read as syntax trees.
//!
//! The crate promises that `parse` returns the one tree that the grammar derives from the text's tokens, or
//! the first refusal at its exact place. Its definitions: `specs/Grammar.antt`, `specs/Limits.antt`,
//! `specs/Refusal.antt`, and `specs/Plain.antt`, the plain form of expressions and statements that all
//! higher crates use.
#![tactic(auto)]

mod decl;
mod declarations;
mod expr;
mod expressions;
mod indices;
mod laws;
mod operator;
mod parser;
mod pending;
mod source;
mod source_error;
mod spot;
mod statements;
mod stmt;
mod tokens;
mod tree;

pub use decl::Decl;
pub use expr::Expr;
pub use laws::{one_list_has_one_tree, one_text_has_one_answer};
pub use source::parse;
pub use source_error::SourceError;
pub use spot::Spot;
pub use stmt::Stmt;
pub use tree::Tree;
