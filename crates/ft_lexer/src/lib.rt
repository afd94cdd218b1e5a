//! Source texts, split into tokens.
//!
//! The crate promises that a lexer returns exactly the scan of its text: the tokens in order, each the slice of the
//! text at its place, then the first error or the end, and then always `None`. It allocates nothing. Its definitions:
//! `specs/Bytes.antt`, `specs/Scan.antt`, `specs/Placed.antt`.
#![tactic(auto)]

mod bytes;
mod kind;
mod laws;
mod lex_error;
mod lexer;
mod runs;
mod token;

pub use kind::Kind;
pub use laws::places_rise;
pub use lex_error::LexError;
pub use lexer::Lexer;
pub use token::Token;

#[cfg(test)]
mod tests;
