//! The typing rules, one instruction at a time.
//!
//! The crate promises that `apply_rule` applies exactly one typing rule, and that a refusal names the first failing
//! premise (`specs/Answers.antt`). The rules are those of `TypingRow` in `ft_typing/specs`, and contexts those of
//! `ft_contexts`.
#![tactic(auto)]

mod premises;
mod reads;
mod rows;
mod runs;
mod transfer;
mod typed_words;
mod why;

pub use ft_contexts::{Context, RegForm, Shared, StateD};
pub use ft_typing::Why;
pub use rows::{apply_rule, apply_rule_over};
pub use typed_words::has_type;
pub use why::{Next, RuleError};
