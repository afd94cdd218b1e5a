//! Typing contexts, with numbers in place of forms.
//!
//! A `Context` represents a context of the typing rules (`Context` in `ft_typing/specs`), with an array of registers
//! and with numbers in place of forms. `specs/Contexts.antt` says which defined context it represents, given an
//! interner's forms. The crate promises that `Context::start` is a code type's starting context, that each operation
//! changes a context as defined, and that the comparisons of a context with the target of a transfer are exact.
#![tactic(auto)]

mod context;
mod destination;
mod forms;
mod likeness;
mod register;
mod sequence;
mod start;
mod transfers;
mod variables;

pub use context::Context;
pub use destination::StateD;
pub use forms::same_integers;
pub use register::RegForm;
pub use sequence::Sequence;
pub use start::QUEUE_ROOM;
pub use transfers::Shared;
pub use variables::{OwnVariables, Variables};
