//! Histories: what calls gave and took, for proofs alone. They take no memory, and their methods do nothing at run time.
//!
//! A history means what the code notes in it: the callers of `note`, `opened` and `gave` have to be read.
#![tactic(auto)]

mod heard;
mod reads;
mod taken;

pub use heard::Heard;
pub use reads::Reads;
pub use taken::Taken;
