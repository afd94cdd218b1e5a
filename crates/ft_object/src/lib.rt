//! Reads objects from bytes.
//!
//! The crate promises that, unless memory runs out, `decode` returns the one object that bytes spell, or else the first
//! rule of the format that they break, with its place. The format's definitions and laws are those of `ft_format`;
//! `specs/Judged.antt` says what a reader may return. For writing, see `encode` and `spell` of `ft_encode`.
#![tactic(auto)]

mod copying;
mod decode_error;
mod memory;
mod reading;

pub use decode_error::DecodeError;
pub use ft_encode::{encode, spell};
pub use ft_format::ObjectError;
pub use reading::decode;
