//! Writes objects as bytes.
//!
//! The crate promises that `spell` writes an object's tables in the version 2 layout, and that reading what `encode`
//! writes for an object that obeys the format's rules gives that object back; every version 2 file is what `encode`
//! writes for its object. The format's definitions and laws are those of `ft_format`; `specs/Written.antt` defines the
//! bytes of each record.
#![tactic(auto)]

mod laws;
mod record;
mod writing;

pub use laws::fitting_objects_are_read;
pub use writing::{encode, spell};
