//! The checker of objects.
//!
//! The crate promises that, unless memory runs out, `check` returns Ok exactly when an object is accepted, and otherwise
//! exactly the first refusal: the entry's code type, a cell, or an instruction with its premise. It takes no more steps
//! than `specs/Costs.antt` says. `check_within` also gives up, exactly when its budget refuses. A `Checked` guarantees
//! that its program is accepted. `Accepted` in `ft_typing/specs` has the definitions; `specs/Judges.antt` and
//! `specs/Within.antt` relate the results to them.
#![tactic(auto)]

mod blocks;
mod cells;
mod checked;
mod entry;
mod error;
mod judge;
mod keys;
mod within;

pub use checked::Checked;
pub use error::CheckError;
pub use judge::{check, check_uncounted};
pub use within::{Unfinished, check_within};
