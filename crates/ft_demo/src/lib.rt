//! A demonstration: a large object, its run, and a campaign of 64 faults on it.
//!
//! `sample` makes an object that stores as many values as requested (`specs/Sample.antt`). The crate
//! promises that this object is spellable and accepted; that, unless a write fails or memory runs out, `demo` writes
//! the two lines of `specs/Demonstrations.antt`, about the outputs of the run without a fault and the verdicts of the
//! faults; and that no verdict is corrupt.
#![tactic(auto)]

mod demo_end;
mod demonstration;
mod faults;
mod making;
mod report;
mod tally;

pub use demo_end::DemoEnd;
pub use demonstration::demo;
pub use making::{MOST_TURNS, sample};
