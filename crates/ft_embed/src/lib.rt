//! The checker, the machine and the compiler, on a caller's bytes, texts and arrays.
//!
//! The crate repeats the promises of lower crates in terms that C can use. A check is exact
//! (`specs/Verdicts.antt`). The outputs of a run are those of the definition, and a single fault is masked or
//! detected (`specs/Outputs.antt`). The texts and objects that calls write are as defined (`specs/Texts.antt`).
//! A cell's initial word is changed in place (`specs/Cells.antt`). Links and campaigns return what
//! `ft_modules` and `ft_campaign` define (`specs/Links.antt`, `specs/Trials.antt`). A `Task` is a run that
//! continues across calls (`specs/Tasks.antt`). The crate `ft_c` exports these calls.
#![tactic(auto)]

mod answer;
mod assembly;
mod cells;
mod checking;
mod compiling;
mod filling;
mod handing;
mod linking;
mod objects;
mod plan_text;
mod recovering;
mod refused;
mod running;
mod task;
mod trial;
mod trying;
mod unlinked;
mod verdict;

pub use answer::{Ran, RunAnswer};
pub use assembly::{assemble_into, disassemble_into};
pub use cells::set_cell;
pub use checking::judge;
pub use compiling::compile_into;
pub use filling::CellOutput;
pub use handing::Written;
pub use linking::{LinkAnswer, link_into};
pub use objects::{name_into, schedule_into, upgrade_into};
pub use recovering::recover;
pub use refused::Refused;
pub use running::run;
pub use task::Task;
pub use trial::{FaultTotals, FaultVerdict};
pub use trying::{TrialAnswer, campaign};
pub use unlinked::{Module, Unlinked};
pub use verdict::{Verdict, unrefused};
