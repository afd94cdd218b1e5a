//! Exchanges of neighbouring instructions, over the definitions only.
//!
//! A schedule of an object comes from it by permitted exchanges, and no exchange is permitted in it any more
//! (`specs/Exchange.antt`, `specs/Scheduled.antt`). The crate promises that a permitted exchange keeps an object
//! spellable and accepted, that permitted exchanges keep the status and the outputs of its run without a fault,
//! although the outputs may come some steps later (`specs/Alike.antt`), that one fault is masked or detected in the
//! schedule too, and that an object has at most one schedule.
#![tactic(auto)]

mod laws;

pub use laws::{
    exchanges_keep_acceptance, exchanges_keep_runs, schedules_are_accepted, schedules_are_equal,
    schedules_tolerate_one_fault,
};
