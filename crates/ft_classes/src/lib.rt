//! Classes of faults with one verdict.
//!
//! The crate promises, over the definitions only and for any object, that a fault's verdict is that of the strike that
//! represents it, that one run therefore judges all faults with one fate, and that strikes of the counters need no run.
//! Its definitions: when a word is read (`ft_access`), verdicts (`ft_campaign`), and the verdict of a struck counter
//! (`specs/CounterVerdicts.antt`).
#![tactic(auto)]

mod laws;

pub use laws::{
    changes_wait, counters_need_no_run, faults_before_reads_are_enough,
    representatives_have_the_verdicts, verdicts_wait,
};
