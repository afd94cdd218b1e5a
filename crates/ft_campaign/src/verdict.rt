//! Verdicts on faults.

/// What a fault did to a run, compared with the run without it.
#[derive(Clone, Copy, Debug, PartialEq, Eq)]
pub enum Verdict {
    /// Nothing was struck.
    Idle,
    /// Outputs and status are those of the run without the fault.
    Masked,
    /// The run detected the fault and stopped, and its outputs are a prefix of those of the run without the fault.
    Detected {
        /// The number of the step that detected it, counted from 0.
        at: u64,
    },
    /// Anything else.
    Corrupt,
}
