//! A machine's status.

/// The machine's status. A machine that is not running takes no more steps.
#[derive(Clone, Copy, Debug, PartialEq, Eq)]
pub enum Status {
    /// The machine takes steps.
    Running,
    /// The machine has executed `halt`.
    Done,
    /// The machine has detected a fault and stopped.
    Detected,
}
