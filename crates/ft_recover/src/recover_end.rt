//! How a recovery ended.

/// How a recovery ended. `again` is the number of outputs that the first run had committed when it detected the fault,
/// and so the number that the second run left out; `None` if there was no second run.
#[derive(Clone, Copy, Debug, PartialEq, Eq)]
pub enum RecoverEnd {
    /// The program ended.
    Done { again: Option<u64> },
    /// The program is still running after the last step.
    OutOfSteps { again: Option<u64> },
    /// A line could not be written.
    WriteFault,
    /// Memory ran out. Nothing was written.
    NoMemory,
}
