//! How the computation of a program's meaning ended.

/// How the computation of a program's meaning ended.
#[derive(Clone, Copy, Debug, PartialEq, Eq)]
pub enum MeanEnd {
    /// The program ended.
    Ended,
    /// A loop's test was not 0, and no turn was left.
    Cut,
    /// A line could not be written.
    WriteFault,
    /// Memory ran out for the names, the words or a line; nothing was written.
    NoMemory,
}
