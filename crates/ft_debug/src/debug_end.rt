//! How a session ended.

/// How a session ended.
#[derive(Clone, Copy, Debug, PartialEq, Eq)]
pub enum DebugEnd {
    /// Each line of the script was answered.
    Ended,
    /// A line could not be written.
    WriteFault,
    /// Memory ran out for the commands, the breakpoints or the states that are kept; nothing was written.
    NoMemory,
}
