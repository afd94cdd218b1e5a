//! How a demonstration ended.

/// How a demonstration ended.
#[derive(Clone, Copy, Debug, PartialEq, Eq)]
pub enum DemoEnd {
    /// Both lines were written.
    Finished,
    /// A line could not be written.
    WriteFault,
    /// Memory ran out. Nothing was written.
    NoMemory,
}
