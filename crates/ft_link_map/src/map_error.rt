//! Why a text is not a link map.
use thiserror::Error;

/// Why a text is not a link map. `line` counts lines from 1.
#[derive(Clone, Copy, Debug, PartialEq, Eq, Error)]
pub enum MapError {
    /// This is the first line that has none of the forms, is an export or import before any module, or is a 65th
    /// module. Or there is no module, and this is the line after the last.
    #[error("link 1 {line}")]
    Line { line: u32 },
    /// No line is misplaced, and this is the first that exports a name already exported or a block already imported, or
    /// imports a block already named.
    #[error("link 2 {line}")]
    Twice { line: u32 },
    /// Memory ran out.
    #[error("out of memory")]
    NoMemory,
}
