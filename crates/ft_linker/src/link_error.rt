//! The errors of the linker.
use thiserror::Error;

/// Why modules cannot be linked.
#[derive(Clone, Copy, Debug, PartialEq, Eq, Error)]
pub enum LinkError {
    #[error("link 3 {module}")]
    Cells { module: u32 },
    #[error("link 4 {module}")]
    Rows { module: u32 },
    #[error("link 5 {module} {block} {index}")]
    Code { module: u32, block: u32, index: u32 },
    #[error("link 6 {module}")]
    TooBig { module: u32 },
    #[error("link 7 {line}")]
    Block { line: u32 },
    #[error("link 8 {line}")]
    Stub { line: u32 },
    #[error("link 9 {line}")]
    Missing { line: u32 },
    #[error("link 10 {line}")]
    Types { line: u32 },
    #[error("out of memory")]
    NoMemory,
}
