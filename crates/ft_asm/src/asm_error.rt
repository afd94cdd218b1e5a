//! Why a text is refused.
use ft_object::ObjectError;
use thiserror::Error;

/// Why a text is refused. `line` counts lines from 1.
#[derive(Clone, Copy, Debug, PartialEq, Eq, Error)]
pub enum AsmError {
    /// The first line at fault has none of the forms.
    #[error("asm 1 {line}")]
    Text { line: u32 },
    /// The first line at fault has one of the forms, but no text that reads as an object begins with the lines up to
    /// it. Or no line is at fault, but the text is incomplete: this line, after the last, is missing.
    #[error("asm 2 {line}")]
    Order { line: u32 },
    /// The text has more than 134,217,728 bytes.
    #[error("asm 3 134217728")]
    TooLong,
    /// The spelling of the tables breaks a rule of the object format; this is the first one that it breaks.
    #[error("{0}")]
    Object(ObjectError),
    /// Memory ran out.
    #[error("out of memory")]
    NoMemory,
}
