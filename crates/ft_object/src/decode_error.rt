//! Why an object was not read.
use ft_format::ObjectError;
use thiserror::Error;

/// Why an object was not read.
#[derive(Clone, Copy, Debug, PartialEq, Eq, Error)]
pub enum DecodeError {
    /// The bytes spell no object.
    #[error("{0}")]
    Object(ObjectError),
    /// Memory ran out.
    #[error("out of memory")]
    NoMemory,
}
