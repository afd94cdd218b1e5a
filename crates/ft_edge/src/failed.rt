//! The failure of a take or a put.
use thiserror::Error;

/// A take or a put failed, and the count of failures rose.
#[derive(Clone, Copy, Debug, PartialEq, Eq, Error)]
#[error("reading or writing failed")]
pub struct Failed;
