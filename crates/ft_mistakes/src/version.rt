//! The version of the program.

/// The version, as the file `VERSION` has it: a test compares the two.
pub(crate) const VERSION: &str = "0.9.0";
