//! Limits of flows and their texts.

/// The number of pairs.
pub(crate) const PAIRS: usize = 32;

/// The most cells.
pub(crate) const MOST_CELLS: usize = 1024;

/// The most instructions that the steps of a flow may become.
pub(crate) const MOST_INSTRS: u32 = 65_536;

/// The most bytes of a name.
pub(crate) const MOST_NAME_BYTES: usize = 32;

/// The most bytes of a text.
pub(crate) const LIMIT: usize = 134_217_728;
