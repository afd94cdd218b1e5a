//! What a call that takes steps returns and writes.

/// An output as C sees it: the number of its cell, and its word.
#[repr(C)]
#[derive(Clone, Copy)]
pub struct CellOutput {
    pub cell: u64,
    pub value: u64,
}

/// Why no more steps were taken.
#[derive(Clone, Copy, Debug, PartialEq, Eq)]
pub enum FlightEnd {
    /// The run is done.
    Done,
    /// The run was detected.
    Detected,
    /// All steps were taken, or no more can be counted.
    Cut,
    /// The array is full.
    Full,
}

/// How many steps a call took, how many outputs are in the array, and why it took no more.
#[derive(Clone, Copy)]
pub struct Flown {
    pub steps: u64,
    pub count: u64,
    pub end: FlightEnd,
}
