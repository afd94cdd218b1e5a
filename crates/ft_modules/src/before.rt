//! The totals of the modules before a module.

/// How many rows of each kind come before a module.
#[derive(Clone, Copy, Debug, PartialEq, Eq)]
pub struct Before {
    pub nodes: u32,
    pub types: u32,
    pub blocks: u32,
    pub instrs: u32,
    pub substs: u32,
}
