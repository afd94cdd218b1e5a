//! Checks each section in one pass, without building tables.

pub(crate) mod blocks;
pub(crate) mod cells;
pub(crate) mod instrs;
pub(crate) mod names;
pub(crate) mod nodes;
pub(crate) mod queue;
pub(crate) mod regs;
pub(crate) mod substs;
