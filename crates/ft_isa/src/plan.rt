//! What happens to a run: at most one strike, and the answers to wild loads.
use crate::reg::Reg;

/// A place that a fault may strike. Queue places are counted from the oldest entry, which is 0; in a plan they are 0 to
/// 7.
#[derive(Clone, Copy, Debug, PartialEq, Eq)]
pub enum Site {
    /// The word of a general register.
    R(Reg),
    /// The destination register d.
    D,
    /// The green program counter.
    PcG,
    /// The blue program counter.
    PcB,
    /// The address of a pending entry of the store queue.
    QAddr(u8),
    /// The value of a pending entry of the store queue.
    QVal(u8),
}

/// A fault: before machine step `step`, counted from 0, the word at the site becomes `value`.
#[derive(Clone, Copy, Debug, PartialEq, Eq)]
pub struct Strike {
    pub step: u64,
    pub site: Site,
    pub value: u64,
}

/// The answer to a wild load, a load from an address that has no cell.
#[derive(Clone, Copy, Debug, PartialEq, Eq)]
pub enum Wild {
    /// The load returns this word.
    Word(u64),
    /// The load stops the machine with the status Detected.
    Stop,
}

/// What happens to a run: at most one strike, and the answers to its wild loads in order.
#[derive(Clone, Copy)]
pub struct Plan<'w> {
    pub strike: Option<Strike>,
    pub wild: &'w [Wild],
}
