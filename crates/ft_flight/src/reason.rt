//! Why a run was detected.

/// What was compared when a run was detected. The comment names the two words.
#[derive(Clone, Copy, Debug, PartialEq, Eq)]
pub enum Reason {
    /// A fetch: the counters differ. The green counter, the blue one.
    Counters,
    /// A fetch: no instruction is at the counters. Both counters.
    NoCode,
    /// A load: nothing is at its address. The address, 0.
    Wild,
    /// A green store: eight stores are pending. Its address, 8.
    Crowded,
    /// A blue store: no green store is pending. Its address, 0.
    NonePending,
    /// A blue store: the oldest pending store has another address. Its address, the other one.
    Addresses,
    /// A blue store: the oldest pending store has another value. Its value, the other one.
    Values,
    /// A blue store: both pairs agree, but no cell has the address. The address twice.
    NoAddress,
    /// A green jump or branch: a jump is pending. d, 0.
    JumpPending,
    /// A blue jump or branch: it jumps, but green did not. Its target, 0.
    NoJump,
    /// A blue jump or branch: green meant another target. Its target, d.
    Targets,
    /// A blue branch: it falls through, but green meant to jump. The word it tests, d.
    NoPass,
}

/// Why a run was detected: what was compared, and the two words.
#[derive(Clone, Copy)]
pub struct Cause {
    pub reason: Reason,
    pub left: u64,
    pub right: u64,
}
