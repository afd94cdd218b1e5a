//! What a machine needs of a store queue, wherever its pairs are kept.
ghost use Rattle.std.specs.Prelude.{◌≡◌, ◌<◌, ◌≤◌, ◌↔◌, [], ◌∷◌, ◌++◌, length, slice_get, OnOk, OnErr, IsErr, IfNone, IsTrue, option_to_list};
ghost use Rattle.ft_isa.specs.Pending.{newest_at, with_address, with_value};

use crate::queue::{Full, ROOM, StoreQueue};

/// A queue of at most eight pairs of address and value, oldest first, in any representation. No call allocates.
pub trait PendingStores {
    ghost use Rattle.ft_isa.specs.Pending.{Pending};

    // The pairs, oldest first.
    ghost pending: { Self → Pending };

    /// How many pairs wait, at most eight.
    fn len(&self) -> usize
        ensures pairs { result ≡ length (pending self.now) }
        ensures bound { result ≤ ROOM };

    /// Pair `i`; pair 0 is the oldest. `None` exactly when there is none.
    fn get(&self, i: usize) -> Option<(u64, u64)>
        ensures { result ≡ slice_get (pending self.now) i };

    /// Adds a pair as the newest. Returns `Full`, with the queue unchanged, exactly when it already has eight pairs.
    fn push(&mut self, addr: u64, value: u64) -> Result<(), Full>
        ensures full { IsErr result ↔ (length (pending self.old) ≡ ROOM) }
        ensures bound { length (pending self.old) ≤ ROOM }
        ensures ok { OnOk result (pending self.new ≡ pending self.old ++ (addr, value) ∷ []) }
        ensures err { OnErr result (pending self.new ≡ pending self.old) };

    /// Removes the oldest pair; `None` exactly when the queue is empty.
    fn pop_oldest(&mut self) -> Option<(u64, u64)>
        ensures oldest { pending self.old ≡ option_to_list result ++ pending self.new }
        ensures none { IfNone result (pending self.old ≡ []) };

    /// The value of the newest pair with this address; `None` exactly when there is none.
    #[inline]
    fn newest_at(&self, addr: u64) -> Option<u64>
        ensures { result ≡ newest_at (pending self.now) addr }
    {
        let mut newest = None;
        for i in 0..self.len() {
            if let Some((a, value)) = self.get(i) {
                if a == addr {
                    newest = Some(value);
                }
            }
        }
        newest
    }

    /// Replaces the address of pair `i`. Returns `false`, with the queue unchanged, exactly when there is no such pair.
    fn strike_addr(&mut self, i: u8, addr: u64) -> bool
        ensures there { IsTrue result ↔ (i < length (pending self.old)) }
        ensures struck { pending self.new ≡ with_address (pending self.old) i addr };

    /// Replaces the value of pair `i`. Returns `false`, with the queue unchanged, exactly when there is no such pair.
    fn strike_value(&mut self, i: u8, value: u64) -> bool
        ensures there { IsTrue result ↔ (i < length (pending self.old)) }
        ensures struck { pending self.new ≡ with_value (pending self.old) i value };
}

impl PendingStores for StoreQueue {
    ghost pending = { λ q. q };

    #[inline(always)]
    fn len(&self) -> usize {
        self.len()
    }

    #[inline(always)]
    fn get(&self, i: usize) -> Option<(u64, u64)> {
        self.get(i)
    }

    #[inline(always)]
    fn push(&mut self, addr: u64, value: u64) -> Result<(), Full> {
        self.push(addr, value)
    }

    #[inline(always)]
    fn pop_oldest(&mut self) -> Option<(u64, u64)> {
        self.pop_oldest()
    }

    #[inline(always)]
    fn strike_addr(&mut self, i: u8, addr: u64) -> bool {
        self.strike_addr(i, addr)
    }

    #[inline(always)]
    fn strike_value(&mut self, i: u8, value: u64) -> bool {
        self.strike_value(i, value)
    }
}
