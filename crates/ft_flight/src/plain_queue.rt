//! The store queue of a run in the caller's memory.
ghost use Rattle.std.specs.Prelude.{◌≡◌, ◌<◌, ◌+◌, ◌%◌, []};

use ft_queue::{Full, PendingStores, ROOM};

/// A pending store: its address and its value.
#[repr(C)]
#[derive(Clone, Copy)]
pub struct PlainPair {
    pub addr: u64,
    pub value: u64,
}

/// The pending stores in a ring of eight pairs. Every bit pattern is one.
#[repr(C)]
#[derive(Clone, Copy)]
pub struct PlainQueue {
    /// The place of the oldest pair, modulo 8.
    pub first: u64,
    /// How many stores are pending, at most 8; a larger number means 8.
    pub count: u64,
    /// The pairs, from place `first` on; place 0 comes after place 7.
    pub pairs: [PlainPair; ROOM],
}

impl PlainQueue {
    ghost use Rattle.ft_flight.specs.Rings.{pending_of};

    /// An empty queue.
    #[tactic(auto, unfolding(crate::specs::Rings::pairs_from))]
    pub(crate) fn new() -> PlainQueue
        ensures { pending_of result ≡ [] }
    {
        PlainQueue {
            first: 0,
            count: 0,
            pairs: [PlainPair { addr: 0, value: 0 }; ROOM],
        }
    }

    /// The place of pair `i`.
    fn place(&self, i: usize) -> usize
        requires { i < ROOM }
        ensures { result ≡ (self.now.first + i) % ROOM }
    {
        ((self.first % ROOM as u64) as usize + i) % ROOM
    }
}

impl PendingStores for PlainQueue {
    ghost use Rattle.ft_flight.specs.Rings.{pending_of};

    ghost pending = { pending_of };

    fn len(&self) -> usize {
        if self.count < ROOM as u64 {
            self.count as usize
        } else {
            ROOM
        }
    }

    fn get(&self, i: usize) -> Option<(u64, u64)> {
        if i >= self.len() {
            return None;
        }
        let pair = self.pairs[self.place(i)];
        Some((pair.addr, pair.value))
    }

    fn push(&mut self, addr: u64, value: u64) -> Result<(), Full> {
        let count = self.len();
        if count >= ROOM {
            return Err(Full);
        }
        let place = self.place(count);
        self.pairs[place] = PlainPair { addr, value };
        self.count = count as u64 + 1;
        Ok(())
    }

    fn pop_oldest(&mut self) -> Option<(u64, u64)> {
        let count = self.len();
        if count == 0 {
            return None;
        }
        let pair = self.pairs[self.place(0)];
        self.first = self.first % ROOM as u64 + 1;
        self.count = count as u64 - 1;
        Some((pair.addr, pair.value))
    }

    fn strike_addr(&mut self, i: u8, addr: u64) -> bool {
        let i = i as usize;
        if i >= self.len() {
            return false;
        }
        let place = self.place(i);
        let value = self.pairs[place].value;
        self.pairs[place] = PlainPair { addr, value };
        true
    }

    fn strike_value(&mut self, i: u8, value: u64) -> bool {
        let i = i as usize;
        if i >= self.len() {
            return false;
        }
        let place = self.place(i);
        let addr = self.pairs[place].addr;
        self.pairs[place] = PlainPair { addr, value };
        true
    }
}
