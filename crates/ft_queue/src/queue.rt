//! The store queue.
ghost use Rattle.std.specs.Prelude.{◌≡◌, ◌<◌, ◌≤◌, ◌↔◌, [], ◌∷◌, ◌++◌, length, slice_get, Decides, IfOk, OnOk, OnErr, IsErr, IfSome, IfNone, IsTrue, option_to_list};
ghost use Rattle.ft_isa.specs.Pending.{newest_at, with_address, with_value};

use crate::pending_stores::PendingStores;
use circular_buffer::HeapCircularBuffer;
use ft_isa::NoMemory;
use std::alloc::Global;
use std::marker::Model;
use thiserror::Error;

/// The maximum number of pairs in a queue.
pub const ROOM: usize = 8;

/// The queue is full.
#[derive(Clone, Copy, Debug, PartialEq, Eq, Error)]
#[error("the store queue is full")]
pub struct Full;

/// The stores that wait for their blue counterparts: at most eight pairs of address and value, oldest first.
#[derive(Drop)]
pub struct StoreQueue {
    pairs: HeapCircularBuffer<(u64, u64)>,
}

impl Model for StoreQueue {
    ghost use Rattle.ft_isa.specs.Pending.{Pending};
    ghost use Rattle.ft_queue.specs.Inside.{IsReserved};

    ghost Value = { Pending };

    ghost view = { λ q. q.pairs.items };

    ghost invariant = { IsReserved };
}

impl StoreQueue {
    /// An empty queue, with room for eight pairs.
    pub fn new(alloc: Global) -> Result<StoreQueue, NoMemory>
        ensures { IfOk result (λ q. q ≡ []) }
    {
        Ok(StoreQueue {
            pairs: HeapCircularBuffer::with_capacity(alloc, ROOM)?,
        })
    }

    /// Copies another queue's pairs, without allocating.
    pub fn copy_from(&mut self, other: &StoreQueue)
        ensures { self.new ≡ other.now }
    {
        // Reading the length tells the prover that the other queue's pairs fit.
        let _len = other.pairs.len();
        let (front, back) = other.pairs.as_slices();
        self.pairs.clear();
        self.pairs.fill_from_slice(front);
        self.pairs.fill_from_slice(back);
    }

    /// Whether another queue holds the same pairs.
    pub fn same_as(&self, other: &StoreQueue) -> bool
        ensures { Decides result (self.now ≡ other.now) }
    {
        let n = self.len();
        if n != other.len() {
            return false;
        }
        for i in 0..n {
            if self.get(i) != other.get(i) {
                return false;
            }
        }
        true
    }

    /// How many pairs wait, at most eight.
    #[inline]
    pub fn len(&self) -> usize
        ensures pairs { result ≡ length self.now }
        ensures bound { result ≤ ROOM }
    {
        self.pairs.len()
    }

    /// Whether no pair waits.
    #[inline]
    pub fn is_empty(&self) -> bool
        ensures { IsTrue result ↔ (self.now ≡ []) }
    {
        self.pairs.is_empty()
    }

    /// Pair `i`; pair 0 is the oldest. `None` exactly when there is none.
    #[inline]
    pub fn get(&self, i: usize) -> Option<(u64, u64)>
        ensures { result ≡ slice_get self.now i }
    {
        self.pairs.get(i).copied()
    }

    /// Adds a pair as the newest. Returns `Full`, with the queue unchanged, exactly when it already has eight pairs.
    #[inline]
    pub fn push(&mut self, addr: u64, value: u64) -> Result<(), Full>
        ensures full { IsErr result ↔ (length self.old ≡ ROOM) }
        ensures bound { length self.old ≤ ROOM }
        ensures ok { OnOk result (self.new ≡ self.old ++ (addr, value) ∷ []) }
        ensures err { OnErr result (self.new ≡ self.old) }
    {
        if self.pairs.len() >= ROOM {
            return Err(Full);
        }
        match self.pairs.try_push_back((addr, value)) {
            Ok(()) => Ok(()),
            Err(_) => unreachable!(),
        }
    }

    /// Removes the oldest pair; `None` exactly when the queue is empty.
    #[inline]
    pub fn pop_oldest(&mut self) -> Option<(u64, u64)>
        ensures oldest { self.old ≡ option_to_list result ++ self.new }
        ensures none { IfNone result (self.old ≡ []) }
    {
        self.pairs.pop_front()
    }

    /// The value of the newest pair with this address; `None` exactly when there is none.
    #[inline]
    pub fn newest_at(&self, addr: u64) -> Option<u64>
        ensures { result ≡ newest_at self.now addr }
    {
        PendingStores::newest_at(self, addr)
    }

    /// Replaces the address of pair `i`. Returns `false`, with the queue unchanged, exactly when there is no such pair.
    pub fn strike_addr(&mut self, i: u8, addr: u64) -> bool
        ensures there { IsTrue result ↔ (i < length self.old) }
        ensures struck { self.new ≡ with_address self.old i addr }
    {
        match self.pairs.get_mut(i as usize) {
            Some(pair) => {
                pair.0 = addr;
                true
            }
            None => false,
        }
    }

    /// Replaces the value of pair `i`. Returns `false`, with the queue unchanged, exactly when there is no such pair.
    pub fn strike_value(&mut self, i: u8, value: u64) -> bool
        ensures there { IsTrue result ↔ (i < length self.old) }
        ensures struck { self.new ≡ with_value self.old i value }
    {
        match self.pairs.get_mut(i as usize) {
            Some(pair) => {
                pair.1 = value;
                true
            }
            None => false,
        }
    }
}
