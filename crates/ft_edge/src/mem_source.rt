//! Bytes in memory to read, with takes that must fail.
ghost use Rattle.std.specs.Prelude.{◌≡◌, ◌<◌, ◌≤◌, length, min, take, None, Some, is_err, IfOk, OnOk, OnErr};

use crate::counter::Counter;
use crate::{Failed, Source};
use ft_isa::NoMemory;
use std::alloc::Global;
use std::marker::Model;

/// Bytes in memory to read, with takes that must fail. It reveals its bytes but does not record the sizes of its takes:
/// to record them, a take would have to allocate.
#[derive(Drop)]
pub struct MemSource {
    bytes: Vec<u8>,
    taken: usize,
    calls: Counter,
}

impl Model for MemSource {
    ghost use Rattle.std.specs.Prelude.{◌≤◌, drop, vec_len};
    ghost use Rattle.ft_edge.specs.MemorySource.{MemorySource};

    ghost Value = { MemorySource };

    ghost view = { λ s. record { left = drop s.taken s.bytes.items; calls = s.calls } };

    ghost invariant = { λ s. s.taken ≤ vec_len s.bytes };
}

impl MemSource {
    ghost use Rattle.ft_edge.specs.MemorySource.{source_of_bytes, with_failing_take};

    /// A source of these bytes.
    pub fn new(alloc: Global, bytes: &[u8]) -> Result<MemSource, NoMemory>
        ensures { IfOk result (λ source. source ≡ source_of_bytes bytes.now) }
    {
        Ok(MemSource {
            bytes: Vec::from_slice(alloc, bytes)?,
            taken: 0,
            calls: Counter::new(alloc),
        })
    }

    /// Adds a take that must fail. Takes are numbered from 0; all takes from number 2^64 - 1 on share that number.
    pub fn fail_at(&mut self, call: u64) -> Result<(), NoMemory>
        ensures ok { OnOk result (self.new ≡ with_failing_take self.old call) }
        ensures err { OnErr result (self.new ≡ self.old) }
    {
        self.calls.fail_at(call)?;
        Ok(())
    }
}

impl Source for MemSource {
    ghost use Rattle.ft_edge.specs.Calls.{is_to_fail};
    ghost use Rattle.ft_edge.specs.MemorySource.{after_take};

    ghost log = { λ source. record { left = Some source.left; takes = None; failures = source.calls.failures } };

    ghost heard = { λ _. None };

    ghost may_be_left = { λ source rest. rest ≡ source.left };

    /// Takes all the bytes that are left, or as many as fit into the buffer.
    fn take(&mut self, buf: &mut [u8]) -> Result<usize, Failed>
        requires { 0 < length buf.old }
        ensures count { self.old.calls.failures ≤ self.new.calls.failures }
        ensures answer { is_err result ≡ is_to_fail self.old.calls }
        ensures many { IfOk result (λ count. count ≡ min (length self.old.left) (length buf.new)) }
        ensures bytes { IfOk result (λ count. take count buf.new ≡ take count self.old.left) }
        ensures after { self.new ≡ after_take self.old result }
        ensures kept { OnErr result (buf.new ≡ buf.old) }
    {
        if self.calls.begin() {
            self.calls.count_failure();
            return Err(Failed);
        }
        let left = &self.bytes[self.taken..];
        let count = left.len().min(buf.len());
        buf[..count].copy_from_slice(&left[..count]);
        self.taken += count;
        Ok(count)
    }
}
