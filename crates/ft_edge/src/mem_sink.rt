//! Bytes written to memory, with puts that must fail.
ghost use Rattle.std.specs.Prelude.{◌≡◌, ◌≤◌, None, Some, is_err, IfOk, OnOk, OnErr};

use crate::counter::Counter;
use crate::{Failed, Sink};
use ft_isa::NoMemory;
use std::alloc::Global;
use std::marker::Model;

/// Bytes written to memory, with puts that must fail. It reveals its bytes but does not record its pieces: to record
/// every piece, even that of a failed put, a put would have to allocate.
#[derive(Drop)]
pub struct MemSink {
    written: Vec<u8>,
    room: usize,
    calls: Counter,
}

impl Model for MemSink {
    ghost use Rattle.std.specs.Prelude.{◌≤◌, vec_len, vec_capacity};
    ghost use Rattle.ft_edge.specs.MemorySink.{MemorySink};

    ghost Value = { MemorySink };

    ghost view = { λ s. record { written = s.written.items; room = s.room; calls = s.calls } };

    ghost invariant = { λ s. (s.room ≤ vec_capacity s.written) × (vec_len s.written ≤ s.room) };
}

impl MemSink {
    ghost use Rattle.ft_edge.specs.MemorySink.{empty_sink, with_failing_put};

    /// A sink with room for this many bytes. The room is reserved here, so that no put allocates.
    pub fn new(alloc: Global, room: usize) -> Result<MemSink, NoMemory>
        ensures { IfOk result (λ sink. sink ≡ empty_sink room) }
    {
        Ok(MemSink {
            written: Vec::with_capacity(alloc, room)?,
            room,
            calls: Counter::new(alloc),
        })
    }

    /// Adds a put that must fail. Puts are numbered from 0; all puts from number 2^64 - 1 on share that number.
    pub fn fail_at(&mut self, call: u64) -> Result<(), NoMemory>
        ensures ok { OnOk result (self.new ≡ with_failing_put self.old call) }
        ensures err { OnErr result (self.new ≡ self.old) }
    {
        self.calls.fail_at(call)?;
        Ok(())
    }

    /// The bytes written.
    pub fn written(&self) -> &[u8]
        ensures { result.now ≡ self.now.written }
    {
        self.written.as_slice()
    }
}

impl Sink for MemSink {
    ghost use Rattle.ft_edge.specs.MemorySink.{put_fails, after_put};

    ghost log = { λ sink. record { written = Some sink.written; pieces = None; failures = sink.calls.failures } };

    /// Adds the piece, if there is room for all of it.
    fn put(&mut self, bytes: &[u8]) -> Result<(), Failed>
        ensures count { self.old.calls.failures ≤ self.new.calls.failures }
        ensures answer { is_err result ≡ put_fails self.old bytes.now }
        ensures after { self.new ≡ after_put self.old bytes.now result }
    {
        let is_to_fail = self.calls.begin();
        if is_to_fail || self.room - self.written.len() < bytes.len() {
            self.calls.count_failure();
            return Err(Failed);
        }
        match self.written.extend_from_slice(bytes) {
            Ok(()) => Ok(()),
            Err(_) => unreachable!(),
        }
    }
}
