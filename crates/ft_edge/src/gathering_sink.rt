//! A sink that buffers pieces and passes them to a writer in larger ones.
ghost use Rattle.std.specs.Prelude.{◌≡◌, ◌≢◌, ◌≤◌, ◌+◌, ◌++◌, [], length, take, drop, None, Some, IsTrue, IfOk, IfErr, OnOk, OnErr};
ghost use Rattle.std.specs.Io.KnownBytes.{Appends};
ghost use Rattle.ft_edge.specs.Calls.{next_count};
ghost use Rattle.ft_edge.specs.Prefixes.{AddsFront};
ghost use Rattle.ft_edge.specs.Recording.{accepted, recorded_writer, Follows};

use crate::writing::{put_to, write_front};
use crate::{Failed, Recorded, Sink};
use ft_isa::NoMemory;
use std::alloc::Global;
use std::io::Write;

/// The size of the buffer in bytes.
const ROOM: usize = 65_536;

/// A sink that passes its pieces to a writer through a buffer of 64 KiB. The written bytes are those that the writer
/// accepted, followed by the buffer. `finish` writes the rest. The sink reveals its bytes, and its failure count
/// saturates at 2^64 - 1.
#[derive(Drop)]
pub struct GatheringSink<W: Write + Drop> {
    out: Recorded<W>,
    gathered: Vec<u8>,
    failures: u64,
}

impl<W: Write + Drop> GatheringSink<W> {
    ghost use Rattle.ft_edge.specs.Gathered.{written_to, sink_writer, IsFront};

    /// A sink over this writer. The room is reserved here, so that no put allocates.
    pub fn new(alloc: Global, writer: W) -> Result<GatheringSink<W>, NoMemory>
        ensures empty { IfOk result (λ sink. written_to sink ≡ []) }
        ensures told { IfOk result (λ sink. recorded_writer (sink_writer sink) ≡ writer) }
        ensures count { IfOk result (λ sink. sink.failures ≡ 0) }
    {
        match Vec::with_capacity(alloc, ROOM) {
            Ok(gathered) => Ok(GatheringSink {
                out: Recorded::new(writer),
                gathered,
                failures: 0,
            }),
            Err(_) => Err(NoMemory),
        }
    }

    /// Flushes the buffer, and returns whether the writer accepted all of it. The rest stays in the buffer.
    fn hand_on(&mut self) -> bool
        ensures kept { written_to self.new ≡ written_to self.old }
        ensures told { Follows W.contents (sink_writer self.old) (sink_writer self.new) }
        ensures all { IsTrue result → self.new.gathered.items ≡ [] }
        ensures some { self.new.gathered.items ≡ [] → IsTrue result }
        ensures count { self.new.failures ≡ self.old.failures }
    {
        let done = write_front(&mut self.out, self.gathered.as_slice());
        remove_front(&mut self.gathered, done);
        self.gathered.is_empty()
    }

    /// Flushes the buffer, and returns the writer, which accepted a prefix of the written bytes if the flush failed. It
    /// does not fail if the buffer is empty.
    pub fn finish(self) -> (Result<(), Failed>, Recorded<W>)
        ensures ok { OnOk result.0 (accepted result.1 ≡ written_to self) }
        ensures err { OnErr result.0 (self.gathered.items ≢ []) }
        ensures front { IsFront (accepted result.1) (written_to self) }
        ensures told { Follows W.contents (sink_writer self) result.1 }

        // If the writer reveals its contents, they grew by what was gathered.
        ensures rest { OnOk result.0 (Appends (W.contents (recorded_writer (sink_writer self))) (W.contents (recorded_writer result.1))
            self.gathered.items) }
    {
        let mut sink = self;
        if sink.gathered.is_empty() {
            return (Ok(()), sink.discard());
        }
        if !sink.hand_on() {
            return (Err(Failed), sink.discard());
        }
        (Ok(()), sink.discard())
    }

    /// Returns the writer and discards the buffer: nothing more is written.
    pub fn discard(self) -> Recorded<W>
        ensures writer { sink_writer self ≡ result }
        ensures front { IsFront (accepted result) (written_to self) }
    {
        let GatheringSink {
            out,
            gathered: _,
            failures: _,
        } = self;
        out
    }

    /// Counts a put that failed.
    fn fail(&mut self) -> Result<(), Failed>
        ensures failed { OnOk result ⊥ }
        ensures rise { self.old.failures ≤ self.new.failures }
        ensures count { self.new ≡ record self.old { failures = next_count self.old.failures } }
    {
        self.failures = self.failures.saturating_add(1);
        Err(Failed)
    }

    /// Puts a piece for which the buffer has no room left.
    #[cold]
    #[inline(never)]
    fn put_apart(&mut self, bytes: &[u8]) -> Result<(), Failed>
        ensures gathers { OnOk result (written_to self.new ≡ written_to self.old ++ bytes.now) }
        ensures front { OnErr result (AddsFront (written_to self.old) (written_to self.new) bytes.now) }
        ensures told { Follows W.contents (sink_writer self.old) (sink_writer self.new) }
        ensures count { self.old.failures ≤ self.new.failures }
        ensures same_count { OnOk result (self.new.failures ≡ self.old.failures) }
        ensures counted { OnErr result (self.new.failures ≡ next_count self.old.failures) }
        ensures room { OnOk result (length self.new.gathered.items ≤ ROOM) }
    {
        if !self.hand_on() {
            return self.fail();
        }
        if bytes.len() > ROOM {
            return put_to(&mut self.out, bytes, &mut self.failures);
        }
        self.gather(bytes)
    }

    /// Buffers a piece.
    #[inline(always)]
    fn gather(&mut self, bytes: &[u8]) -> Result<(), Failed>
        ensures gathers { OnOk result (written_to self.new ≡ written_to self.old ++ bytes.now) }
        ensures front { OnErr result (AddsFront (written_to self.old) (written_to self.new) bytes.now) }
        ensures told { Follows W.contents (sink_writer self.old) (sink_writer self.new) }
        ensures count { self.old.failures ≤ self.new.failures }
        ensures same_count { OnOk result (self.new.failures ≡ self.old.failures) }
        ensures counted { OnErr result (self.new.failures ≡ next_count self.old.failures) }
        ensures grows { OnOk result (length self.new.gathered.items ≡ length self.old.gathered.items + length bytes.now) }
    {
        match self.gathered.extend_from_slice(bytes) {
            Ok(()) => Ok(()),
            Err(_) => self.fail(),
        }
    }
}

/// Removes the first `count` bytes.
fn remove_front(bytes: &mut Vec<u8>, count: usize)
    requires { count ≤ length bytes.old.items }
    ensures { bytes.new.items ≡ drop count bytes.old.items }
{
    let len = bytes.len();
    bytes.as_mut_slice().copy_within(count..len, 0);
    bytes.truncate(len - count);
}

impl<W: Write + Drop> Sink for GatheringSink<W> {
    ghost use Rattle.ft_edge.specs.Gathered.{written_to, sink_writer};

    ghost log = { λ sink. record { written = Some (written_to sink); pieces = None; failures = sink.failures } };

    #[inline(always)]
    fn put(&mut self, bytes: &[u8]) -> Result<(), Failed>
        ensures gathers { OnOk result (written_to self.new ≡ written_to self.old ++ bytes.now) }
        ensures front { OnErr result (AddsFront (written_to self.old) (written_to self.new) bytes.now) }
        ensures told { Follows W.contents (sink_writer self.old) (sink_writer self.new) }
        ensures count { self.old.failures ≤ self.new.failures }
        ensures same_count { OnOk result (self.new.failures ≡ self.old.failures) }
        ensures counted { OnErr result (self.new.failures ≡ next_count self.old.failures) }
        ensures room { OnOk result (length self.old.gathered.items ≤ ROOM → length self.new.gathered.items ≤ ROOM) }
    {
        if bytes.len() > ROOM.saturating_sub(self.gathered.len()) {
            return self.put_apart(bytes);
        }
        self.gather(bytes)
    }
}
