//! Standard input.
ghost use Rattle.std.specs.Prelude.{◌≡◌, ◌≤◌, ◌<◌, [], ◌∷◌, length, take, None, Some, IfOk, OnOk, OnErr};
ghost use Rattle.std.specs.Io.{ReadsAtMost};
ghost use Rattle.std.specs.Io.KnownBytes.{ReadConsumes};
ghost use Rattle.ft_edge.specs.Calls.{next_count};

use crate::system::read_once;
use crate::{Failed, Source};
use ft_history::{Heard, Reads};
use std::io::Read;
use std::marker::Model;

/// The maximum size of one read in bytes.
const PIECE: usize = 4096;

/// Standard input. It does not reveal its bytes, and its count of failures saturates at 2^64 - 1.
#[derive(Drop)]
pub struct StdinSource<R: Input> {
    rt: R,
    failures: u64,
    reads: Reads,
}

impl<R: Input> Model for StdinSource<R> {
    ghost use Rattle.ft_edge.specs.StdinTakes.{StdinTakes};

    ghost Value = { StdinTakes };

    ghost view = { λ s. record { failures = s.failures; reads = s.reads.all } };
}

/// Reads once, and counts a failed read. The bytes pass through a separate buffer, since a failed read may leave
/// anything in the buffer that it reads into.
fn take_from<F: Read>(
    file: &mut F,
    buf: &mut [u8],
    reads: &mut Reads,
    failures: &mut u64,
) -> Result<usize, Failed>
    requires { 0 < length buf.old }
    ensures bound { ReadsAtMost result buf.new }
    ensures bytes { ReadConsumes (F.remaining file.old) (F.remaining file.new) result buf.new }
    ensures kept { OnErr result (buf.new ≡ buf.old) }
    ensures count { failures.old ≤ failures.new }
    ensures same_count { OnOk result (failures.new ≡ failures.old) }
    ensures counted { OnErr result (failures.new ≡ next_count failures.old) }
    ensures heard { IfOk result (λ count. reads.new.all ≡ take count buf.new ∷ reads.old.all) }
    ensures silent { OnErr result (reads.new.all ≡ reads.old.all) }
{
    let mut piece = [0u8; PIECE];
    let room = buf.len().min(PIECE);
    match read_once(file, &mut Heard::new(), &mut piece[..room]) {
        Ok(count) => {
            reads.note(&piece[..count]);
            buf[..count].copy_from_slice(&piece[..count]);
            Ok(count)
        }
        Err(_) => {
            *failures = failures.saturating_add(1);
            Err(Failed)
        }
    }
}

impl<R: Input> StdinSource<R> {
    ghost use Rattle.ft_edge.specs.StdinTakes.{no_takes};

    /// The standard input of the runtime.
    pub fn new(rt: R) -> StdinSource<R>
        ensures { result ≡ no_takes }
    {
        StdinSource {
            rt,
            failures: 0,
            reads: Reads::new(),
        }
    }
}

impl<R: Input> Source for StdinSource<R> {
    ghost use Rattle.ft_edge.specs.StdinTakes.{stdin_log};
    ghost use Rattle.ft_edge.specs.Takes.{MayBeLeft};

    ghost log = { stdin_log };

    ghost heard = { λ takes. Some takes.reads };

    ghost may_be_left = { λ takes rest. MayBeLeft takes.reads rest };

    fn take(&mut self, buf: &mut [u8]) -> Result<usize, Failed> {
        take_from(
            &mut self.rt.reader(),
            buf,
            &mut self.reads,
            &mut self.failures,
        )
    }
}
