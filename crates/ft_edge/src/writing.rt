//! Writes whole pieces, each with as many single writes as it takes.
ghost use Rattle.std.specs.Prelude.{◌≡◌, ◌≤◌, ◌++◌, length, take, OnOk, OnErr};
ghost use Rattle.std.specs.Io.KnownBytes.{Appends};
ghost use Rattle.ft_edge.specs.Calls.{next_count};
ghost use Rattle.ft_edge.specs.Prefixes.{AddsFront};
ghost use Rattle.ft_edge.specs.Recording.{accepted, recorded_writer, Follows};

use crate::system::write_once;
use crate::{Failed, Recorded};
use std::io::Write;

/// Writes a piece from its start, and returns how many of its bytes were written: fewer than all only if a write failed
/// or accepted nothing.
pub(crate) fn write_front<W: Write + Drop>(out: &mut Recorded<W>, bytes: &[u8]) -> usize
    ensures within { result ≤ length bytes.now }
    ensures written { accepted out.new ≡ accepted out.old ++ take result bytes.now }
    ensures told { Appends (W.contents (recorded_writer out.old)) (W.contents (recorded_writer out.new)) (take result bytes.now) }
{
    let mut done = 0;
    while done < bytes.len() {
        match write_once(out, &bytes[done..]) {
            Ok(0) => return done,
            Ok(count) => done += count,
            Err(_) => return done,
        }
    }
    done
}

/// Writes the whole piece.
fn write_whole<W: Write + Drop>(out: &mut Recorded<W>, bytes: &[u8]) -> Result<(), Failed>
    ensures ok { OnOk result (accepted out.new ≡ accepted out.old ++ bytes.now) }
    ensures err { OnErr result (AddsFront (accepted out.old) (accepted out.new) bytes.now) }
    ensures told { Follows W.contents out.old out.new }
{
    let done = write_front(out, bytes);
    if done < bytes.len() {
        return Err(Failed);
    }
    Ok(())
}

/// Writes the whole piece, or counts a failure.
pub(crate) fn put_to<W: Write + Drop>(
    out: &mut Recorded<W>,
    bytes: &[u8],
    failures: &mut u64,
) -> Result<(), Failed>
    ensures ok { OnOk result (accepted out.new ≡ accepted out.old ++ bytes.now) }
    ensures err { OnErr result (AddsFront (accepted out.old) (accepted out.new) bytes.now) }
    ensures told { Follows W.contents out.old out.new }
    ensures count { failures.old ≤ failures.new }
    ensures same_count { OnOk result (failures.new ≡ failures.old) }
    ensures counted { OnErr result (failures.new ≡ next_count failures.old) }
{
    match write_whole(out, bytes) {
        Ok(()) => Ok(()),
        Err(_) => {
            *failures = failures.saturating_add(1);
            Err(Failed)
        }
    }
}
