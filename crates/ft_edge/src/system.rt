//! Single reads and writes, repeated if a signal interrupts them.
ghost use Rattle.std.specs.Prelude.{◌≡◌, ◌<◌, length, take, drop, Some, IfOk, OnErr};
ghost use Rattle.std.specs.Io.{ReadsAtMost, WritesAtMost};
ghost use Rattle.std.specs.Io.KnownBytes.{ReadConsumes, WriteAppends};
ghost use Rattle.ft_history.specs.Files.{gave};
ghost use Rattle.ft_edge.specs.Recording.{accepted, recorded_writer};

use crate::{Failed, Recorded};
use ft_history::Heard;
use std::io::{ErrorKind, Read, Write};

/// Reads once, at most as many bytes as fit into the buffer, and notes what the read returned.
pub(crate) fn read_once<F: Read>(
    file: &mut F,
    heard: &mut Heard,
    buf: &mut [u8],
) -> Result<usize, Failed>
    ensures bound { ReadsAtMost result buf.new }
    ensures bytes { ReadConsumes (F.remaining file.old) (F.remaining file.new) result buf.new }
    ensures heard { IfOk result (λ count. heard.new.files ≡ gave heard.old.files (take count buf.new)) }
    ensures silent { OnErr result (heard.new.files ≡ heard.old.files) }
{
    for _ in 0..u64::MAX {
        match file.read(buf) {
            Ok(count) => {
                heard.gave(&buf[..count]);
                return Ok(count);
            }
            Err(error) if error.kind() == ErrorKind::Interrupted => {}
            Err(_) => return Err(Failed),
        }
    }
    Err(Failed)
}

/// Reads once, into the part of a buffer past its first bytes.
pub(crate) fn read_past<F: Read>(
    file: &mut F,
    heard: &mut Heard,
    buf: &mut [u8],
    past: usize,
) -> Result<usize, Failed>
    requires { past < length buf.old }
    ensures front { take past buf.new ≡ take past buf.old }
    ensures len { length buf.new ≡ length buf.old }
    ensures bound { ReadsAtMost result (drop past buf.new) }
    ensures bytes { ReadConsumes (F.remaining file.old) (F.remaining file.new) result (drop past buf.new) }
    ensures heard { IfOk result (λ count. heard.new.files ≡ gave heard.old.files (take count (drop past buf.new))) }
    ensures silent { OnErr result (heard.new.files ≡ heard.old.files) }
{
    read_once(file, heard, &mut buf[past..])
}

/// Writes a prefix of the bytes with a single write.
pub(crate) fn write_once<W: Write + Drop>(
    out: &mut Recorded<W>,
    bytes: &[u8],
) -> Result<usize, Failed>
    ensures bound { WritesAtMost result bytes.now }
    ensures bytes { WriteAppends (Some (accepted out.old)) (Some (accepted out.new)) result bytes.now }
    ensures told { WriteAppends (W.contents (recorded_writer out.old)) (W.contents (recorded_writer out.new)) result bytes.now }
{
    for _ in 0..u64::MAX {
        match out.write(bytes) {
            Ok(count) => return Ok(count),
            Err(error) if error.kind() == ErrorKind::Interrupted => {}
            Err(_) => return Err(Failed),
        }
    }
    Err(Failed)
}
