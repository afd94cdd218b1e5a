//! Loads files that are opened by name, and notes what their reads returned.
ghost use Rattle.std.specs.Prelude.{◌≡◌, ◌≤◌, ◌<◌, ◌+◌, [], true, length, take, drop, Ok, IfOk, IfSome, OnOk, OnErr};
ghost use Rattle.ft_history.specs.Files.{gave};
ghost use Rattle.ft_edge.specs.Heard.{Hears, HeardMore, HeardLonger, LoadsHeard};
ghost use Rattle.std.specs.Io.KnownBytes.{Consumes, Keeps, IsAtEnd};
ghost use Rattle.ft_edge.specs.Loads.{LoadsStream};
ghost use Rattle.ft_edge.specs.Streams.{ConsumesAtMost};

use crate::opens::Opens;
use crate::system::read_past;
use crate::{Load, LoadFault};
use ft_history::Heard;
use std::io::Read;

/// The maximum size of one read in bytes.
const PIECE: usize = 131_072;

/// Files that are opened by name, with a history, for proofs alone, of the names and of what the reads returned.
#[derive(Drop)]
pub(crate) struct OpenedFiles<S: Opens> {
    system: S,
    heard: Heard,
}

/// Allocates memory for `size` bytes, or for `limit` if that is less, plus one byte, so that a read can find the end.
fn reserve_whole(into: &mut Vec<u8>, limit: usize, size: usize) -> Result<(), LoadFault>
    ensures { into.new.items ≡ into.old.items }
{
    match size.min(limit).checked_add(1) {
        Some(room) => into.reserve_exact(room).map_err(|_| LoadFault::NoMemory),
        None => Err(LoadFault::NoMemory),
    }
}

/// If the vector has no room past its filled part, adds some: at most one piece, never beyond `limit` + 1 bytes, and
/// not beyond `size` + 1 while fewer than `size` are filled.
fn make_room(into: &mut Vec<u8>, filled: usize, limit: usize, size: usize) -> Result<(), LoadFault>
    requires few { filled ≤ limit }
    requires part { filled ≤ length into.old.items }
    requires short { length into.old.items ≤ limit + 1 }
    ensures front { take filled into.new.items ≡ take filled into.old.items }
    ensures room { OnOk result (filled < length into.new.items) }
    ensures part { filled ≤ length into.new.items }
    ensures within { length into.new.items ≤ limit + 1 }
{
    if filled < into.len() {
        return Ok(());
    }
    let left = if filled < size { size - filled } else { PIECE };
    let last = (limit - filled).min(left).min(PIECE - 1) + filled;
    match last.checked_add(1) {
        Some(end) => into.resize(end, 0).map_err(|_| LoadFault::NoMemory),
        None => Err(LoadFault::NoMemory),
    }
}

/// Reads once, into the vector's room past its filled part.
fn read_more<F: Read>(
    file: &mut F,
    heard: &mut Heard,
    filled: usize,
    limit: usize,
    size: usize,
    into: &mut Vec<u8>,
) -> Result<usize, LoadFault>
    requires few { filled ≤ limit }
    requires part { filled ≤ length into.old.items }
    requires short { length into.old.items ≤ limit + 1 }
    ensures front { take filled into.new.items ≡ take filled into.old.items }
    ensures fits { IfOk result (λ count. filled + count ≤ length into.new.items) }
    ensures within { length into.new.items ≤ limit + 1 }
    ensures bytes { IfOk result (λ count. Consumes (F.remaining file.old) (F.remaining file.new) (take count (drop filled into.new.items))) }
    ensures end { IfOk result (λ count. count ≡ 0 → IsAtEnd (F.remaining file.new)) }
    ensures err { OnErr result (Keeps (F.remaining file.old) (F.remaining file.new)) }
    ensures heard { IfOk result (λ count. heard.new.files ≡ gave heard.old.files (take count (drop filled into.new.items))) }
    ensures silent { OnErr result (heard.new.files ≡ heard.old.files) }
{
    make_room(into, filled, limit, size)?;
    match read_past(file, heard, into.as_mut_slice(), filled) {
        Ok(count) => Ok(count),
        Err(_) => Err(LoadFault::Failed),
    }
}

/// Reads a file to its end, or to one byte past the limit, into the vector. `size` is what the system reports: memory
/// for that many bytes, or up to the limit, is allocated at once, and the vector grows piece by piece. If the file is
/// too long or a read fails, the vector holds what was read, followed by unused room.
fn fill<F: Read>(
    file: &mut F,
    heard: &mut Heard,
    limit: usize,
    size: usize,
    into: &mut Vec<u8>,
) -> Result<Load, LoadFault>
    requires { into.old.items ≡ [] }
    ensures within { result ≡ Ok Load.Whole → length into.new.items ≤ limit }
    ensures whole { result ≡ Ok Load.Whole →
        IfSome (F.remaining file.old) (λ bytes. into.new.items ≡ bytes) }
    ensures longer { result ≡ Ok Load.TooLong →
        IfSome (F.remaining file.old) (λ bytes. limit < length bytes) }
    ensures read { ConsumesAtMost (F.remaining file.old) (F.remaining file.new) (limit + 1) }
    ensures heard_whole { result ≡ Ok Load.Whole →
        Hears into.new.items true heard.old.files heard.new.files (F.remaining file.old) (F.remaining file.new) }
    ensures heard_longer { result ≡ Ok Load.TooLong →
        HeardLonger heard.old.files heard.new.files limit (F.remaining file.old) (F.remaining file.new) }
    ensures heard_part { OnErr result (HeardMore heard.old.files heard.new.files (F.remaining file.old) (F.remaining file.new)) }
{
    reserve_whole(into, limit, size)?;
    let mut filled = 0;
    while filled <= limit {
        let count = read_more(file, heard, filled, limit, size, into)?;
        if count == 0 {
            into.truncate(filled);
            return Ok(Load::Whole);
        }
        filled += count;
    }
    Ok(Load::TooLong)
}

/// Loads an open file.
fn load_from<F: Read>(
    file: &mut F,
    heard: &mut Heard,
    limit: usize,
    size: usize,
    into: &mut Vec<u8>,
) -> Result<Load, LoadFault>
    requires { into.old.items ≡ [] }
    ensures loads { LoadsStream (F.remaining file.old) limit into.new.items result }
    ensures read { ConsumesAtMost (F.remaining file.old) (F.remaining file.new) (limit + 1) }
    ensures heard_whole { result ≡ Ok Load.Whole →
        Hears into.new.items true heard.old.files heard.new.files (F.remaining file.old) (F.remaining file.new) }
    ensures heard_longer { result ≡ Ok Load.TooLong →
        HeardLonger heard.old.files heard.new.files limit (F.remaining file.old) (F.remaining file.new) }
    ensures heard_part { OnErr result (HeardMore heard.old.files heard.new.files (F.remaining file.old) (F.remaining file.new)) }
{
    match fill(file, heard, limit, size, into) {
        Ok(Load::Whole) => Ok(Load::Whole),
        answer => {
            into.clear();
            answer
        }
    }
}

impl<S: Opens> OpenedFiles<S> {
    /// No file was opened so far.
    pub(crate) fn new(system: S) -> OpenedFiles<S>
        ensures { result.heard.files ≡ [] }
    {
        OpenedFiles {
            system,
            heard: Heard::new(),
        }
    }

    /// Opens the file with this name, and loads it.
    pub(crate) fn load(
        &mut self,
        name: &str,
        limit: usize,
        into: &mut Vec<u8>,
    ) -> Result<Load, LoadFault>
        requires { into.old.items ≡ [] }
        ensures system { self.new.system ≡ self.old.system }
        ensures loads { LoadsStream (S.content self.old.system name.now) limit into.new.items result }
        ensures heard { LoadsHeard (S.content self.old.system name.now) self.old.heard.files self.new.heard.files name.now limit
            into.new.items result }
    {
        match self.system.open_to_read(name) {
            Ok(mut file) => {
                self.heard.opened(name.as_bytes());
                let size = self.system.reported_size(&file);
                load_from(&mut file, &mut self.heard, limit, size, into)
            }
            Err(_) => Err(LoadFault::Failed),
        }
    }
}
