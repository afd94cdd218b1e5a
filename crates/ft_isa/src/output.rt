//! Outputs and their lines.
ghost use Rattle.std.specs.Prelude.{◌≡◌, ◌≤◌, ◌+◌, ◌++◌, length, drop};
ghost use Rattle.ft_isa.specs.Words.{line};

use itoa::write_digits;

/// A pair of address and value that a blue store committed.
#[derive(Clone, Copy, Debug, PartialEq, Eq)]
pub struct Output {
    pub addr: u64,
    pub value: u64,
}

/// The address of the first cell; the others follow consecutively.
pub const FIRST_CELL: u64 = 1_048_576;

/// The maximum number of bytes in a line besides the name: a space, 20 digits and a line feed.
pub const VALUE_ROOM: usize = 22;

/// The maximum number of bytes in an output's line if the name has at most 40 bytes.
pub const LINE_ROOM: usize = 62;

/// Writes a piece into a buffer so that it ends at `end`, and returns where it begins.
#[inline(always)]
fn put_before(buf: &mut [u8], end: usize, piece: &[u8]) -> usize
    requires room { length piece.now ≤ end }
    requires end { end ≤ length buf.old }
    ensures start { result + length piece.now ≡ end }
    ensures written { drop result buf.new ≡ piece.now ++ drop end buf.old }
    ensures same { length buf.new ≡ length buf.old }
{
    let start = end - piece.len();
    buf[start..end].copy_from_slice(piece);
    start
}

/// Writes an output's line at the end of a buffer, and returns where the line begins. Digits are produced last to
/// first, so each is written directly to its final place.
#[inline(always)]
pub fn write_line(buf: &mut [u8], name: &[u8], value: u64) -> usize
    requires { length name.now + VALUE_ROOM ≤ length buf.old }
    ensures within { result ≤ length buf.old }
    ensures written { drop result buf.new ≡ line name.now value }
    ensures same { length buf.new ≡ length buf.old }
{
    let end = put_before(buf, buf.len(), b"\n");
    let digits = write_digits(value, buf, end);
    let end = put_before(buf, digits, b" ");
    put_before(buf, end, name)
}
