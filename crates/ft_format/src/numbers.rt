//! Reads big-endian numbers from the front of a byte slice, and appends them to a byte vector.
ghost use Rattle.std.specs.Prelude.{◌≡◌, ◌≤◌, ◌+◌, ◌++◌, ◌∷◌, [], length, drop, OnOk};
ghost use Rattle.std.specs.Int.{w8, w16, w32, w64};
ghost use Rattle.ft_format.specs.Puts.{Puts};
ghost use Rattle.ft_format.specs.Layout.{number_of, bytes_of, written, cell_layout, code_layout, type_layout, reg_layout, pair_layout};

use byteorder::{BigEndian, ByteOrder};
use ft_isa::NoMemory;
use ft_types::{joined, row_words};

/// Reads a one-byte number; also returns the bytes after it.
#[tactic(auto, unfolding(crate::specs::Layout::number_of))]
pub(crate) fn read_u8(bytes: &[u8]) -> (u8, &[u8])
    requires { 1 ≤ length bytes.now }
    ensures number { result.0 ≡ number_of w8 bytes.now }
    ensures rest { result.1.now ≡ drop 1 bytes.now }
    ensures left { length bytes.now ≡ length result.1.now + 1 }
{
    let (front, rest) = bytes.split_at(1);
    (front[0], rest)
}

/// Reads a two-byte number; also returns the bytes after it.
#[tactic(auto, unfolding(crate::specs::Layout::number_of))]
pub(crate) fn read_u16(bytes: &[u8]) -> (u16, &[u8])
    requires { 2 ≤ length bytes.now }
    ensures number { result.0 ≡ number_of w16 bytes.now }
    ensures rest { result.1.now ≡ drop 2 bytes.now }
    ensures left { length bytes.now ≡ length result.1.now + 2 }
{
    let (front, rest) = bytes.split_at(2);
    (u16::from_be_bytes([front[0], front[1]]), rest)
}

/// Reads a four-byte number; also returns the bytes after it.
#[tactic(auto, unfolding(crate::specs::Layout::number_of))]
pub(crate) fn read_u32(bytes: &[u8]) -> (u32, &[u8])
    requires { 4 ≤ length bytes.now }
    ensures number { result.0 ≡ number_of w32 bytes.now }
    ensures rest { result.1.now ≡ drop 4 bytes.now }
    ensures left { length bytes.now ≡ length result.1.now + 4 }
{
    let (front, rest) = bytes.split_at(4);
    (
        u32::from_be_bytes([front[0], front[1], front[2], front[3]]),
        rest,
    )
}

/// Reads an eight-byte number; also returns the bytes after it.
#[tactic(auto, unfolding(crate::specs::Layout::number_of))]
pub(crate) fn read_u64(bytes: &[u8]) -> (u64, &[u8])
    requires { 8 ≤ length bytes.now }
    ensures number { result.0 ≡ number_of w64 bytes.now }
    ensures rest { result.1.now ≡ drop 8 bytes.now }
    ensures left { length bytes.now ≡ length result.1.now + 8 }
{
    let (front, rest) = bytes.split_at(8);
    let number = u64::from_be_bytes([
        front[0], front[1], front[2], front[3], front[4], front[5], front[6], front[7],
    ]);
    (number, rest)
}

/// Appends bytes. Always inlined, since each caller knows how many bytes there are.
#[inline(always)]
pub fn put(out: &mut Vec<u8>, bytes: &[u8]) -> Result<(), NoMemory>
    ensures { OnOk result (Puts out.old.items out.new.items (bytes.now)) }
{
    out.extend_from_slice(bytes)?;
    Ok(())
}

/// Appends a four-byte number.
#[tactic(auto, unfolding(crate::specs::Layout::bytes_of))]
pub(crate) fn put_u32(out: &mut Vec<u8>, n: u32) -> Result<(), NoMemory>
    ensures { OnOk result (Puts out.old.items out.new.items (bytes_of w32 n)) }
{
    let mut bytes = [0; 4];
    BigEndian::write_u32(&mut bytes, n);
    put(out, &bytes)
}

/// Appends an eight-byte number.
#[inline(always)]
#[tactic(auto, unfolding(crate::specs::Layout::bytes_of))]
pub(crate) fn put_u64(out: &mut Vec<u8>, n: u64) -> Result<(), NoMemory>
    ensures { OnOk result (Puts out.old.items out.new.items (bytes_of w64 n)) }
{
    let mut bytes = [0; 8];
    BigEndian::write_u64(&mut bytes, n);
    put(out, &bytes)
}

/// A record of four one-byte and three four-byte numbers, as two eight-byte numbers.
#[inline(always)]
pub(crate) fn code_words(a: u8, b: u8, c: u8, d: u8, x: u32, y: u32, z: u32) -> (u64, u64)
    ensures { bytes_of w64 result.0 ++ bytes_of w64 result.1 ≡ written code_layout (a ∷ b ∷ c ∷ d ∷ x ∷ y ∷ z ∷ []) }
{
    row_words(a, b, c, d, x, y, z)
}

/// Appends two eight-byte numbers.
#[inline(always)]
pub(crate) fn put_words(out: &mut Vec<u8>, words: (u64, u64)) -> Result<(), NoMemory>
    ensures { OnOk result (Puts out.old.items out.new.items (bytes_of w64 words.0 ++ bytes_of w64 words.1)) }
{
    put_u64(out, words.0)?;
    put_u64(out, words.1)
}

/// Appends two four-byte numbers as one eight-byte number.
#[inline(always)]
pub fn put_pair(out: &mut Vec<u8>, first: u32, second: u32) -> Result<(), NoMemory>
    ensures { OnOk result (Puts out.old.items out.new.items (bytes_of w32 first ++ bytes_of w32 second)) }
{
    put_u64(out, joined(first, second))
}

/// The bytes of a cell's record.
#[tactic(auto, unfolding(crate::specs::Layout::written, crate::specs::Layout::bytes_of))]
pub(crate) fn cell_bytes(past: u32, refs: u8, base: u8, code_type: u16, init: u64) -> [u8; 16]
    ensures { result ≡ written cell_layout (past ∷ refs ∷ base ∷ code_type ∷ init ∷ []) }
{
    let [p0, p1, p2, p3] = past.to_be_bytes();
    let [t0, t1] = code_type.to_be_bytes();
    let [i0, i1, i2, i3, i4, i5, i6, i7] = init.to_be_bytes();
    [
        p0, p1, p2, p3, refs, base, t0, t1, i0, i1, i2, i3, i4, i5, i6, i7,
    ]
}

/// The bytes of a type's record.
#[tactic(auto, unfolding(crate::specs::Layout::written, crate::specs::Layout::bytes_of))]
pub(crate) fn type_bytes(x: u32, y: u32, z: u32, a: u8, b: u8, c: u8, d: u8) -> [u8; 16]
    ensures { result ≡ written type_layout (x ∷ y ∷ z ∷ a ∷ b ∷ c ∷ d ∷ []) }
{
    let [x0, x1, x2, x3] = x.to_be_bytes();
    let [y0, y1, y2, y3] = y.to_be_bytes();
    let [z0, z1, z2, z3] = z.to_be_bytes();
    [x0, x1, x2, x3, y0, y1, y2, y3, z0, z1, z2, z3, a, b, c, d]
}

/// The bytes of a register row.
#[tactic(auto, unfolding(crate::specs::Layout::written, crate::specs::Layout::bytes_of))]
pub(crate) fn reg_bytes(
    reg: u8,
    colour: u8,
    pad: u16,
    refs: u8,
    base: u8,
    code_type: u16,
    expr: u32,
) -> [u8; 12]
    ensures { result ≡ written reg_layout (reg ∷ colour ∷ pad ∷ refs ∷ base ∷ code_type ∷ expr ∷ []) }
{
    let [p0, p1] = pad.to_be_bytes();
    let [t0, t1] = code_type.to_be_bytes();
    let [e0, e1, e2, e3] = expr.to_be_bytes();
    [reg, colour, p0, p1, refs, base, t0, t1, e0, e1, e2, e3]
}

/// The bytes of a queue row or of a block's record.
#[tactic(auto, unfolding(crate::specs::Layout::written, crate::specs::Layout::bytes_of))]
pub(crate) fn pair_bytes(first: u32, second: u32) -> [u8; 8]
    ensures { result ≡ written pair_layout (first ∷ second ∷ []) }
{
    let [a0, a1, a2, a3] = first.to_be_bytes();
    let [b0, b1, b2, b3] = second.to_be_bytes();
    [a0, a1, a2, a3, b0, b1, b2, b3]
}
