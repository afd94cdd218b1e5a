//! The fields of an instruction's record, each read in place.
ghost use Rattle.std.specs.Prelude.{◌≡◌, ◌<◌, ◌≤◌, ◌+◌, length, drop};
ghost use Rattle.std.specs.Int.{w8, w32};
ghost use Rattle.ft_format.specs.Layout.{number_of};
ghost use Rattle.ft_isa.specs.Operations.{last_op_code, op_of};
ghost use Rattle.ft_format.specs.Codes.{register_of, coloured};
ghost use Rattle.ft_view.specs.InPlace.{kind_in, a_in, b_in, c_in, x_in, high_in, low_in};

use crate::parts::{colour, register};
use ft_isa::{Coloured, Op, Reg, Subst};
use ft_types::joined;

/// The byte at a place.
#[inline(always)]
#[tactic(auto, unfolding(ft_format::specs::Layout::number_of))]
fn byte_at(bytes: &[u8], at: usize) -> u8
    requires { at + 1 ≤ length bytes.now }
    ensures { result ≡ number_of w8 (drop at bytes.now) }
{
    let (_, rest) = bytes.split_at(at);
    let (front, _) = rest.split_at(1);
    front[0]
}

/// The four-byte number at a place.
#[inline(always)]
#[tactic(auto, unfolding(ft_format::specs::Layout::number_of))]
pub(crate) fn number_at(bytes: &[u8], at: usize) -> u32
    requires { at + 4 ≤ length bytes.now }
    ensures { result ≡ number_of w32 (drop at bytes.now) }
{
    let (_, rest) = bytes.split_at(at);
    let (front, _) = rest.split_at(4);
    u32::from_be_bytes([front[0], front[1], front[2], front[3]])
}

/// The kind of a record.
#[inline(always)]
pub(crate) fn kind(bytes: &[u8]) -> u8
    requires { 16 ≤ length bytes.now }
    ensures { result ≡ kind_in bytes.now }
{
    byte_at(bytes, 0)
}

/// The first register of a record.
#[inline(always)]
pub(crate) fn reg_a(bytes: &[u8]) -> Reg
    requires there { 16 ≤ length bytes.now }
    requires below { a_in bytes.now < 64 }
    ensures { result ≡ register_of (a_in bytes.now) }
{
    register(byte_at(bytes, 1))
}

/// The second register of a record.
#[inline(always)]
pub(crate) fn reg_b(bytes: &[u8]) -> Reg
    requires there { 16 ≤ length bytes.now }
    requires below { b_in bytes.now < 64 }
    ensures { result ≡ register_of (b_in bytes.now) }
{
    register(byte_at(bytes, 2))
}

/// The third register of a record.
#[inline(always)]
pub(crate) fn reg_c(bytes: &[u8]) -> Reg
    requires there { 16 ≤ length bytes.now }
    requires below { c_in bytes.now < 64 }
    ensures { result ≡ register_of (c_in bytes.now) }
{
    register(byte_at(bytes, 3))
}

/// The third byte after the kind: a colour, in most kinds.
#[inline(always)]
pub(crate) fn field_c(bytes: &[u8]) -> u8
    requires { 16 ≤ length bytes.now }
    ensures { result ≡ c_in bytes.now }
{
    byte_at(bytes, 3)
}

/// Field x of a record.
#[inline(always)]
pub(crate) fn field_x(bytes: &[u8]) -> u32
    requires { 16 ≤ length bytes.now }
    ensures { result ≡ x_in bytes.now }
{
    number_at(bytes, 4)
}

/// The operation with this code. The code must be valid, so its lowest byte identifies it.
#[inline(always)]
pub(crate) fn known_op(code: u32) -> Op
    requires { code ≤ last_op_code }
    ensures { result ≡ op_of code }
{
    Op::of_code(u32::from(code as u8))
}

/// The word of a record, with its colour.
#[inline(always)]
pub(crate) fn coloured_in(bytes: &[u8]) -> Coloured
    requires { 16 ≤ length bytes.now }
    ensures { result ≡ coloured (c_in bytes.now) (high_in bytes.now) (low_in bytes.now) }
{
    Coloured {
        colour: colour(field_c(bytes)),
        word: joined(number_at(bytes, 8), number_at(bytes, 12)),
    }
}

/// The substitution of a blue jump or branch.
#[inline(always)]
pub(crate) fn subst_in(bytes: &[u8]) -> Subst
    requires { 16 ≤ length bytes.now }
    ensures { (result.first ≡ x_in bytes.now) × (result.past ≡ high_in bytes.now) × (result.memory ≡ low_in bytes.now) }
{
    Subst {
        first: field_x(bytes),
        past: number_at(bytes, 8),
        memory: number_at(bytes, 12),
    }
}
