//! Whether two names are the same. Fast if they differ, since each name of an object is compared with all
//! earlier ones.
ghost use Rattle.std.specs.Prelude.{◌≡◌, ◌+◌, ◌≤◌, true, length, take, drop};
ghost use Rattle.std.specs.Int.{w64};
ghost use Rattle.std.specs.Str.{bytes_eq};
ghost use Rattle.ft_format.specs.Layout.{number_of};

use crate::byte_part::stretch;

/// The eight bytes from a place on, as a number.
#[inline(always)]
#[tactic(auto, unfolding(ft_format::specs::Layout::number_of))]
fn word(bytes: &[u8], at: usize) -> u64
    requires { at + 8 ≤ length bytes.now }
    ensures { result ≡ number_of w64 (take 8 (drop at bytes.now)) }
{
    let part = stretch(bytes, at, 8);
    u64::from_be_bytes([
        part[0], part[1], part[2], part[3], part[4], part[5], part[6], part[7],
    ])
}

/// Whether the eight bytes from a place on are the same in both names.
#[inline(always)]
fn has_word_of(name: &[u8], other: &[u8], at: usize) -> bool
    requires here { at + 8 ≤ length name.now }
    requires there { at + 8 ≤ length other.now }
    ensures { name.now ≡ other.now → result ≡ true }
{
    word(name, at) == word(other, at)
}

/// Whether two names of the same length may be equal: `false` only if they differ. Names of eight bytes or more are
/// compared eight bytes at a time, and the result is rarely `true` if they differ.
#[inline(always)]
fn may_be_same(name: &[u8], other: &[u8]) -> bool
    requires { length name.now ≡ length other.now }
    ensures { name.now ≡ other.now → result ≡ true }
{
    let count = name.len();
    if count < 8 {
        return true;
    }
    if !has_word_of(name, other, 0) || !has_word_of(name, other, count - 8) {
        return false;
    }
    count < 16 || (has_word_of(name, other, 8) && has_word_of(name, other, count - 16))
}

/// Whether two names are the same.
#[inline(always)]
pub(crate) fn is_same(name: &[u8], other: &[u8]) -> bool
    ensures { result ≡ bytes_eq name.now other.now }
{
    if name.len() != other.len() {
        return false;
    }
    if !may_be_same(name, other) {
        return false;
    }
    name == other
}
