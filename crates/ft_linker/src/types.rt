//! Compares code types of two modules.
ghost use Rattle.std.specs.Prelude.{◌≡◌, ◌↔◌, ◌<◌, ◌+◌, ℕ, IsTrue, All, length};
ghost use Rattle.std.specs.List.{AllZip};
ghost use Rattle.ft_types.specs.Spellable.{IsSpellable};
ghost use Rattle.ft_modules.specs.LikeTypes.{LikeTypes, SamePair, SameRow};
ghost use Rattle.ft_modules.specs.TreeKeys.{number_in};
ghost use Rattle.ft_linker.specs.Numbers.{AreCompared, HasPair, HasRow};

use ft_types::{Object, RegType, Table};
use ft_typing::{same_basic, same_colour};

/// A module's object, and the index of its first node's number.
#[derive(Clone, Copy)]
pub struct Numbered<'a> {
    pub object: &'a Object,
    pub first: u32,
}

/// Whether node `n` of one module and node `m` of another have trees with the same number. The numbers of the modules'
/// nodes begin at the indices `k` and `l`.
fn same_tree(numbers: &[u32], k: u32, n: u32, l: u32, m: u32) -> bool
    requires one { k + n < length numbers.now }
    requires other { l + m < length numbers.now }
    ensures { IsTrue result ↔ (number_in numbers.now (k + n) ≡ number_in numbers.now (l + m)) }
{
    numbers[k as usize + n as usize] == numbers[l as usize + m as usize]
}

/// Whether two register rows agree.
fn same_row(numbers: &[u32], a: Numbered, r: RegType, b: Numbered, q: RegType) -> bool
    requires one { IsSpellable a.object.now }
    requires other { IsSpellable b.object.now }
    requires compared { AreCompared numbers.now a.object.now a.first b.object.now b.first }
    requires row { HasRow a.object.now r }
    requires other_row { HasRow b.object.now q }
    ensures { IsTrue result ↔ SameRow a.entry.object.now b.entry.object.now r q }
{
    if r.reg.number() != q.reg.number() {
        return false;
    }
    if !same_colour(r.colour, q.colour) {
        return false;
    }
    if !same_basic(r.basic, q.basic) {
        return false;
    }
    same_tree(numbers, a.first, r.expr, b.first, q.expr)
}

/// Whether two lists of register rows agree.
fn same_rows(
    numbers: &[u32],
    a: Numbered,
    rs: &Table<RegType>,
    b: Numbered,
    qs: &Table<RegType>,
) -> bool
    requires one { IsSpellable a.object.now }
    requires other { IsSpellable b.object.now }
    requires compared { AreCompared numbers.now a.object.now a.first b.object.now b.first }
    requires rows { All (HasRow a.object.now) rs.now }
    requires other_rows { All (HasRow b.object.now) qs.now }
    ensures { IsTrue result ↔ AllZip (SameRow a.entry.object.now b.entry.object.now) rs.now qs.now }
{
    if rs.len() != qs.len() {
        return false;
    }
    for j in 0..rs.len() {
        let r = *rs.at(j);
        let q = *qs.at(j);
        if !same_row(numbers, a, r, b, q) {
            return false;
        }
    }
    true
}

/// Whether two queue rows agree.
fn same_pair(numbers: &[u32], a: Numbered, r: (u32, u32), b: Numbered, q: (u32, u32)) -> bool
    requires one { IsSpellable a.object.now }
    requires other { IsSpellable b.object.now }
    requires compared { AreCompared numbers.now a.object.now a.first b.object.now b.first }
    requires row { HasPair a.object.now r }
    requires other_row { HasPair b.object.now q }
    ensures { IsTrue result ↔ SamePair a.entry.object.now b.entry.object.now r q }
{
    let is_address = same_tree(numbers, a.first, r.0, b.first, q.0);
    if !is_address {
        return false;
    }
    same_tree(numbers, a.first, r.1, b.first, q.1)
}

/// Whether two lists of queue rows agree.
fn same_pairs(
    numbers: &[u32],
    a: Numbered,
    rs: &Table<(u32, u32)>,
    b: Numbered,
    qs: &Table<(u32, u32)>,
) -> bool
    requires one { IsSpellable a.object.now }
    requires other { IsSpellable b.object.now }
    requires compared { AreCompared numbers.now a.object.now a.first b.object.now b.first }
    requires rows { All (HasPair a.object.now) rs.now }
    requires other_rows { All (HasPair b.object.now) qs.now }
    ensures { IsTrue result ↔ AllZip (SamePair a.entry.object.now b.entry.object.now) rs.now qs.now }
{
    if rs.len() != qs.len() {
        return false;
    }
    for j in 0..rs.len() {
        let r = *rs.at(j);
        let q = *qs.at(j);
        if !same_pair(numbers, a, r, b, q) {
            return false;
        }
    }
    true
}

/// Whether code type `t` of one module and code type `u` of another agree. Both exist.
pub fn same_types(numbers: &[u32], a: Numbered, t: u32, b: Numbered, u: u32) -> bool
    requires one { IsSpellable a.object.now }
    requires other { IsSpellable b.object.now }
    requires compared { AreCompared numbers.now a.object.now a.first b.object.now b.first }
    requires there { t < length a.object.now.types }
    requires other_there { u < length b.object.now.types }
    ensures { IsTrue result ↔ LikeTypes a.entry.object.now t b.entry.object.now u }
{
    let x = a.object.types.at(t as usize);
    let y = b.object.types.at(u as usize);
    if x.ints != y.ints {
        return false;
    }
    if !same_rows(numbers, a, &x.regs, b, &y.regs) {
        return false;
    }
    if !same_pairs(numbers, a, &x.queue, b, &y.queue) {
        return false;
    }
    same_tree(numbers, a.first, x.memory, b.first, y.memory)
}
