//! Short ways through the updates of a memory.
//!
//! Two addresses are of one class if they differ only in their constants. Among updates of one class, an update's path
//! gives, for each bit of a form's number, the memory at which the walk of `sel` goes on if the number of its address
//! differs from that of the update in this bit and in none below. So a walk takes at most one such way for each bit.
ghost use Rattle.std.specs.Prelude.{◌≡◌, ◌≢◌, ◌<◌, ◌≤◌, ◌+◌, ℕ, IfSome, nat_eq, length, slice_get, Some};
ghost use Rattle.indexmap.specs.IndexMap.{get};
ghost use Rattle.ft_norm.specs.Entries.{AreEntries, IsIntegerAt, IsMemoryAt, forms_of};
ghost use Rattle.ft_norm.specs.Ways.{ArePaths, AreAlike, IsLevel, IsPath, IsTurn, IsUpdate, Leads, Skips};
ghost use Rattle.std.specs.Int.{bit_at};

use crate::entry::Entry;
use crate::terms::terms_at;
use crate::walk::differs;
use indexmap::IndexMap;
use std::alloc::{AllocError, Global};

/// How many bits a form's number has.
const BITS: usize = 32;

/// The path of an update: its address, an address of the same class, by which updates of one class know each other, and
/// for each bit where a walk goes on.
#[derive(Clone, Copy)]
pub struct Path {
    pub at: u32,
    pub base: u32,
    pub turns: [u32; BITS],
}

/// The lowest bit in which two numbers differ; 32 if they are equal.
#[inline(always)]
fn level(a: u32, b: u32) -> usize
    ensures agree { (k : ℕ) → k < result → bit_at a k ≡ bit_at b k }
    ensures differ { result < 32 → bit_at a result ≢ bit_at b result }
{
    (a ^ b).trailing_zeros() as usize
}

/// The path of update `m`, if it has one in the class of `base`.
#[inline(always)]
fn known(paths: &IndexMap<u32, Path>, base: u32, m: u32) -> Option<&Path>
    ensures path { IfSome result (λ p. get nat_eq paths.now m ≡ Some p.now) }
    ensures base { IfSome result (λ p. p.now.base ≡ base) }
{
    match paths.get(&m) {
        Some(path) => { if path.base == base { Some(path) } else { None } }
        None => None,
    }
}

/// The memory, at or below `m`, at which the walk for address `p` goes on.
pub fn follow(entries: &[Entry], paths: &IndexMap<u32, Path>, m: u32, p: u32) -> u32
    requires entries { AreEntries entries.now }
    requires paths { ArePaths entries.now paths.now }
    requires memory { IsMemoryAt (forms_of entries.now) m }
    requires address { IsIntegerAt (forms_of entries.now) p }
    ensures { (a v k : ℕ) → IsUpdate entries.now m a v k → AreAlike entries.now p a → Skips entries.now m p result }
{
    let Some(first) = paths.get(&m) else {
        return m;
    };
    let base = first.base;
    let mut v = m;
    loop {
        let Some(path) = known(paths, base, v) else {
            return v;
        };
        let i = level(path.at, p);
        if i >= BITS {
            return v;
        }
        v = path.turns[i];
    }
}

/// An address of the class of `at`, by which the updates below know each other if the newest is of this class.
fn base_over(entries: &[Entry], paths: &IndexMap<u32, Path>, at: u32, older: u32) -> u32
    requires entries { AreEntries entries.now }
    requires paths { ArePaths entries.now paths.now }
    requires address { IsIntegerAt (forms_of entries.now) at }
    ensures { AreAlike entries.now at result }
{
    match paths.get(&older) {
        Some(path) => {
            if differs(entries, terms_at(entries, at), path.at) {
                path.base
            } else {
                at
            }
        }
        None => at,
    }
}

/// Where walks that have come to `v` go on, if the numbers of their addresses differ from `at` first in bit `i`, and if
/// in a higher bit.
fn turn(
    entries: &[Entry],
    paths: &IndexMap<u32, Path>,
    base: u32,
    at: u32,
    v: u32,
    i: usize,
) -> (u32, u32)
    requires entries { AreEntries entries.now }
    requires paths { ArePaths entries.now paths.now }
    requires base { AreAlike entries.now at base }
    requires bit { i < 32 }
    ensures turn { (m : ℕ) → Leads entries.now m at i v → IsTurn entries.now m at i result.0 }
    ensures next { (m : ℕ) → Leads entries.now m at i v → Leads entries.now m at (i + 1) result.1 }
{
    let mut v = v;
    loop {
        let Some(path) = known(paths, base, v) else {
            return (v, v);
        };
        let j = level(at, path.at);
        if j > i {
            return (path.turns[i], v);
        }
        if j == i {
            return (v, v);
        }
        v = path.turns[j];
    }
}

/// The path of update `m`, at address `at` over `older`.
fn path_over(entries: &[Entry], paths: &IndexMap<u32, Path>, m: u32, at: u32, older: u32) -> Path
    requires entries { AreEntries entries.now }
    requires paths { ArePaths entries.now paths.now }
    requires update { (v : ℕ) × IsUpdate entries.now m at v older }
    ensures { IsPath entries.now m result }
{
    let base = base_over(entries, paths, at, older);
    let mut turns = [older; BITS];
    let mut v = older;
    for i in 0..BITS {
        let (here, above) = turn(entries, paths, base, at, v, i);
        turns[i] = here;
        v = above;
    }
    Path { at, base, turns }
}

/// An update without a path.
#[derive(Clone, Copy)]
struct Open(u32);

/// The updates of `m` that have no path yet, newest first; `None` if there are more than `most`.
fn without_path(
    alloc: Global,
    entries: &[Entry],
    paths: &IndexMap<u32, Path>,
    m: u32,
    most: u64,
) -> Result<Option<Vec<Open>>, AllocError>
    requires entries { AreEntries entries.now }
    requires within { m < length entries.now }
{
    let mut open = Vec::new(alloc);
    let mut k = m;
    loop {
        if paths.get(&k).is_some() {
            return Ok(Some(open));
        }
        let Entry::Update { older, .. } = &entries[k as usize] else {
            return Ok(Some(open));
        };
        if open.len() as u64 >= most {
            return Ok(None);
        }
        open.push(Open(k))?;
        k = *older;
    }
}

/// Notes the path of an update.
fn note_path(entries: &[Entry], paths: &mut IndexMap<u32, Path>, m: u32) -> Result<(), AllocError>
    requires entries { AreEntries entries.now }
    requires paths { ArePaths entries.now paths.old }
    ensures { ArePaths entries.now paths.new }
{
    if m as usize >= entries.len() {
        return Ok(());
    }
    let Entry::Update { at, older, .. } = &entries[m as usize] else {
        return Ok(());
    };
    let path = path_over(entries, paths, m, *at, *older);
    match paths.insert(m, path) {
        Ok(_) => Ok(()),
        Err(_) => Err(AllocError),
    }
}

/// Notes the paths of the updates of `m`, oldest first, unless more than `most` of them have none. Returns whether it did.
pub fn note_paths(
    alloc: Global,
    entries: &[Entry],
    paths: &mut IndexMap<u32, Path>,
    m: u32,
    most: u64,
) -> Result<bool, AllocError>
    requires entries { AreEntries entries.now }
    requires paths { ArePaths entries.now paths.old }
    requires within { m < length entries.now }
    ensures { ArePaths entries.now paths.new }
{
    let Some(mut open) = without_path(alloc, entries, paths, m, most)? else {
        return Ok(false);
    };
    loop {
        let Some(k) = open.pop() else {
            return Ok(true);
        };
        note_path(entries, paths, k.0)?;
    }
}
