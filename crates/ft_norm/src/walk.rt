//! Finds constants among terms, and walks the updates of a memory.
ghost use Rattle.std.specs.Prelude.{◌≡◌, ◌≢◌, ◌+◌, ◌<◌, ◌≤◌, ℕ, IfOk, List, [], ◌∷◌, length, map};
ghost use Rattle.std.specs.Bool.{Decides};
ghost use Rattle.ft_static.specs.Form.{Form as Normal, Polynomial, nought, plus, update, updates};
ghost use Rattle.ft_static.specs.NormalForm.{constant_of, is_not_zero, norm_sel, norm_sub, norm_upd};
ghost use Rattle.ft_norm.specs.Held.{polynomial_at, updates_at};
ghost use Rattle.ft_norm.specs.Entries.{AreEntries, IsIntegerAt, IsMemoryAt, alone_term, forms_of, full, memory_reach, monomial_form, polynomial_form};
ghost use Rattle.ft_norm.specs.Terms.{AreOver, IsView, constant_among, others, terms_of};
ghost use Rattle.ft_norm.specs.Walks.{EndsWithin, form_of_walk};
ghost use Rattle.ft_norm.specs.Ways.{ArePaths, AreAlike, IsUpdate, Passes};

use crate::entry::{Atoms, Entry, LinearTerm, degree};
use crate::terms::{Terms, terms_at};
use crate::turns::{Path, follow};
use ft_isa::NoMemory;
use ft_meter::Meter;
use indexmap::IndexMap;

/// How many updates a walk passes before it looks for a path.
const FEW: u32 = 32;

/// Where a walk ends: at the value of an update with the address, or at the memory past which the walk cannot go.
#[derive(Clone, Copy)]
pub enum Walk {
    Value(u32),
    Stop(u32),
}

/// The value of a constant polynomial.
pub fn constant_in(terms: Terms<'_>) -> Option<u64>
    ensures { (fs : List Normal) → AreOver fs (terms_of terms.entry) → result ≡ constant_of (polynomial_form fs (terms_of terms.entry)) }
{
    if terms.is_empty() {
        return Some(0);
    }
    if terms.len() != 1 {
        return None;
    }
    let term = terms.term(0);
    constant_of_term(term.atoms, term.coefficient)
}

/// The value of a polynomial of one term, if the term has no atom.
fn constant_of_term(atoms: Atoms, coefficient: u64) -> Option<u64>
    ensures { (fs : List Normal) → result ≡ constant_of (plus (monomial_form fs atoms) coefficient nought) }
{
    if degree(atoms) == 0 {
        Some(coefficient)
    } else {
        None
    }
}

/// The constant among these terms, or 0. A constant comes first.
#[inline(always)]
fn constant_among(terms: Terms<'_>) -> u64
    requires { IsView terms }
    ensures { result ≡ constant_among (terms_of terms.entry) }
{
    match terms {
        Terms::Linear([first, ..]) if first.atom == 0 => first.coefficient,
        Terms::Packed([first, ..]) if degree(first.full().atoms) == 0 => first.full().coefficient,
        Terms::Full([first, ..]) if degree(first.atoms) == 0 => first.coefficient,
        _ => 0,
    }
}

/// These terms without the constant.
#[inline(always)]
fn others(terms: Terms<'_>) -> Terms<'_>
    requires { IsView terms }
    ensures terms { terms_of result ≡ others (terms_of terms.entry) }
    ensures view { IsView result }
{
    match terms {
        Terms::Linear([first, others @ ..]) if first.atom == 0 => Terms::Linear(others),
        Terms::Packed([first, others @ ..]) if degree(first.full().atoms) == 0 => {
            Terms::Packed(others)
        }
        Terms::Full([first, others @ ..]) if degree(first.atoms) == 0 => Terms::Full(others),
        _ => terms,
    }
}

/// Whether these terms are one atom with the coefficient 1.
fn are_atom(terms: &[LinearTerm], atom: u32) -> bool
    ensures { Decides result (map full terms.now ≡ alone_term atom ∷ []) }
{
    match terms {
        [term] if term.atom == atom => term.coefficient == 1,
        _ => false,
    }
}

/// Whether these are the same terms.
#[inline(always)]
fn are_same(p: Terms<'_>, q: Terms<'_>) -> bool
    requires first { IsView p }
    requires second { IsView q }
    ensures { Decides result (terms_of p.entry ≡ terms_of q.entry) }
{
    match (p, q) {
        (Terms::Atom(a), Terms::Atom(b)) => a == b,
        (Terms::Atom(a), Terms::Linear(q)) => are_atom(q, a),
        (Terms::Linear(p), Terms::Atom(b)) => are_atom(p, b),
        (Terms::Linear(p), Terms::Linear(q)) => p == q,
        (Terms::Packed(p), Terms::Packed(q)) => p == q,
        (Terms::Full(p), Terms::Full(q)) => p == q,
        _ => false,
    }
}

/// Whether two polynomials differ by a constant other than 0: their other terms are the same, but their constants are
/// not.
fn are_apart(p: Terms<'_>, q: Terms<'_>) -> bool
    requires first { IsView p }
    requires second { IsView q }
    ensures { (fs : List Normal) → AreOver fs (terms_of p.entry) → AreOver fs (terms_of q.entry) → result ≡ is_not_zero (constant_of (norm_sub (polynomial_form fs (terms_of p.entry)) (polynomial_form fs (terms_of q.entry)))) }
{
    if constant_among(p) == constant_among(q) {
        return false;
    }
    are_same(others(p), others(q))
}

/// Whether these terms and those of entry `a` differ by a constant other than 0.
#[inline(always)]
pub fn differs(entries: &[Entry], terms: Terms<'_>, a: u32) -> bool
    requires view { IsView terms }
    requires terms { AreOver (forms_of entries.now) (terms_of terms) }
    requires address { a < length entries.now }
    requires entries { AreEntries entries.now }
    ensures { result ≡ is_not_zero (constant_of (norm_sub (polynomial_form (forms_of entries.now) (terms_of terms.entry)) (polynomial_at (forms_of entries.now) a))) }
{
    are_apart(terms, terms_at(entries, a))
}

/// Walks the updates of `memory`, newest first, past those whose addresses are known to differ from the address `p`. It
/// stops at the first other update, or at the end. It counts a step for each update passed one by one, and for each way
/// that it takes along a path; it pays for the terms that it compares, and gives up if the meter refuses. `far` counts
/// the updates at which it looked for a path in vain.
pub fn walk_from<M: Meter>(
    entries: &[Entry],
    paths: &IndexMap<u32, Path>,
    memory: u32,
    p: u32,
    far: &mut u64,
    meter: &mut M,
) -> Result<Walk, NoMemory>
    requires memory { IsMemoryAt (forms_of entries.now) memory }
    requires at { IsIntegerAt (forms_of entries.now) p }
    requires entries { AreEntries entries.now }
    requires paths { ArePaths entries.now paths.now }
    ensures ends { IfOk result (EndsWithin (forms_of entries.now)) }
    ensures form { IfOk result (λ w. form_of_walk (forms_of entries.now) p w ≡ norm_sel (updates_at (forms_of entries.now) memory) (polynomial_at (forms_of entries.now) p)) }
    ensures steps { M.counted meter.new ≤ M.counted meter.old + updates (updates_at (forms_of entries.now) memory) }
{
    let terms = terms_at(entries, p);
    let mut m = memory;
    let mut passed: u32 = 0;
    loop {
        let Entry::Update { at, value, older } = &entries[m as usize] else {
            return Ok(Walk::Stop(m));
        };
        if *at == p {
            return Ok(Walk::Value(*value));
        }
        meter.pay(if M::WEIGHS { terms.len() as u64 } else { 0 })?;
        if !differs(entries, terms, *at) {
            return Ok(Walk::Stop(m));
        }
        meter.take(1)?;
        m = past(entries, paths, m, p, *older, passed, far);
        passed = passed.saturating_add(1);
    }
}

/// Where a walk for address `p` goes on that has passed update `m`, over `older`, and `passed` others before it. `far`
/// counts the updates of long walks that have no path.
#[inline(always)]
fn past(
    entries: &[Entry],
    paths: &IndexMap<u32, Path>,
    m: u32,
    p: u32,
    older: u32,
    passed: u32,
    far: &mut u64,
) -> u32
    requires entries { AreEntries entries.now }
    requires paths { ArePaths entries.now paths.now }
    requires memory { IsMemoryAt (forms_of entries.now) m }
    requires address { IsIntegerAt (forms_of entries.now) p }
    ensures { (a v : ℕ) → IsUpdate entries.now m a v older → AreAlike entries.now p a → p ≢ a → Passes entries.now m p result }
{
    if passed < FEW {
        return older;
    }
    let next = follow(entries, paths, m, p);
    if next < m {
        return next;
    }
    *far = far.saturating_add(1);
    older
}

/// The memory below an update at the address `at`: `memory` itself, or, if its newest update has that address, the
/// memory below that update.
pub fn below_newest(entries: &[Entry], memory: u32, at: u32) -> u32
    requires within { memory < length entries.now }
    requires memory { IsMemoryAt (forms_of entries.now) memory }
    requires at { IsIntegerAt (forms_of entries.now) at }
    requires entries { AreEntries entries.now }
    ensures within { memory_reach (forms_of entries.now) result ≤ length (forms_of entries.now) }
    ensures below { (v : Polynomial) → update (polynomial_at (forms_of entries.now) at) v (updates_at (forms_of entries.now) result) ≡ norm_upd (updates_at (forms_of entries.now) memory) (polynomial_at (forms_of entries.now) at) v }
{
    let Entry::Update {
        at: newest,
        value: _,
        older,
    } = &entries[memory as usize]
    else {
        return memory;
    };
    if *newest == at {
        return *older;
    }
    memory
}
