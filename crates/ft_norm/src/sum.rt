//! Sums and differences of polynomials.
ghost use Rattle.std.specs.Prelude.{◌≡◌, ◌<◌, ◌≤◌, ◌+◌, ◌-◌, ◌%◌, ◌^◌, ℕ, List, length, map, slice_index_or, IfErr, IfOk};
ghost use Rattle.ft_static.specs.Form.{Form as Normal};
ghost use Rattle.ft_static.specs.NormalForm.{add_term as sum_with, negation, total};
ghost use Rattle.ft_norm.specs.Entries.{monomial_form, polynomial_form, reach_of_atoms, reach_of_terms};
ghost use Rattle.ft_norm.specs.Orders.{AreTerms, IsMonomial, cmp_atoms};
ghost use Rattle.ft_norm.specs.Terms.{IsPlace, IsThere, negated_term, terms_of};

use crate::entry::{Atoms, Term, TermList};
use crate::terms::Terms;
use smallvec::SmallVec;
use std::alloc::{AllocError, Global};
use std::cmp::Ordering;

/// Compares two monomials by the numbers of their atoms.
#[inline(always)]
fn compare(a: Atoms, b: Atoms) -> Ordering
    requires first { length a ≡ 4 }
    requires second { length b ≡ 4 }
    ensures { result ≡ cmp_atoms a b }
{
    if a[0] != b[0] {
        return a[0].cmp(&b[0]);
    }
    if a[1] != b[1] {
        return a[1].cmp(&b[1]);
    }
    if a[2] != b[2] {
        return a[2].cmp(&b[2]);
    }
    a[3].cmp(&b[3])
}

/// The place of the term with these atoms; if there is none, `Err` with the place where it belongs.
fn place_of(sum: &[Term], atoms: Atoms) -> Result<usize, usize>
    requires sum { AreTerms sum.now }
    requires atoms { length atoms ≡ 4 }
    ensures there { IfOk result (IsThere sum.now atoms) }
    ensures place { IfErr result (IsPlace sum.now atoms) }
{
    let mut low = 0;
    let mut high = sum.len();
    while low < high {
        let middle = low + (high - low) / 2;
        match compare(sum[middle].atoms, atoms) {
            Ordering::Equal => return Ok(middle),
            Ordering::Less => low = middle + 1,
            Ordering::Greater => high = middle,
        }
    }
    Err(low)
}

/// Adds to the coefficient of term `i`; a term whose coefficient becomes 0 is dropped.
fn raise(sum: &mut TermList, i: usize, coefficient: u64)
    requires within { i < length sum.old.items }
    requires terms { AreTerms sum.old.items }
    ensures value { (fs : List Normal) (t : Term) → polynomial_form fs sum.new.items ≡ sum_with (monomial_form fs (slice_index_or sum.old.items i t).atoms) coefficient (polynomial_form fs sum.old.items) }
    ensures terms { AreTerms sum.new.items }
    ensures reach { (fs : List Normal) (n : ℕ) → reach_of_terms fs sum.old.items ≤ n → reach_of_terms fs sum.new.items ≤ n }
    ensures count { length sum.new.items ≤ length sum.old.items }
{
    let total = coefficient.wrapping_add(sum[i].coefficient);
    let vanishes = total == 0;
    if vanishes {
        sum.remove(i);
    } else {
        sum[i].coefficient = total;
    }
}

/// Inserts a term at index `i`, unless its coefficient is 0.
fn insert(sum: &mut TermList, i: usize, atoms: Atoms, coefficient: u64) -> Result<(), AllocError>
    requires terms { AreTerms sum.old.items }
    requires place { IsPlace sum.old.items atoms i }
    requires atoms { IsMonomial atoms }
    ensures value { IfOk result (λ _. (fs : List Normal) → polynomial_form fs sum.new.items ≡ sum_with (monomial_form fs atoms) coefficient (polynomial_form fs sum.old.items)) }
    ensures terms { AreTerms sum.new.items }
    ensures reach { (fs : List Normal) (n : ℕ) → reach_of_terms fs sum.old.items ≤ n → reach_of_atoms fs atoms ≤ n → reach_of_terms fs sum.new.items ≤ n }
    ensures count { length sum.new.items ≤ length sum.old.items + 1 }
{
    if coefficient == 0 {
        return Ok(());
    }
    sum.insert(i, Term { atoms, coefficient })?;
    Ok(())
}

/// Adds a term to a sum.
pub fn add_term(sum: &mut TermList, atoms: Atoms, coefficient: u64) -> Result<(), AllocError>
    requires terms { AreTerms sum.old.items }
    requires atoms { IsMonomial atoms }
    ensures value { IfOk result (λ _. (fs : List Normal) → polynomial_form fs sum.new.items ≡ sum_with (monomial_form fs atoms) coefficient (polynomial_form fs sum.old.items)) }
    ensures terms { AreTerms sum.new.items }
    ensures reach { (fs : List Normal) (n : ℕ) → reach_of_terms fs sum.old.items ≤ n → reach_of_atoms fs atoms ≤ n → reach_of_terms fs sum.new.items ≤ n }
    ensures count { length sum.new.items ≤ length sum.old.items + 1 }
{
    match place_of(sum.as_slice(), atoms) {
        Ok(i) => {
            raise(sum, i, coefficient);
            Ok(())
        }
        Err(i) => insert(sum, i, atoms, coefficient),
    }
}

/// Adds these terms to a sum.
fn add_terms(sum: &mut TermList, terms: Terms<'_>) -> Result<(), AllocError>
    requires sum { AreTerms sum.old.items }
    requires terms { AreTerms (terms_of terms) }
    ensures value { IfOk result (λ _. (fs : List Normal) → polynomial_form fs sum.new.items ≡ total (polynomial_form fs (terms_of terms.entry)) (polynomial_form fs sum.old.items)) }
    ensures terms { AreTerms sum.new.items }
    ensures reach { (fs : List Normal) (n : ℕ) → reach_of_terms fs sum.old.items ≤ n → reach_of_terms fs (terms_of terms.entry) ≤ n → reach_of_terms fs sum.new.items ≤ n }
{
    for i in 0..terms.len() {
        let term = terms.term(i);
        add_term(sum, term.atoms, term.coefficient)?;
    }
    Ok(())
}

/// A copy of these terms, with room for `more` further ones.
fn copy_terms(alloc: Global, terms: Terms<'_>, more: usize) -> Result<TermList, AllocError>
    ensures { IfOk result (λ v. v.items ≡ terms_of terms.entry) }
{
    let mut copies = SmallVec::with_capacity(alloc, terms.len().saturating_add(more))?;
    for i in 0..terms.len() {
        let term = terms.term(i);
        copies.push(term)?;
    }
    Ok(copies)
}

/// A term with its coefficient negated.
fn negated(term: Term) -> Term
    ensures { result ≡ negated_term term }
{
    let atoms = term.atoms;
    Term {
        atoms,
        coefficient: term.coefficient.wrapping_neg(),
    }
}

/// These terms with each coefficient negated, with room for `more` further ones.
pub fn negated_terms(alloc: Global, terms: Terms<'_>, more: usize) -> Result<TermList, AllocError>
    ensures { IfOk result (λ v. v.items ≡ map negated_term (terms_of terms.entry)) }
{
    let mut negation = SmallVec::with_capacity(alloc, terms.len().saturating_add(more))?;
    for i in 0..terms.len() {
        let term = terms.term(i);
        negation.push(negated(term))?;
    }
    Ok(negation)
}

/// The terms of the sum of `p` and `q`.
pub fn sum_terms(alloc: Global, p: Terms<'_>, q: Terms<'_>) -> Result<TermList, AllocError>
    requires first { AreTerms (terms_of p) }
    requires second { AreTerms (terms_of q) }
    ensures value { IfOk result (λ v. (fs : List Normal) → polynomial_form fs v.items ≡ total (polynomial_form fs (terms_of p.entry)) (polynomial_form fs (terms_of q.entry))) }
    ensures terms { IfOk result (λ v. AreTerms v.items) }
    ensures reach { IfOk result (λ v. (fs : List Normal) (n : ℕ) → reach_of_terms fs (terms_of p.entry) ≤ n → reach_of_terms fs (terms_of q.entry) ≤ n → reach_of_terms fs v.items ≤ n) }
{
    let mut sum = copy_terms(alloc, q, p.len())?;
    add_terms(&mut sum, p)?;
    Ok(sum)
}

/// The terms of the difference of `p` and `q`.
pub fn difference_terms(alloc: Global, p: Terms<'_>, q: Terms<'_>) -> Result<TermList, AllocError>
    requires first { AreTerms (terms_of p) }
    requires second { AreTerms (terms_of q) }
    ensures value { IfOk result (λ v. (fs : List Normal) → polynomial_form fs v.items ≡ total (polynomial_form fs (terms_of p.entry)) (negation (polynomial_form fs (terms_of q.entry)))) }
    ensures terms { IfOk result (λ v. AreTerms v.items) }
    ensures reach { IfOk result (λ v. (fs : List Normal) (n : ℕ) → reach_of_terms fs (terms_of p.entry) ≤ n → reach_of_terms fs (terms_of q.entry) ≤ n → reach_of_terms fs v.items ≤ n) }
{
    let mut difference = negated_terms(alloc, q, p.len())?;
    add_terms(&mut difference, p)?;
    Ok(difference)
}
