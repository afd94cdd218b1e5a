//! Builds the entry of a polynomial from its terms.
ghost use Rattle.std.specs.Prelude.{◌≡◌, ◌≢◌, ◌+◌, ◌≤◌, ℕ, List, IfNone, IfOk, IfSome, [], ◌∷◌, length, map};
ghost use Rattle.ft_static.specs.Form.{Form as Normal, integer_form};
ghost use Rattle.ft_norm.specs.Entries.{IsCanonical, alone_term, entry_form, full, greatest, polynomial_form, reach_of_entry, reach_of_terms};
ghost use Rattle.ft_norm.specs.Orders.{AreTerms};

use crate::entry::{Entry, LinearTerm, Term};
use crate::packed::{have_small, packed};
use crate::terms::{Terms, degree_of};
use smallvec::SmallVec;
use std::alloc::{AllocError, Global};

/// The number of the entry for these terms, if they are one atom with the coefficient 1.
pub fn place_of_atom(terms: &[Term]) -> Option<u32>
    requires { AreTerms terms.now }
    ensures atom { IfSome result (λ k. terms.now ≡ alone_term (k + 1) ∷ []) }
    ensures other { IfNone result ((k : ℕ) → terms.now ≢ alone_term (k + 1) ∷ []) }
{
    match terms {
        [term] => place_of_one(*term),
        _ => None,
    }
}

/// Likewise for one term.
fn place_of_one(term: Term) -> Option<u32>
    requires { AreTerms (term ∷ []) }
    ensures atom { IfSome result (λ k. term ≡ alone_term (k + 1)) }
    ensures other { IfNone result ((k : ℕ) → term ≢ alone_term (k + 1)) }
{
    let [_, _, more, atom] = term.atoms;
    if term.coefficient != 1 {
        return None;
    }
    if more != 0 {
        return None;
    }
    atom.checked_sub(1)
}

/// These terms as linear terms. Each has at most one atom.
fn linear(alloc: Global, terms: &[Term]) -> Result<SmallVec<LinearTerm, 1>, AllocError>
    requires terms { AreTerms terms.now }
    requires degree { greatest terms.now ≤ 1 }
    ensures { IfOk result (λ v. map full v.items ≡ terms.now) }
{
    let mut list = SmallVec::with_capacity(alloc, terms.len())?;
    for term in terms {
        let [_, _, _, atom] = term.atoms;
        list.push(LinearTerm {
            atom,
            coefficient: term.coefficient,
        })?;
    }
    Ok(list)
}

/// The entry for these terms, which are not one atom with the coefficient 1.
pub fn entry_of(alloc: Global, terms: &[Term]) -> Result<Entry, AllocError>
    requires terms { AreTerms terms.now }
    requires count { length terms.now ≤ 64 }
    requires other { (k : ℕ) → terms.now ≢ alone_term (k + 1) ∷ [] }
    ensures form { IfOk result (λ e. (fs : List Normal) → entry_form fs e ≡ integer_form (polynomial_form fs terms.now)) }
    ensures reach { IfOk result (λ e. (fs : List Normal) → reach_of_entry fs e ≡ reach_of_terms fs terms.now) }
    ensures canonical { IfOk result IsCanonical }
{
    if degree_of(Terms::Full(terms)) <= 1 {
        let list = linear(alloc, terms)?;
        return Ok(Entry::Linear(list));
    }
    if have_small(terms) {
        let list = packed(alloc, terms)?;
        return Ok(Entry::Packed(list));
    }
    let list = Vec::from_slice(alloc, terms)?;
    Ok(Entry::Full(list))
}
