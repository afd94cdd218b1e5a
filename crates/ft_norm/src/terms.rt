//! The terms of an entry, however it keeps them.
ghost use Rattle.std.specs.Prelude.{◌≡◌, ◌+◌, ◌<◌, ◌≤◌, ◌==◌, length, slice_index_or};
ghost use Rattle.ft_norm.specs.Held.{polynomial_at};
ghost use Rattle.ft_norm.specs.Entries.{AreEntries, forms_of, greatest, polynomial_form, reach_of_terms};
ghost use Rattle.ft_norm.specs.Orders.{AreTerms};
ghost use Rattle.ft_norm.specs.Terms.{IsView, terms_of};

use crate::entry::{Entry, LinearTerm, Term, degree};
use crate::packed::PackedTerm;

/// The terms of a polynomial: one atom with the coefficient 1, or a list of terms.
#[derive(Clone, Copy)]
pub enum Terms<'a> {
    Atom(u32),
    Linear(&'a [LinearTerm]),
    Packed(&'a [PackedTerm]),
    Full(&'a [Term]),
}

impl<'a> Terms<'a> {
    /// How many terms there are.
    #[inline]
    pub fn len(self) -> usize
        ensures { result ≡ length (terms_of self.entry) }
    {
        match self {
            Terms::Atom(_) => 1,
            Terms::Linear(terms) => terms.len(),
            Terms::Packed(terms) => terms.len(),
            Terms::Full(terms) => terms.len(),
        }
    }

    /// Whether there are no terms.
    #[inline]
    pub fn is_empty(self) -> bool
        ensures { result ≡ (length (terms_of self.entry) == 0) }
    {
        self.len() == 0
    }

    /// The term at index `i`.
    #[inline]
    pub fn term(self, i: usize) -> Term
        requires { i < length (terms_of self) }
        ensures { result ≡ slice_index_or (terms_of self.entry) i result }
    {
        match self {
            Terms::Atom(atom) => Term {
                atoms: [0, 0, 0, atom],
                coefficient: 1,
            },
            Terms::Linear(terms) => terms[i].full(),
            Terms::Packed(terms) => terms[i].full(),
            Terms::Full(terms) => terms[i],
        }
    }
}

/// The terms of entry `i`; a memory's form has none.
#[inline(always)]
pub fn terms_at(entries: &[Entry], i: u32) -> Terms<'_>
    requires named { i < length entries.now }
    requires entries { AreEntries entries.now }
    ensures form { polynomial_form (forms_of entries.now) (terms_of result) ≡ polynomial_at (forms_of entries.now) i }
    ensures terms { AreTerms (terms_of result) }
    ensures reach { reach_of_terms (forms_of entries.now) (terms_of result) ≤ i + 1 }
    ensures count { length (terms_of result) ≤ 64 }
    ensures view { IsView result }
{
    match &entries[i as usize] {
        Entry::Atom(_) => Terms::Atom(i + 1),
        Entry::Linear(terms) => Terms::Linear(terms),
        Entry::Packed(terms) => Terms::Packed(terms),
        Entry::Full(terms) => Terms::Full(terms),
        Entry::Unchanged => Terms::Linear(&[]),
        Entry::Update { .. } => Terms::Linear(&[]),
    }
}

/// The maximum number of atoms in a term.
pub fn degree_of(terms: Terms<'_>) -> usize
    ensures { result ≡ greatest (terms_of terms.entry) }
{
    let mut most: usize = 0;
    for i in 0..terms.len() {
        let term = terms.term(i);
        most = most.max(degree(term.atoms));
    }
    most
}
