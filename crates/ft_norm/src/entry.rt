//! Entries: how an interner keeps normal forms. A part that is itself a form is identified by its number. Terms are
//! ordered by these numbers, so comparing two terms never looks into the forms that they refer to.
ghost use Rattle.std.specs.Prelude.{◌≡◌, List, [], ◌∷◌, IfSome, true};
ghost use Rattle.ft_static.specs.Form.{Form as Normal, integer_form};
ghost use Rattle.ft_static.specs.NormalForm.{constant};
ghost use Rattle.ft_norm.specs.Entries.{entry_form, full, polynomial_form, size};

use crate::packed::PackedTerm;
use ft_static::Shape;
use smallvec::SmallVec;

/// The maximum number of monomials in a polynomial.
pub const MONOMIALS: usize = 64;

/// The maximum number of atoms in a monomial.
pub const ATOMS: usize = 4;

/// The atoms of a monomial, in increasing order of their numbers, padded with zeros in front. The atom that is entry k
/// has the number k + 1.
pub type Atoms = [u32; ATOMS];

/// How many atoms there are, not counting zeros.
#[inline]
pub fn degree(atoms: Atoms) -> usize
    ensures { result ≡ size atoms }
{
    atoms.iter().filter(|atom| **atom != 0).count()
}

/// A monomial, given by its atoms, and its coefficient.
#[derive(Clone, Copy, Default, PartialEq, Eq, Hash)]
pub struct Term {
    pub atoms: Atoms,
    pub coefficient: u64,
}

/// Terms of a polynomial that is being computed. Up to 4 need no memory of their own.
pub type TermList = SmallVec<Term, 4>;

/// A term of at most one atom.
#[derive(Clone, Copy, Default, PartialEq, Eq, Hash)]
pub struct LinearTerm {
    pub atom: u32,
    pub coefficient: u64,
}

impl LinearTerm {
    /// The term that it represents.
    #[inline]
    pub fn full(self) -> Term
        ensures { result ≡ full self }
    {
        Term {
            atoms: [0, 0, 0, self.atom],
            coefficient: self.coefficient,
        }
    }
}

/// A form: an atom with the coefficient 1, as a node over the forms of its parts; the terms of any other polynomial in
/// increasing order (`Linear` if each has at most one atom, else `Packed` if their atoms have small numbers, else
/// `Full`); the memory variable; or an update of an older entry. An atom and a constant need no memory of their own.
#[derive(Drop, PartialEq, Eq, Hash)]
pub enum Entry {
    Atom(Shape),
    Linear(SmallVec<LinearTerm, 1>),
    Packed(Vec<PackedTerm>),
    Full(Vec<Term>),
    Unchanged,
    Update { at: u32, value: u32, older: u32 },
}

/// Whether an entry is that of the word `w`. `false` proves nothing.
pub fn is_word(entry: &Entry, w: u64) -> bool
    ensures { (fs : List Normal) → result ≡ true → entry_form fs entry.now ≡ integer_form (constant w) }
{
    match entry {
        Entry::Linear(terms) => match terms.as_slice() {
            [term] if term.atom == 0 => term.coefficient == w,
            _ => false,
        },
        _ => false,
    }
}

/// The coefficient of a term without an atom.
fn word_of_term(term: LinearTerm) -> Option<u64>
    ensures { (fs : List Normal) → IfSome result (λ w. polynomial_form fs (full term ∷ []) ≡ constant w) }
{
    if term.atom == 0 {
        Some(term.coefficient)
    } else {
        None
    }
}

/// The word of an entry that has one term and no atom. `None` proves nothing.
pub fn word_of(entry: &Entry) -> Option<u64>
    ensures { (fs : List Normal) → IfSome result (λ w. entry_form fs entry.now ≡ integer_form (constant w)) }
{
    match entry {
        Entry::Linear(terms) => match terms.as_slice() {
            [term] => word_of_term(*term),
            _ => None,
        },
        _ => None,
    }
}
