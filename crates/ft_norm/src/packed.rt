//! Packs terms whose atoms have small numbers into 20 bytes.
ghost use Rattle.std.specs.Prelude.{◌≡◌, Decides, IfOk, length, map};
ghost use Rattle.ft_norm.specs.Packing.{ArePacked, AreSmall, HaveSmall, IsPacked, unpacked};

use crate::entry::{Atoms, Term};
use std::alloc::{AllocError, Global};

/// The smallest number of an atom that does not fit a packed term.
const LARGE: u32 = 1 << 24;

/// A term whose atoms have numbers below 2^24: the first three atoms, each with a byte of the last atom in its top
/// bits, and the two halves of the coefficient.
#[derive(Clone, Copy, PartialEq, Eq, Hash)]
pub struct PackedTerm {
    first: u32,
    second: u32,
    third: u32,
    high: u32,
    low: u32,
}

impl PackedTerm {
    /// Packs a term.
    #[inline]
    fn of(term: Term) -> PackedTerm
        requires { AreSmall term.atoms }
        ensures same { unpacked result ≡ term }
        ensures packed { IsPacked result }
    {
        let [first, second, third, last] = term.atoms;
        PackedTerm {
            first: first + LARGE * (last % 256),
            second: second + LARGE * (last / 256 % 256),
            third: third + LARGE * (last / 65_536),
            high: (term.coefficient >> 32) as u32,
            low: (term.coefficient % (1 << 32)) as u32,
        }
    }

    /// The term that it represents.
    #[inline]
    pub fn full(self) -> Term
        ensures { result ≡ unpacked self }
    {
        let last = self.first / LARGE + 256 * (self.second / LARGE) + 65_536 * (self.third / LARGE);
        Term {
            atoms: [
                self.first % LARGE,
                self.second % LARGE,
                self.third % LARGE,
                last,
            ],
            coefficient: u64::from(self.high) << 32 | u64::from(self.low),
        }
    }
}

/// Whether each of these numbers is below 2^24.
fn are_small(atoms: Atoms) -> bool
    ensures { Decides result (AreSmall atoms) }
{
    let [a, b, c, d] = atoms;
    a < LARGE && b < LARGE && c < LARGE && d < LARGE
}

/// Whether each atom of these terms has a number below 2^24.
pub fn have_small(terms: &[Term]) -> bool
    ensures { Decides result (HaveSmall terms.now) }
{
    for term in terms {
        if !are_small(term.atoms) {
            return false;
        }
    }
    true
}

/// Packs these terms.
pub fn packed(alloc: Global, terms: &[Term]) -> Result<Vec<PackedTerm>, AllocError>
    requires { HaveSmall terms.now }
    ensures same { IfOk result (λ v. map unpacked v.items ≡ terms.now) }
    ensures packed { IfOk result (λ v. ArePacked v.items) }
{
    let mut list = Vec::with_capacity(alloc, terms.len())?;
    for term in terms {
        list.push(PackedTerm::of(*term))?;
    }
    Ok(list)
}
