//! Products of polynomials.
ghost use Rattle.std.specs.Prelude.{◌≡◌, ◌<◌, ◌≤◌, ◌+◌, ◌*◌, ◌&&◌, nat_le, ℕ, List, ◌∷◌, length, IfOk, true};
ghost use Rattle.ft_static.specs.Form.{Form as Normal, nought, terms};
ghost use Rattle.ft_static.specs.NormalForm.{add_multiple as sum_with_multiple, add_products, degree, join};
ghost use Rattle.ft_norm.specs.Entries.{greatest, monomial_form, polynomial_form, reach_of_atoms, reach_of_terms, size};
ghost use Rattle.ft_norm.specs.Orders.{AreTerms, IsMonomial};
ghost use Rattle.ft_norm.specs.Terms.{AreOver, terms_of};

use crate::entry::{ATOMS, Atoms, MONOMIALS, Term, TermList};
use crate::sum::add_term;
use crate::terms::{Terms, degree_of};
use smallvec::SmallVec;
use std::alloc::{AllocError, Global};

/// Inserts an atom into a monomial, in order. The number 0 is not an atom and changes nothing.
#[inline]
fn with_atom(atoms: Atoms, atom: u32) -> Atoms
    requires monomial { IsMonomial atoms }
    requires room { size (atom ∷ atoms) ≤ 4 }
    ensures value { (fs : List Normal) → monomial_form fs result ≡ monomial_form fs (atom ∷ atoms) }
    ensures monomial { IsMonomial result }
    ensures size { size result ≡ size (atom ∷ atoms) }
    ensures reach { (fs : List Normal) → reach_of_atoms fs result ≡ reach_of_atoms fs (atom ∷ atoms) }
{
    if atom == 0 {
        return atoms;
    }
    let [_, x, y, z] = atoms;
    if atom <= x {
        return [atom, x, y, z];
    }
    if atom <= y {
        return [x, atom, y, z];
    }
    if atom <= z {
        return [x, y, atom, z];
    }
    [x, y, z, atom]
}

/// The atoms of the product of two monomials.
fn joined(m: Atoms, n: Atoms) -> Atoms
    requires first { IsMonomial m }
    requires second { IsMonomial n }
    requires room { size m + size n ≤ 4 }
    ensures value { (fs : List Normal) → monomial_form fs result ≡ join (monomial_form fs m) (monomial_form fs n) }
    ensures monomial { IsMonomial result }
    ensures reach { (fs : List Normal) (k : ℕ) → reach_of_atoms fs m ≤ k → reach_of_atoms fs n ≤ k → reach_of_atoms fs result ≤ k }
{
    let [a, b, c, d] = m;
    let product = with_atom(n, d);
    let product = with_atom(product, c);
    let product = with_atom(product, b);
    with_atom(product, a)
}

/// Adds the product of `t` and each of `terms` to `sum`.
fn add_multiple(sum: &mut TermList, t: Term, terms: Terms<'_>) -> Result<(), AllocError>
    requires sum { AreTerms sum.old.items }
    requires term { IsMonomial t.atoms }
    requires terms { AreTerms (terms_of terms) }
    requires room { size t.atoms + greatest (terms_of terms) ≤ 4 }
    ensures value { IfOk result (λ _. (fs : List Normal) → polynomial_form fs sum.new.items ≡ sum_with_multiple (monomial_form fs t.atoms) t.coefficient (polynomial_form fs (terms_of terms.entry)) (polynomial_form fs sum.old.items)) }
    ensures terms { AreTerms sum.new.items }
    ensures reach { (fs : List Normal) (n : ℕ) → reach_of_terms fs sum.old.items ≤ n → reach_of_atoms fs t.atoms ≤ n → reach_of_terms fs (terms_of terms.entry) ≤ n → reach_of_terms fs sum.new.items ≤ n }
    ensures count { length sum.new.items ≤ length sum.old.items + length (terms_of terms.entry) }
{
    for i in 0..terms.len() {
        let u = terms.term(i);
        let atoms = joined(t.atoms, u.atoms);
        add_term(sum, atoms, t.coefficient.wrapping_mul(u.coefficient))?;
    }
    Ok(())
}

/// The terms of the product of two polynomials.
pub fn product_terms(alloc: Global, p: Terms<'_>, q: Terms<'_>) -> Result<TermList, AllocError>
    requires first { AreTerms (terms_of p) }
    requires second { AreTerms (terms_of q) }
    requires room { greatest (terms_of p) + greatest (terms_of q) ≤ 4 }
    ensures value { IfOk result (λ v. (fs : List Normal) → polynomial_form fs v.items ≡ add_products (polynomial_form fs (terms_of p.entry)) (polynomial_form fs (terms_of q.entry)) nought) }
    ensures terms { IfOk result (λ v. AreTerms v.items) }
    ensures reach { IfOk result (λ v. (fs : List Normal) (n : ℕ) → reach_of_terms fs (terms_of p.entry) ≤ n → reach_of_terms fs (terms_of q.entry) ≤ n → reach_of_terms fs v.items ≤ n) }
    ensures count { IfOk result (λ v. length v.items ≤ length (terms_of p.entry) * length (terms_of q.entry)) }
{
    let mut sum = SmallVec::new(alloc);
    for i in 0..p.len() {
        let t = p.term(i);
        add_multiple(&mut sum, t, q)?;
    }
    Ok(sum)
}

/// Whether the product of `p` and `q`, before like terms are combined, is within the limits on monomials and atoms.
pub fn is_small(p: Terms<'_>, q: Terms<'_>) -> bool
    ensures exact { (fs : List Normal) → AreOver fs (terms_of p.entry) → AreOver fs (terms_of q.entry) → result ≡ (nat_le (terms (polynomial_form fs (terms_of p.entry)) * terms (polynomial_form fs (terms_of q.entry))) 64 && nat_le (degree (polynomial_form fs (terms_of p.entry)) + degree (polynomial_form fs (terms_of q.entry))) 4) }
    ensures room { result ≡ true → greatest (terms_of p.entry) + greatest (terms_of q.entry) ≤ 4 }
    ensures count { result ≡ true → length (terms_of p.entry) * length (terms_of q.entry) ≤ 64 }
{
    if p.len().saturating_mul(q.len()) > MONOMIALS {
        return false;
    }
    degree_of(p).saturating_add(degree_of(q)) <= ATOMS
}
