//! How an interner makes the forms of operations.
ghost use Rattle.std.specs.Prelude.{◌≡◌, IfOk, Some};
ghost use Rattle.ft_static.specs.Form.{integer_form};
ghost use Rattle.ft_static.specs.NormalForm.{norm_add, norm_folded, norm_mul, norm_sub};
ghost use Rattle.ft_norm.specs.Held.{IsInteger, Keeps, held, polynomial};

use crate::entry::MONOMIALS;
use crate::form::Form;
use crate::interner::Interner;
use crate::product::{is_small, product_terms};
use crate::sum::{difference_terms, negated_terms, sum_terms};
use crate::walk::constant_in;
use ft_isa::{Op, apply};
use ft_static::Shape;
use std::alloc::AllocError;

impl Interner {
    /// The form of a sum. If one operand is 0, it is that of the other operand.
    pub(crate) fn add(&mut self, a: Form, b: Form) -> Result<Form, AllocError>
        requires first { IsInteger self.old a }
        requires second { IsInteger self.old b }
        ensures kept { Keeps self.old self.new }
        ensures form { IfOk result (λ f. held self.new f ≡ Some (integer_form (norm_add (polynomial self.old a) (polynomial self.old b)))) }
    {
        let p = self.terms(a);
        let q = self.terms(b);
        if q.is_empty() {
            return Ok(a);
        }
        if p.is_empty() {
            return Ok(b);
        }
        let sum = sum_terms(self.alloc, p, q)?;
        if sum.len() <= MONOMIALS {
            return self.integer(sum.as_slice());
        }
        self.alone(Shape::Op {
            op: Op::Add,
            a: a.0,
            b: b.0,
        })
    }

    /// The form of a difference. The negation of `b` is interned only if the result is an atom that refers to it.
    pub(crate) fn sub(&mut self, a: Form, b: Form) -> Result<Form, AllocError>
        requires first { IsInteger self.old a }
        requires second { IsInteger self.old b }
        ensures kept { Keeps self.old self.new }
        ensures form { IfOk result (λ f. held self.new f ≡ Some (integer_form (norm_sub (polynomial self.old a) (polynomial self.old b)))) }
    {
        let p = self.terms(a);
        let q = self.terms(b);
        if q.is_empty() {
            return Ok(a);
        }
        let difference = difference_terms(self.alloc, p, q)?;
        if difference.len() <= MONOMIALS {
            return self.integer(difference.as_slice());
        }
        let negated = negated_terms(self.alloc, q, 0)?;
        let negation = self.integer(negated.as_slice())?;
        self.alone(Shape::Op {
            op: Op::Add,
            a: a.0,
            b: negation.0,
        })
    }

    /// The form of a product.
    pub(crate) fn mul(&mut self, a: Form, b: Form) -> Result<Form, AllocError>
        requires first { IsInteger self.old a }
        requires second { IsInteger self.old b }
        ensures kept { Keeps self.old self.new }
        ensures form { IfOk result (λ f. held self.new f ≡ Some (integer_form (norm_mul (polynomial self.old a) (polynomial self.old b)))) }
    {
        let p = self.terms(a);
        let q = self.terms(b);
        if !is_small(p, q) {
            return self.alone(Shape::Op {
                op: Op::Mul,
                a: a.0,
                b: b.0,
            });
        }
        let product = product_terms(self.alloc, p, q)?;
        self.integer(product.as_slice())
    }

    /// The form of any other operation: its result if both operands are constants, else an atom.
    pub(crate) fn folded(&mut self, op: Op, a: Form, b: Form) -> Result<Form, AllocError>
        requires first { IsInteger self.old a }
        requires second { IsInteger self.old b }
        ensures kept { Keeps self.old self.new }
        ensures form { IfOk result (λ f. held self.new f ≡ Some (integer_form (norm_folded op (polynomial self.old a) (polynomial self.old b)))) }
    {
        let c = constant_in(self.terms(a));
        let d = constant_in(self.terms(b));
        match (c, d) {
            (Some(c), Some(d)) => self.constant(apply(op, c, d)),
            _ => self.alone(Shape::Op { op, a: a.0, b: b.0 }),
        }
    }
}
