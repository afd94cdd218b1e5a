//! Left operands that wait for their right ones.
ghost use Rattle.std.specs.Prelude.{◌≡◌, Some, None, IfOk, OnOk, IfErr, option_map};
ghost use Rattle.ft_syntax.specs.Plain.{operation as operation_of};
ghost use Rattle.ft_syntax.specs.Machine.{empty, close, push, product_of, sum_of, shift_of, bits_of, less_of, join, join_signed};
ghost use Rattle.ft_syntax.specs.View.{expression, waiting, signed, kind_of};

use crate::expr::Expr;
use crate::operator::Operator;
use crate::source_error::SourceError;
use crate::spot::Spot;
use ft_isa::Op;
use std::alloc::Global;

/// The left operands that wait for their right ones, the loosest operator first.
#[derive(Drop)]
pub struct Pending<'a> {
    equal: Option<Expr<Spot<'a>>>,
    less: Option<Expr<Spot<'a>>>,
    bits: Option<(Op, Expr<Spot<'a>>)>,
    shift: Option<(Op, Expr<Spot<'a>>)>,
    sum: Option<(Op, Expr<Spot<'a>>)>,
    product: Option<Expr<Spot<'a>>>,
}

impl<'a> Pending<'a> {
    /// The start of an expression, where nothing waits.
    pub fn new() -> Pending<'a>
        ensures { waiting result ≡ empty }
    {
        Pending {
            equal: None,
            less: None,
            bits: None,
            shift: None,
            sum: None,
            product: None,
        }
    }

    /// Takes the product that ends with an operand.
    fn take_product(
        &mut self,
        alloc: Global,
        a: Expr<Spot<'a>>,
    ) -> Result<Expr<Spot<'a>>, SourceError>
        ensures ok { IfOk result (λ e. expression e ≡ product_of (waiting self.old) (expression a.entry)) }
        ensures left { OnOk result (waiting self.new ≡ record { equal = (waiting self.old).equal; less = (waiting self.old).less; bits = (waiting self.old).bits; shift = (waiting self.old).shift; sum = (waiting self.old).sum; product = None }) }
        ensures err { IfErr result (λ e. e ≡ SourceError.NoMemory) }
    {
        join(alloc, Op::Mul, self.product.take(), a)
    }

    /// Takes the sum that ends with an operand.
    fn take_sum(&mut self, alloc: Global, a: Expr<Spot<'a>>) -> Result<Expr<Spot<'a>>, SourceError>
        ensures ok { IfOk result (λ e. expression e ≡ sum_of (waiting self.old) (expression a.entry)) }
        ensures left { OnOk result (waiting self.new ≡ record { equal = (waiting self.old).equal; less = (waiting self.old).less; bits = (waiting self.old).bits; shift = (waiting self.old).shift; sum = None; product = None }) }
        ensures err { IfErr result (λ e. e ≡ SourceError.NoMemory) }
    {
        let a = self.take_product(alloc, a)?;
        join_signed(alloc, self.sum.take(), a)
    }

    /// Takes the shift that ends with an operand.
    fn take_shift(
        &mut self,
        alloc: Global,
        a: Expr<Spot<'a>>,
    ) -> Result<Expr<Spot<'a>>, SourceError>
        ensures ok { IfOk result (λ e. expression e ≡ shift_of (waiting self.old) (expression a.entry)) }
        ensures left { OnOk result (waiting self.new ≡ record { equal = (waiting self.old).equal; less = (waiting self.old).less; bits = (waiting self.old).bits; shift = None; sum = None; product = None }) }
        ensures err { IfErr result (λ e. e ≡ SourceError.NoMemory) }
    {
        let a = self.take_sum(alloc, a)?;
        join_signed(alloc, self.shift.take(), a)
    }

    /// Takes the operation on bits that ends with an operand.
    fn take_bits(&mut self, alloc: Global, a: Expr<Spot<'a>>) -> Result<Expr<Spot<'a>>, SourceError>
        ensures ok { IfOk result (λ e. expression e ≡ bits_of (waiting self.old) (expression a.entry)) }
        ensures left { OnOk result (waiting self.new ≡ record { equal = (waiting self.old).equal; less = (waiting self.old).less; bits = None; shift = None; sum = None; product = None }) }
        ensures err { IfErr result (λ e. e ≡ SourceError.NoMemory) }
    {
        let a = self.take_shift(alloc, a)?;
        join_signed(alloc, self.bits.take(), a)
    }

    /// Takes the comparison by `<` that ends with an operand.
    fn take_less(&mut self, alloc: Global, a: Expr<Spot<'a>>) -> Result<Expr<Spot<'a>>, SourceError>
        ensures ok { IfOk result (λ e. expression e ≡ less_of (waiting self.old) (expression a.entry)) }
        ensures left { OnOk result (waiting self.new ≡ record { equal = (waiting self.old).equal; less = None; bits = None; shift = None; sum = None; product = None }) }
        ensures err { IfErr result (λ e. e ≡ SourceError.NoMemory) }
    {
        let a = self.take_bits(alloc, a)?;
        join(alloc, Op::Ltu, self.less.take(), a)
    }

    /// Takes the whole expression that ends with an operand.
    fn take_equal(
        &mut self,
        alloc: Global,
        a: Expr<Spot<'a>>,
    ) -> Result<Expr<Spot<'a>>, SourceError>
        ensures ok { IfOk result (λ e. expression e ≡ close (waiting self.old) (expression a.entry)) }
        ensures left { OnOk result (waiting self.new ≡ empty) }
        ensures err { IfErr result (λ e. e ≡ SourceError.NoMemory) }
    {
        let a = self.take_less(alloc, a)?;
        join(alloc, Op::Eq, self.equal.take(), a)
    }

    /// The whole expression, given its last operand.
    pub fn close(mut self, alloc: Global, a: Expr<Spot<'a>>) -> Result<Expr<Spot<'a>>, SourceError>
        ensures ok { IfOk result (λ e. expression e ≡ close (waiting self.entry) (expression a.entry)) }
        ensures err { IfErr result (λ e. e ≡ SourceError.NoMemory) }
    {
        self.take_equal(alloc, a)
    }

    /// Notes an operand and the operator after it.
    pub fn push(
        &mut self,
        alloc: Global,
        a: Expr<Spot<'a>>,
        operator: Operator,
    ) -> Result<(), SourceError>
        ensures ok { OnOk result (push (kind_of operator) (waiting self.old) (expression a.entry) ≡ Some (waiting self.new)) }
        ensures err { IfErr result (λ e. e ≡ SourceError.NoMemory) }
    {
        match operator {
            Operator::Star => self.product = Some(self.take_product(alloc, a)?),
            Operator::Plus => self.sum = Some((Op::Add, self.take_sum(alloc, a)?)),
            Operator::Minus => self.sum = Some((Op::Sub, self.take_sum(alloc, a)?)),
            Operator::Up => self.shift = Some((Op::Shl, self.take_shift(alloc, a)?)),
            Operator::Down => self.shift = Some((Op::Shr, self.take_shift(alloc, a)?)),
            Operator::And => self.bits = Some((Op::And, self.take_bits(alloc, a)?)),
            Operator::Or => self.bits = Some((Op::Or, self.take_bits(alloc, a)?)),
            Operator::Xor => self.bits = Some((Op::Xor, self.take_bits(alloc, a)?)),
            Operator::Less => self.less = Some(self.take_less(alloc, a)?),
            Operator::Equal => self.equal = Some(self.take_equal(alloc, a)?),
        }
        Ok(())
    }
}

/// The operation, or only its right operand if no left one waits.
fn join<'a>(
    alloc: Global,
    op: Op,
    left: Option<Expr<Spot<'a>>>,
    right: Expr<Spot<'a>>,
) -> Result<Expr<Spot<'a>>, SourceError>
    ensures ok { IfOk result (λ e. expression e ≡ join op (option_map expression left.entry) (expression right.entry)) }
    ensures err { IfErr result (λ e. e ≡ SourceError.NoMemory) }
{
    match left {
        None => Ok(right),
        Some(left) => operation(alloc, op, left, right),
    }
}

/// An operation on two operands.
fn operation<'a>(
    alloc: Global,
    op: Op,
    left: Expr<Spot<'a>>,
    right: Expr<Spot<'a>>,
) -> Result<Expr<Spot<'a>>, SourceError>
    ensures ok { IfOk result (λ e. expression e ≡ operation_of op (expression left.entry) (expression right.entry)) }
    ensures err { IfErr result (λ e. e ≡ SourceError.NoMemory) }
{
    let Ok(a) = Box::new(alloc, left) else {
        return Err(SourceError::NoMemory);
    };
    let Ok(b) = Box::new(alloc, right) else {
        return Err(SourceError::NoMemory);
    };
    Ok(Expr::Op { op, a, b })
}

/// The operation that waits with its left operand, or only the right operand if none waits.
fn join_signed<'a>(
    alloc: Global,
    left: Option<(Op, Expr<Spot<'a>>)>,
    right: Expr<Spot<'a>>,
) -> Result<Expr<Spot<'a>>, SourceError>
    ensures ok { IfOk result (λ e. expression e ≡ join_signed (option_map signed left.entry) (expression right.entry)) }
    ensures err { IfErr result (λ e. e ≡ SourceError.NoMemory) }
{
    match left {
        None => Ok(right),
        Some((op, left)) => operation(alloc, op, left, right),
    }
}
