//! The need and the weight of statements.
ghost use Rattle.std.specs.Prelude.{◌≡◌, ◌+◌, ◌-◌, ◌^◌, min, max};
ghost use Rattle.ft_syntax.specs.Plain.{none, plain_expression, plain_statement, plain_list};
ghost use Rattle.ft_scope.specs.Size.{same_slot, slot_weight, need, most_need, expression_weight, statements_weight};

use crate::slot::Slot;
use ft_syntax::{Expr, Stmt};

/// The largest need of an expression or of an assignment with an index, in register pairs, and the weight. Both
/// saturate at 2^64 - 1.
#[derive(Clone, Copy)]
pub struct Measure {
    pub need: u64,
    pub weight: u64,
}

impl Measure {
    /// Both parts together: the larger need, and the sum of the weights.
    fn and(self, other: Measure) -> Measure
        ensures need { result.need ≡ max self.need other.need }
        ensures weight { result.weight ≡ min (self.weight + other.weight) (2 ^ 64 - 1) }
    {
        Measure {
            need: self.need.max(other.need),
            weight: self.weight.saturating_add(other.weight),
        }
    }
}

/// The weight of a name that is read or assigned to.
fn weigh_slot(slot: Slot) -> u64
    ensures { result ≡ slot_weight slot }
{
    match slot {
        Slot::Cell(_) => 4,
        Slot::Var(_) => 2,
        Slot::Run { .. } => 4,
    }
}

/// The need and the weight of an expression.
fn measure_expression(e: &Expr<Slot>) -> Measure
    ensures need { result.need ≡ min (need (plain_expression same_slot e.now)) (2 ^ 64 - 1) }
    ensures weight { result.weight ≡ min (expression_weight (plain_expression same_slot e.now)) (2 ^ 64 - 1) }
{
    match e {
        Expr::Literal(_) => Measure { need: 1, weight: 2 },
        Expr::Name(slot) => Measure {
            need: 1,
            weight: weigh_slot(*slot),
        },
        Expr::At { name: _, index } => {
            let index = measure_expression(index);
            Measure {
                need: index.need,
                weight: index.weight.saturating_add(4),
            }
        }
        Expr::Op { op: _, a, b } => {
            let a = measure_expression(a);
            let b = measure_expression(b);
            Measure {
                need: a.need.max(b.need.saturating_add(1)),
                weight: a.weight.saturating_add(b.weight).saturating_add(2),
            }
        }
    }
}

/// The need and the weight of statements.
#[tactic(auto, using(crate::proofs::Measures::nothing_needed, crate::proofs::Measures::nothing_weighed))]
#[cycle(measure)]
pub fn measure_statements(all: &[Stmt<Slot>]) -> Measure
    ensures need { result.need ≡ min (most_need (plain_list same_slot all.now)) (2 ^ 64 - 1) }
    ensures weight { result.weight ≡ min (statements_weight (plain_list same_slot all.now)) (2 ^ 64 - 1) }
{
    let mut whole = Measure { need: 0, weight: 0 };
    for s in all {
        whole = whole.and(measure_statement(s));
    }
    whole
}

/// The need and the weight of a statement.
#[tactic(auto, using(crate::proofs::Forms::forms))]
#[cycle(measure)]
fn measure_statement(s: &Stmt<Slot>) -> Measure
    ensures need { result.need ≡ min (most_need (plain_statement same_slot s.now none)) (2 ^ 64 - 1) }
    ensures weight { result.weight ≡ min (statements_weight (plain_statement same_slot s.now none)) (2 ^ 64 - 1) }
{
    match s {
        Stmt::Assign { to, value } => {
            let value = measure_expression(value);
            Measure {
                need: value.need,
                weight: value.weight.saturating_add(weigh_slot(*to)),
            }
        }
        Stmt::AssignAt {
            to: _,
            index,
            value,
        } => {
            let index = measure_expression(index);
            let value = measure_expression(value);
            Measure {
                need: index.need.max(value.need.saturating_add(1)),
                weight: index.weight.saturating_add(value.weight).saturating_add(4),
            }
        }
        Stmt::While { test, body } => with_branch(measure_expression(test).and(measure_statements(
            body,
        ))),
        Stmt::If { test, yes, no } => {
            let sides = measure_statements(yes).and(measure_statements(no));
            with_branch(measure_expression(test).and(sides))
        }
    }
}

/// The need and weight of a loop or a choice, from those of its parts.
fn with_branch(parts: Measure) -> Measure
    ensures need { result.need ≡ parts.need }
    ensures weight { result.weight ≡ min (parts.weight + 16) (2 ^ 64 - 1) }
{
    Measure {
        need: parts.need,
        weight: parts.weight.saturating_add(16),
    }
}
