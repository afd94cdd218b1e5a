//! The premises that need no new form: each is one of the definitions from which the typing rows are built.
ghost use Rattle.std.specs.Prelude.{◌≡◌, ◌<◌, IfOk, IsTrue, OnOk, List, ℕ, drop, length};
ghost use Rattle.ft_static.specs.Form.{Form as Normal, Polynomial};
ghost use Rattle.ft_norm.specs.Held.{IsInteger, polynomial};
ghost use Rattle.ft_typing.specs.Context.{FormPair, Typed, typed};
ghost use Rattle.ft_types.specs.Spellable.{IsBase};
ghost use Rattle.ft_typing.specs.RowWords.{Outcome, for_code, for_conditional, for_oldest, for_ref, for_target, for_typed, for_zero, need};
ghost use Rattle.ft_types.specs.declared.object.Object.{Object};
ghost use Rattle.ft_contexts.specs.Contexts.{HoldsForms, NamesTypes, context_in, pair_in, pending_count, typed_in};
ghost use Rattle.ft_rules.specs.Answers.{Passes};

use crate::why::RuleError;
use ft_contexts::{Context, RegForm, StateD};
use ft_isa::{Base, Basic, Reg};
use ft_norm::Form;
use ft_typing::Why;

/// A premise that is a test.
#[tactic(auto, unfolding(ft_typing::specs::RowWords::need))]
pub fn need(why: Why, holds: bool) -> Result<(), RuleError>
    ensures passes { (next : Outcome) → Passes (need why holds next) (λ _. next) result }
    ensures holds { OnOk result (IsTrue holds) }
{
    if holds {
        Ok(())
    } else {
        Err(RuleError::Refused(why))
    }
}

/// What is known of a register that is read.
#[tactic(auto, unfolding(ft_typing::specs::RowWords::for_typed))]
pub fn typed(context: &Context, r: Reg) -> Result<RegForm, RuleError>
    ensures passes { (fs : List Normal) (next : Typed → Outcome) → Passes (for_typed (typed (context_in fs context.now) r.number) next) (λ s. next (typed_in fs s)) result }
    ensures held { (fs : List Normal) → HoldsForms fs context.now → IfOk result (λ s. IsInteger fs s.form) }
    ensures types { (o : Object) → NamesTypes o context.now → IfOk result (λ s. IsBase (length o.types) s.basic.base) }
{
    match context.reg(r) {
        Some(known) => Ok(known),
        None => Err(RuleError::Refused(Why::Untyped)),
    }
}

/// The basic type to which a `ref` refers.
#[tactic(auto, unfolding(ft_typing::specs::RowWords::for_ref_over))]
pub fn referred(basic: Basic) -> Result<Basic, RuleError>
    ensures passes { (next : Basic → Outcome) → Passes (for_ref basic next) next result }
    ensures base { IfOk result (λ b. b.base ≡ basic.base) }
{
    if basic.refs == 0 {
        return Err(RuleError::Refused(Why::NotRef));
    }
    Ok(Basic {
        refs: basic.refs - 1,
        base: basic.base,
    })
}

/// The code type that the basic type of a code address names.
#[tactic(auto, unfolding(ft_typing::specs::RowWords::for_code_over))]
pub fn code_type(basic: Basic) -> Result<u16, RuleError>
    ensures passes { (next : ℕ → Outcome) → Passes (for_code basic next) next result }
    ensures named { (types : ℕ) → IsBase types basic.base → IfOk result (λ t. t < types) }
{
    if basic.refs != 0 {
        return Err(RuleError::Refused(Why::NotCode));
    }
    match basic.base {
        Base::Int => Err(RuleError::Refused(Why::NotCode)),
        Base::Code(t) => Ok(t),
    }
}

/// Passes if d is 0.
#[tactic(auto, unfolding(ft_typing::specs::RowWords::for_zero))]
pub fn zero(context: &Context) -> Result<(), RuleError>
    ensures { (fs : List Normal) (next : Outcome) → Passes (for_zero (context_in fs context.now).d next) (λ _. next) result }
{
    match context.d() {
        StateD::Zero => Ok(()),
        _ => Err(RuleError::Refused(Why::StateOfD)),
    }
}

/// The code type and the form of d, if d is a target.
#[tactic(auto, unfolding(ft_typing::specs::RowWords::for_target))]
pub fn target(context: &Context) -> Result<(u16, Form), RuleError>
    ensures passes { (fs : List Normal) (next : ℕ → Polynomial → Outcome) → Passes (for_target (context_in fs context.now).d next) (λ x. next x.0 (polynomial fs x.1)) result }
    ensures held { (fs : List Normal) → HoldsForms fs context.now → IfOk result (λ x. IsInteger fs x.1) }
{
    match context.d() {
        StateD::Code { code_type, form } => Ok((code_type, form)),
        _ => Err(RuleError::Refused(Why::StateOfD)),
    }
}

/// The test, the code type and the form of d, if a test decides whether d is a target or 0.
#[tactic(auto, unfolding(ft_typing::specs::RowWords::for_conditional))]
pub fn conditional(context: &Context) -> Result<(Form, u16, Form), RuleError>
    ensures passes { (fs : List Normal) (next : Polynomial → ℕ → Polynomial → Outcome) → Passes (for_conditional (context_in fs context.now).d next) (λ x. next (polynomial fs x.0) x.1 (polynomial fs x.2)) result }
    ensures held { (fs : List Normal) → HoldsForms fs context.now → IfOk result (λ x. IsInteger fs x.0 × IsInteger fs x.2) }
{
    match context.d() {
        StateD::Conditional {
            test,
            code_type,
            form,
        } => Ok((test, code_type, form)),
        _ => Err(RuleError::Refused(Why::StateOfD)),
    }
}

/// The oldest pair of the static queue.
#[tactic(auto, unfolding(ft_typing::specs::RowWords::for_oldest))]
pub fn oldest(context: &Context) -> Result<(Form, Form), RuleError>
    ensures passes { (fs : List Normal) (next : FormPair → List FormPair → Outcome) → Passes (for_oldest (context_in fs context.now).queue next) (λ e. next (pair_in fs e) (drop 1 (context_in fs context.now).queue)) result }
    ensures held { (fs : List Normal) → HoldsForms fs context.now → IfOk result (λ e. IsInteger fs e.0 × IsInteger fs e.1) }
    ensures some { IfOk result (λ _. 0 < pending_count context.now) }
{
    if context.queue_len() == 0 {
        return Err(RuleError::Refused(Why::QueueEmpty));
    }
    Ok(context.queue_at(0))
}
