//! What typing rows read from a context, and the premises of each read, in order.
ghost use Rattle.std.specs.Prelude.{◌≡◌, ◌<◌, ◌==◌, ◌&&◌, IfOk, List, ℕ, length};
ghost use Rattle.ft_static.specs.Form.{Form as Normal, Polynomial, same_polynomial};
ghost use Rattle.ft_norm.specs.Held.{IsInteger, polynomial};
ghost use Rattle.ft_typing.specs.Context.{Typed, typed};
ghost use Rattle.ft_typing.specs.declared.why.Why.TheVariants as premise;
ghost use Rattle.ft_types.specs.Spellable.{IsBase};
ghost use Rattle.ft_typing.specs.TypedWord.{is_seen_as};
ghost use Rattle.ft_typing.specs.RowWords.{Outcome, for_code, for_ref, for_typed, need, same_colour};
ghost use Rattle.ft_types.specs.declared.object.Object.{Object};
ghost use Rattle.ft_rules.specs.Answers.{Passes};
ghost use Rattle.ft_contexts.specs.Contexts.{HoldsForms, NamesTypes, context_in, typed_in};

use crate::premises::{code_type, need, referred, typed};
use crate::why::RuleError;
use ft_contexts::{Context, RegForm, same_integers};
use ft_isa::{Colour, Reg};
use ft_norm::{Form, Interner};
use ft_typing::{Why, is_seen_as, same_colour};

/// What is known of a register of this colour.
pub fn one(context: &Context, r: Reg, colour: Colour) -> Result<RegForm, RuleError>
    ensures passes { (fs : List Normal) (next : Typed → Outcome)
        → Passes (for_typed (typed (context_in fs context.now) r.number) (λ s. need premise.Colour (same_colour s.colour colour) (next s))) (λ s. next (typed_in fs s)) result }
    ensures held { (fs : List Normal) → HoldsForms fs context.now → IfOk result (λ s. IsInteger fs s.form) }
    ensures types { (o : Object) → NamesTypes o context.now → IfOk result (λ s. IsBase (length o.types) s.basic.base) }
{
    let known = typed(context, r)?;
    need(Why::Colour, same_colour(known.colour, colour))?;
    Ok(known)
}

/// Whether both registers have this colour.
fn are_coloured(a: RegForm, b: RegForm, colour: Colour) -> bool
    ensures { result ≡ (same_colour a.colour colour && same_colour b.colour colour) }
{
    same_colour(a.colour, colour) && same_colour(b.colour, colour)
}

/// What is known of two registers of this colour.
pub fn two(
    context: &Context,
    a: Reg,
    b: Reg,
    colour: Colour,
) -> Result<(RegForm, RegForm), RuleError>
    ensures passes { (fs : List Normal) (next : Typed → Typed → Outcome)
        → Passes (for_typed (typed (context_in fs context.now) a.number) (λ s. for_typed (typed (context_in fs context.now) b.number) (λ t. need premise.Colour (same_colour s.colour colour && same_colour t.colour colour) (next s t)))) (λ x. next (typed_in fs x.0) (typed_in fs x.1)) result }
    ensures held { (fs : List Normal) → HoldsForms fs context.now → IfOk result (λ x. IsInteger fs x.0.form × IsInteger fs x.1.form) }
    ensures types { (o : Object) → NamesTypes o context.now → IfOk result (λ x. IsBase (length o.types) x.1.basic.base) }
{
    let first = typed(context, a)?;
    let second = typed(context, b)?;
    need(Why::Colour, are_coloured(first, second, colour))?;
    Ok((first, second))
}

/// The address and the value of a store of this colour.
pub fn stored(
    context: &Context,
    rd: Reg,
    rs: Reg,
    colour: Colour,
) -> Result<(Form, Form), RuleError>
    ensures passes { (fs : List Normal) (next : Polynomial → Polynomial → Outcome)
        → Passes (for_typed (typed (context_in fs context.now) rd.number) (λ a. for_typed (typed (context_in fs context.now) rs.number) (λ v. need premise.Colour (same_colour a.colour colour && same_colour v.colour colour) (for_ref a.basic (λ b. need premise.BasicType (is_seen_as v.basic b) (next a.form v.form)))))) (λ x. next (polynomial fs x.0) (polynomial fs x.1)) result }
    ensures held { (fs : List Normal) → HoldsForms fs context.now → IfOk result (λ x. IsInteger fs x.0 × IsInteger fs x.1) }
{
    let (address, value) = two(context, rd, rs, colour)?;
    let cell = referred(address.basic)?;
    need(Why::BasicType, is_seen_as(value.basic, cell))?;
    Ok((address.form, value.form))
}

/// The code type and the form of the target of a jump of this colour.
pub fn jumped(context: &Context, rd: Reg, colour: Colour) -> Result<(u16, Form), RuleError>
    ensures passes { (fs : List Normal) (next : ℕ → Polynomial → Outcome)
        → Passes (for_typed (typed (context_in fs context.now) rd.number) (λ a. need premise.Colour (same_colour a.colour colour) (for_code a.basic (λ t. next t a.form)))) (λ x. next x.0 (polynomial fs x.1)) result }
    ensures held { (fs : List Normal) → HoldsForms fs context.now → IfOk result (λ x. IsInteger fs x.1) }
    ensures types { (o : Object) → NamesTypes o context.now → IfOk result (λ x. x.0 < length o.types) }
{
    let target = one(context, rd, colour)?;
    let code_type = code_type(target.basic)?;
    Ok((code_type, target.form))
}

/// The test, and the code type and the form of the target, of a branch of this colour.
pub fn branched(
    context: &Context,
    rz: Reg,
    rd: Reg,
    colour: Colour,
) -> Result<(Form, u16, Form), RuleError>
    ensures passes { (fs : List Normal) (next : Polynomial → ℕ → Polynomial → Outcome)
        → Passes (for_typed (typed (context_in fs context.now) rz.number) (λ z. for_typed (typed (context_in fs context.now) rd.number) (λ a. need premise.Colour (same_colour z.colour colour && same_colour a.colour colour) (for_code a.basic (λ t. next z.form t a.form))))) (λ x. next (polynomial fs x.0) x.1 (polynomial fs x.2)) result }
    ensures held { (fs : List Normal) → HoldsForms fs context.now → IfOk result (λ x. IsInteger fs x.0 × IsInteger fs x.2) }
    ensures types { (o : Object) → NamesTypes o context.now → IfOk result (λ x. x.1 < length o.types) }
{
    let (test, target) = two(context, rz, rd, colour)?;
    let code_type = code_type(target.basic)?;
    Ok((test.form, code_type, target.form))
}

/// Whether a target has the code type and the form that d has.
pub fn same_target(forms: &Interner, t: u16, form: Form, d_type: u16, d_form: Form) -> bool
    requires form { IsInteger forms.now form }
    requires d_form { IsInteger forms.now d_form }
    ensures { result ≡ ((t == d_type) && same_polynomial (polynomial forms.now form) (polynomial forms.now d_form)) }
{
    t == d_type && same_integers(forms, form, d_form)
}
