//! The premises on the target of a transfer: the context meets the requirements of the target's code type, after the
//! substitution.
ghost use Rattle.std.specs.Prelude.{◌+◌, ◌*◌, ◌<◌, ◌≤◌, length};
ghost use Rattle.ft_norm.specs.Held.{Keeps};
ghost use Rattle.ft_types.specs.Spellable.{IsSpellable, IsSubst};
ghost use Rattle.ft_typing.specs.RowWords.{Outcome, leads};
ghost use Rattle.ft_contexts.specs.Contexts.{HoldsForms, HoldsShared, context_in};
ghost use Rattle.ft_contexts.specs.Costs.{tree_cost};
ghost use Rattle.ft_rules.specs.Answers.{Passes};

use crate::premises::need;
use crate::why::RuleError;
use ft_contexts::{Context, Shared};
use ft_isa::Subst;
use ft_meter::Meter;
use ft_norm::Interner;
use ft_types::Program;
use ft_typing::Why;

/// The premises of a transfer to code type `t` by a substitution. The forms that only these need are forgotten.
#[tactic(auto, unfolding(ft_typing::specs::RowWords::leads))]
pub fn leads<P: Program, M: Meter>(
    context: &Context,
    shared: &mut Shared,
    program: &P,
    subst: Subst,
    t: u32,
    forms: &mut Interner,
    meter: &mut M,
) -> Result<(), RuleError>
    requires spellable { IsSpellable (P.object program.now) }
    requires there { t < length (P.object program.now).types }
    requires subst { IsSubst (P.object program.now).nodes (length (P.object program.now).substs) subst.first subst }
    requires held { HoldsForms forms.old context.now }
    requires shared { HoldsShared (P.object program.now) forms.old shared.old }
    ensures kept { Keeps forms.old forms.new }
    ensures shared { HoldsShared (P.object program.now) forms.new shared.new }
    ensures passes { (next : Outcome) → Passes (leads (P.object program.now) subst t (context_in forms.old context.now) next) (λ _. next) result }
    ensures steps { M.counted meter.new ≤ M.counted meter.old + 210 * tree_cost (P.object program.now) (length (P.object program.now).nodes) }
{
    let annotated = context.is_annotated(program, subst, t);
    need(Why::Annotation, annotated)?;
    shared.replace(program, subst, forms, meter)?;
    let held = forms.count();
    let put = &shared.put;
    let made = &mut shared.made;
    let registers = context.registers_are_like(put, made, program, t, forms, meter)?;
    need(Why::RegisterUnlike, registers)?;
    let queue = context.queue_is_like(put, made, program, t, forms, meter)?;
    need(Why::QueueUnlike, queue)?;
    let memory = context.memory_is_like(put, made, program, t, forms, meter)?;
    need(Why::MemoryUnlike, memory)?;
    shared.forget(held, forms);
    Ok(())
}
