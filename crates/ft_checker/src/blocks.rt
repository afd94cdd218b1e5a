//! The blocks and their instructions.
ghost use Rattle.std.specs.Prelude.{◌≡◌, ◌+◌, ◌*◌, ◌<◌, ◌≤◌, ℕ, List, Option, IfSome, OnOk, length, slice_get, take, Some, true};
ghost use Rattle.std.specs.Option.{option_map};
ghost use Rattle.ft_isa.specs.declared.instr.Instr.{Instr as Instruction};
ghost use Rattle.ft_norm.specs.Held.{Keeps};
ghost use Rattle.ft_typing.specs.Accepted.{Refused, after_row, block_refusal, first_refusal, has_none, walk};
ghost use Rattle.ft_typing.specs.Context.{Context as Defined, start_context};
ghost use Rattle.ft_types.specs.Objects.{block_end, block_instrs};
ghost use Rattle.ft_typing.specs.Premise.{Premise};
ghost use Rattle.ft_types.specs.Spellable.{IsSpellable};
ghost use Rattle.ft_typing.specs.TypingRow.{row};
ghost use Rattle.ft_types.specs.declared.object.Block.{Block as Started};
ghost use Rattle.ft_rules.specs.Answers.{Grows, IsInstrOf, rule_cost};
ghost use Rattle.ft_contexts.specs.Contexts.{HoldsForms, HoldsShared, NamesTypes, context_in};
ghost use Rattle.ft_checker.specs.Costs.{instrs_cost, visit_cost};
ghost use Rattle.ft_checker.specs.Judges.{IsRefusalOf, IsStart, IsStartOf, Judges, StopsAt, Turns};
ghost use Rattle.ft_contexts.specs.Costs.{tree_cost};

use crate::error::CheckError;
use crate::keys::keys_of;
use ft_isa::{Instr, NoMemory};
use ft_meter::Meter;
use ft_norm::Interner;
use ft_rules::{Context, Next, RuleError, Shared, Why, apply_rule_over};
use ft_types::{Program, end_of};
use std::alloc::Global;

/// The maximum number of rows that a transfer reads: those of a substitution for 128 integer variables and the memory, of
/// 64 registers and of 8 pairs, two expressions each, and one more memory.
const ROWS: u64 = 210;

/// The work of an instruction apart from its steps and its operation: the rows that a transfer reads, and the nodes from
/// which it may forget; or the cells of a run.
#[inline(always)]
fn price(shared: &Shared, instr: &Instr) -> u64 {
    match *instr {
        Instr::JmpB { .. } | Instr::BzB { .. } => ROWS.saturating_add(shared.made.len() as u64),
        Instr::Idx { length, .. } => length as u64,
        _ => 1,
    }
}

/// Types one instruction; `last` says whether it is the last of its block. Returns whether the block has ended.
fn turn<P: Program, M: Meter>(
    context: &mut Context,
    shared: &mut Shared,
    forms: &mut Interner,
    program: &P,
    instr: &Instr,
    last: bool,
    meter: &mut M,
) -> Result<bool, RuleError>
    requires spellable { IsSpellable (P.object program.now) }
    requires held { HoldsForms forms.old context.old }
    requires types { NamesTypes (P.object program.now) context.old }
    requires instr { IsInstrOf (P.object program.now) instr.now }
    requires shared { HoldsShared (P.object program.now) forms.old shared.old }
    ensures turns { (k : ℕ) (others : List Instruction) (next : Defined → Option (ℕ × Premise)) → has_none others ≡ last
        → Turns (after_row (row (P.object program.now) (context_in forms.old context.old) instr.now) k others next) k (next (context_in forms.new context.new)) result }
    ensures held { HoldsForms forms.new context.new }
    ensures types { NamesTypes (P.object program.now) context.new }
    ensures grows { Grows forms.old forms.new context.old context.new }
    ensures kept { Keeps forms.old forms.new }
    ensures shared { HoldsShared (P.object program.now) forms.new shared.new }
    ensures steps { M.counted meter.new ≤ M.counted meter.old + rule_cost (P.object program.now) (context_in forms.old context.old) instr.now }
{
    meter.pay(price(shared, instr))?;
    let next = apply_rule_over(context, shared, forms, program, instr, meter)?;
    match next {
        Next::On => {
            if last {
                return Err(RuleError::Refused(Why::BlockEnd));
            }
            Ok(false)
        }
        Next::Ends => {
            if last {
                return Ok(true);
            }
            Err(RuleError::Refused(Why::BlockEnd))
        }
    }
}

/// The checker's error when an instruction is refused or memory runs out.
fn refused(block: u32, index: u32, error: RuleError) -> CheckError
    ensures { (x : Option (ℕ × Premise)) → StopsAt x index error → IsRefusalOf (option_map (λ r. Refused block r.0 r.1) x) result }
{
    match error {
        RuleError::Refused(why) => CheckError::Refused { block, index, why },
        RuleError::NoMemory => CheckError::NoMemory,
    }
}

/// The context with which the blocks of a code type begin.
#[derive(Drop)]
struct Start {
    code_type: u32,
    context: Context,
}

/// Whether the last start made is of code type `t`.
fn is_start_of(last: &Option<Start>, t: u32) -> bool
    ensures { result ≡ true → IsStartOf t last.now }
{
    match last {
        Some(start) => start.code_type == t,
        None => false,
    }
}

/// Makes the start of code type `t` in place of the last one made, unless that is already of this code type.
fn renew<P: Program, M: Meter>(
    last: &mut Option<Start>,
    alloc: Global,
    program: &P,
    t: u32,
    shared: &mut Shared,
    forms: &mut Interner,
    meter: &mut M,
) -> Result<(), NoMemory>
    requires spellable { IsSpellable (P.object program.now) }
    requires there { t < length (P.object program.now).types }
    requires last { IfSome last.old (IsStart (P.object program.now) forms.old) }
    requires shared { HoldsShared (P.object program.now) forms.old shared.old }
    ensures kept { Keeps forms.old forms.new }
    ensures shared { HoldsShared (P.object program.now) forms.new shared.new }
    ensures start { OnOk result (IfSome last.new (IsStart (P.object program.now) forms.new)) }
    ensures code_type { OnOk result (IsStartOf t last.new) }
    ensures steps { M.counted meter.new ≤ M.counted meter.old + 81 * tree_cost (P.object program.now) 0 }
{
    let goes_on = is_start_of(last, t);
    if goes_on {
        return Ok(());
    }
    let context = Context::start_over(alloc, program, t, &mut shared.own, forms, meter)?;
    *last = Some(Start {
        code_type: t,
        context,
    });
    Ok(())
}

/// Types the instructions of block `b` in order, from the start of its code type. What the context held before does not
/// matter.
fn check_block<P: Program, M: Meter>(
    program: &P,
    b: u32,
    start: &Start,
    context: &mut Context,
    shared: &mut Shared,
    forms: &mut Interner,
    meter: &mut M,
) -> Result<(), CheckError>
    requires spellable { IsSpellable (P.object program.now) }
    requires there { b < length (P.object program.now).blocks }
    requires start { IsStart (P.object program.now) forms.old start.now }
    requires code_type { (x : Started) → slice_get (P.object program.now).blocks b ≡ Some x → start.now.code_type ≡ x.code_type }
    requires shared { HoldsShared (P.object program.now) forms.old shared.old }
    ensures kept { Keeps forms.old forms.new }
    ensures shared { HoldsShared (P.object program.now) forms.new shared.new }
    ensures judged { (x : Started) → slice_get (P.object program.now).blocks b ≡ Some x → Judges (block_refusal (P.object program.now) b x) result }
    ensures steps { (x : Started) → slice_get (P.object program.now).blocks b ≡ Some x → M.counted meter.new + instrs_cost (P.object program.now) (take x.start (P.object program.now).instrs) ≤ M.counted meter.old + instrs_cost (P.object program.now) (take (block_end (P.object program.now) b) (P.object program.now).instrs) }
{
    let block = program.block(b);
    let past = end_of(program, b);
    context.copy_from(&start.context)?;
    for i in block.start..past {
        let instr = program.instr(i);
        let last = i + 1 == past;
        let ended = match turn(context, shared, forms, program, &instr, last, meter) {
            Ok(ended) => ended,
            Err(error) => return Err(refused(b, i - block.start, error)),
        };
        if ended {
            return Ok(());
        }
    }
    Err(refused(b, past - block.start, RuleError::Refused(Why::BlockEnd)))
}

/// Types the blocks in order.
pub fn check_blocks<P: Program, M: Meter>(
    alloc: Global,
    program: &P,
    meter: &mut M,
) -> Result<(), CheckError>
    requires { IsSpellable (P.object program.now) }
    ensures judged { Judges (first_refusal (block_refusal (P.object program.now)) 0 (P.object program.now).blocks) result }
    ensures steps { M.counted meter.new ≤ M.counted meter.old + (length (P.object program.now).blocks * visit_cost (P.object program.now) + instrs_cost (P.object program.now) (P.object program.now).instrs) }
{
    let blocks = program.counts().blocks;
    let (first, second) = keys_of(program);
    let mut forms = Interner::keyed(alloc, first, second)?;
    let mut shared = Shared::new(alloc, &mut forms)?;
    let mut context = Context::empty(alloc, &shared.own)?;
    let mut last = None;
    for b in 0..blocks {
        let t = program.block(b).code_type;
        renew(&mut last, alloc, program, t, &mut shared, &mut forms, meter)?;
        let Some(start) = &last else {
            unreachable!();
        };
        check_block(
            program,
            b,
            start,
            &mut context,
            &mut shared,
            &mut forms,
            meter,
        )?;
    }
    Ok(())
}
