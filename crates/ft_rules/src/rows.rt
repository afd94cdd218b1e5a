//! The typing rows.
ghost use Rattle.std.specs.Prelude.{◌≡◌, ◌+◌, ◌*◌, ◌≤◌, OnErr, length};
ghost use Rattle.ft_static.specs.Form.{updates};
ghost use Rattle.ft_norm.specs.Held.{Keeps};
ghost use Rattle.ft_types.specs.Spellable.{IsBase, IsSpellable, IsSubst};
ghost use Rattle.ft_typing.specs.TypingRow.{row};
ghost use Rattle.ft_types.specs.declared.object.Object.{Object};
ghost use Rattle.ft_contexts.specs.Contexts.{HoldsForms, HoldsShared, NamesTypes, context_in};
ghost use Rattle.ft_contexts.specs.Costs.{tree_cost};
ghost use Rattle.ft_rules.specs.Answers.{Answers, Does, Grows, IsInstrOf, rule_cost};

use crate::premises::{conditional, need, oldest, referred, target, typed, zero};
use crate::reads::{branched, jumped, one, same_target, stored};
use crate::runs::index;
use crate::transfer::leads;
use crate::typed_words::has_type;
use crate::why::{Next, RuleError};
use ft_contexts::{Context, QUEUE_ROOM, RegForm, Shared, StateD, same_integers};
use ft_isa::{Basic, Colour, Coloured, INT, Instr, Op, Reg, Subst};
use ft_meter::Meter;
use ft_norm::Interner;
use ft_types::Program;
use ft_typing::{Why, same_colour};

/// An operation on two registers.
fn operate<M: Meter>(
    context: &mut Context,
    op: Op,
    rd: Reg,
    rs: Reg,
    rt: Reg,
    forms: &mut Interner,
    meter: &mut M,
) -> Result<Next, RuleError>
    requires { HoldsForms forms.old context.old }
    ensures row { (o : Object) → NamesTypes o context.old → Does (row o (context_in forms.old context.old) (Instr.OpReg op rd rs rt)) o forms.old forms.new context.old context.new result }
    ensures steps { M.counted meter.new ≡ M.counted meter.old }
{
    let first = typed(context, rs)?;
    let second = typed(context, rt)?;
    need(Why::Colour, same_colour(second.colour, first.colour))?;
    let form = forms.op_within(op, first.form, second.form, meter)?;
    context.put(
        rd,
        RegForm {
            colour: first.colour,
            basic: INT,
            form,
        },
    );
    Ok(Next::On)
}

/// An operation on a register and a word.
fn operate_word<M: Meter>(
    context: &mut Context,
    op: Op,
    rd: Reg,
    rs: Reg,
    value: Coloured,
    forms: &mut Interner,
    meter: &mut M,
) -> Result<Next, RuleError>
    requires { HoldsForms forms.old context.old }
    ensures row { (o : Object) → NamesTypes o context.old → Does (row o (context_in forms.old context.old) (Instr.OpWord op rd rs value)) o forms.old forms.new context.old context.new result }
    ensures steps { M.counted meter.new ≡ M.counted meter.old }
{
    let first = typed(context, rs)?;
    need(Why::Colour, same_colour(value.colour, first.colour))?;
    let word = forms.word(value.word)?;
    let form = forms.op_within(op, first.form, word, meter)?;
    context.put(
        rd,
        RegForm {
            colour: first.colour,
            basic: INT,
            form,
        },
    );
    Ok(Next::On)
}

/// A `mov`, with the basic type that it claims.
fn claim<P: Program>(
    context: &mut Context,
    program: &P,
    rd: Reg,
    value: Coloured,
    basic: Basic,
    forms: &mut Interner,
) -> Result<Next, RuleError>
    requires spellable { IsSpellable (P.object program.now) }
    requires held { HoldsForms forms.old context.old }
    requires types { NamesTypes (P.object program.now) context.old }
    requires base { IsBase (length (P.object program.now).types) basic.base }
    ensures { Does (row (P.object program.now) (context_in forms.old context.old) (Instr.Mov rd basic value)) (P.object program.now) forms.old forms.new context.old context.new result }
{
    need(Why::BasicType, has_type(program, value.word, basic))?;
    let form = forms.word(value.word)?;
    context.put(
        rd,
        RegForm {
            colour: value.colour,
            basic,
            form,
        },
    );
    Ok(Next::On)
}

/// A load.
fn load<M: Meter>(
    context: &mut Context,
    colour: Colour,
    rd: Reg,
    rs: Reg,
    forms: &mut Interner,
    meter: &mut M,
) -> Result<Next, RuleError>
    requires { HoldsForms forms.old context.old }
    ensures row { (o : Object) → NamesTypes o context.old → Does (row o (context_in forms.old context.old) (Instr.Ld colour rd rs)) o forms.old forms.new context.old context.new result }
    ensures steps { M.counted meter.new ≤ M.counted meter.old + updates (context_in forms.old context.old).memory + 2 * length (context_in forms.old context.old).queue }
{
    let address = one(context, rs, colour)?;
    let basic = referred(address.basic)?;
    let memory = context.seen(colour, forms, meter)?;
    let form = forms.sel(memory, address.form, meter)?;
    context.put(
        rd,
        RegForm {
            colour,
            basic,
            form,
        },
    );
    Ok(Next::On)
}

/// A green store: its pair becomes the newest pending one.
fn store_green(context: &mut Context, rd: Reg, rs: Reg, forms: &Interner) -> Result<Next, RuleError>
    requires { HoldsForms forms.now context.old }
    ensures { (o : Object) → NamesTypes o context.old → Does (row o (context_in forms.now context.old) (Instr.St Colour.Green rd rs)) o forms.now forms.now context.old context.new result }
{
    let pair = stored(context, rd, rs, Colour::Green)?;
    need(Why::QueueFull, context.queue_len() < QUEUE_ROOM)?;
    context.pend(pair)?;
    Ok(Next::On)
}

/// A blue store: its pair is the oldest pending one.
fn store_blue(
    context: &mut Context,
    rd: Reg,
    rs: Reg,
    forms: &mut Interner,
) -> Result<Next, RuleError>
    requires { HoldsForms forms.old context.old }
    ensures { (o : Object) → NamesTypes o context.old → Does (row o (context_in forms.old context.old) (Instr.St Colour.Blue rd rs)) o forms.old forms.new context.old context.new result }
{
    let (address, value) = stored(context, rd, rs, Colour::Blue)?;
    let (pending_address, pending_value) = oldest(context)?;
    need(
        Why::Addresses,
        same_integers(forms, address, pending_address),
    )?;
    need(Why::Values, same_integers(forms, value, pending_value))?;
    let memory = forms.upd(context.memory(), address, value)?;
    context.commit(memory);
    Ok(Next::On)
}

/// A store.
fn store(
    context: &mut Context,
    colour: Colour,
    rd: Reg,
    rs: Reg,
    forms: &mut Interner,
) -> Result<Next, RuleError>
    requires { HoldsForms forms.old context.old }
    ensures { (o : Object) → NamesTypes o context.old → Does (row o (context_in forms.old context.old) (Instr.St colour rd rs)) o forms.old forms.new context.old context.new result }
{
    match colour {
        Colour::Green => store_green(context, rd, rs, forms),
        Colour::Blue => store_blue(context, rd, rs, forms),
    }
}

/// A green jump.
fn jump_green(context: &mut Context, rd: Reg, forms: &Interner) -> Result<Next, RuleError>
    requires { HoldsForms forms.now context.old }
    ensures { (o : Object) → NamesTypes o context.old → Does (row o (context_in forms.now context.old) (Instr.JmpG rd)) o forms.now forms.now context.old context.new result }
{
    let (code_type, form) = jumped(context, rd, Colour::Green)?;
    zero(context)?;
    context.put_d(StateD::Code { code_type, form });
    Ok(Next::On)
}

/// A blue jump, which ends the block.
fn jump_blue<P: Program, M: Meter>(
    context: &Context,
    shared: &mut Shared,
    program: &P,
    rd: Reg,
    subst: Subst,
    forms: &mut Interner,
    meter: &mut M,
) -> Result<Next, RuleError>
    requires spellable { IsSpellable (P.object program.now) }
    requires held { HoldsForms forms.old context.now }
    requires types { NamesTypes (P.object program.now) context.now }
    requires subst { IsSubst (P.object program.now).nodes (length (P.object program.now).substs) subst.first subst }
    requires shared { HoldsShared (P.object program.now) forms.old shared.old }
    ensures shared { HoldsShared (P.object program.now) forms.new shared.new }
    ensures row { Does (row (P.object program.now) (context_in forms.old context.now) (Instr.JmpB rd subst)) (P.object program.now) forms.old forms.new context.now context.now result }
    ensures steps { M.counted meter.new ≤ M.counted meter.old + 210 * tree_cost (P.object program.now) (length (P.object program.now).nodes) }
{
    let (code_type, form) = jumped(context, rd, Colour::Blue)?;
    let (d_type, d_form) = target(context)?;
    need(
        Why::Targets,
        same_target(forms, code_type, form, d_type, d_form),
    )?;
    leads(
        context,
        shared,
        program,
        subst,
        code_type as u32,
        forms,
        meter,
    )?;
    Ok(Next::Ends)
}

/// A green branch.
fn branch_green(
    context: &mut Context,
    rz: Reg,
    rd: Reg,
    forms: &Interner,
) -> Result<Next, RuleError>
    requires { HoldsForms forms.now context.old }
    ensures { (o : Object) → NamesTypes o context.old → Does (row o (context_in forms.now context.old) (Instr.BzG rz rd)) o forms.now forms.now context.old context.new result }
{
    let (test, code_type, form) = branched(context, rz, rd, Colour::Green)?;
    zero(context)?;
    context.put_d(StateD::Conditional {
        test,
        code_type,
        form,
    });
    Ok(Next::On)
}

/// A blue branch, after which the block continues.
fn branch_blue<P: Program, M: Meter>(
    context: &mut Context,
    shared: &mut Shared,
    program: &P,
    rz: Reg,
    rd: Reg,
    subst: Subst,
    forms: &mut Interner,
    meter: &mut M,
) -> Result<Next, RuleError>
    requires spellable { IsSpellable (P.object program.now) }
    requires held { HoldsForms forms.old context.old }
    requires types { NamesTypes (P.object program.now) context.old }
    requires subst { IsSubst (P.object program.now).nodes (length (P.object program.now).substs) subst.first subst }
    requires shared { HoldsShared (P.object program.now) forms.old shared.old }
    ensures shared { HoldsShared (P.object program.now) forms.new shared.new }
    ensures row { Does (row (P.object program.now) (context_in forms.old context.old) (Instr.BzB rz rd subst)) (P.object program.now) forms.old forms.new context.old context.new result }
    ensures steps { M.counted meter.new ≤ M.counted meter.old + 210 * tree_cost (P.object program.now) (length (P.object program.now).nodes) }
{
    let (test, code_type, form) = branched(context, rz, rd, Colour::Blue)?;
    let (d_test, d_type, d_form) = conditional(context)?;
    need(Why::Conditions, same_integers(forms, test, d_test))?;
    need(
        Why::Targets,
        same_target(forms, code_type, form, d_type, d_form),
    )?;
    leads(
        context,
        shared,
        program,
        subst,
        code_type as u32,
        forms,
        meter,
    )?;
    context.put_d(StateD::Zero);
    Ok(Next::On)
}

/// A `halt`, which ends the run and its block.
#[tactic(auto, unfolding(ft_typing::specs::RowWords::is_empty))]
fn halt(context: &Context, forms: &Interner) -> Result<Next, RuleError>
    requires { HoldsForms forms.now context.now }
    ensures { (o : Object) → NamesTypes o context.now → Does (row o (context_in forms.now context.now) Instr.Halt) o forms.now forms.now context.now context.now result }
{
    zero(context)?;
    need(Why::QueueUnlike, context.queue_len() == 0)?;
    Ok(Next::Ends)
}

/// Types one instruction. It returns `On` if the block continues after it, and the context is then that of the next
/// instruction; `Ends` if the instruction, a blue jump or `halt`, ends the block. `Refused` names the first failing
/// premise, never `BlockEnd`, and leaves the context unchanged. If memory runs out, the context is unchanged, too.
pub fn apply_rule<P: Program, M: Meter>(
    ctx: &mut Context,
    forms: &mut Interner,
    program: &P,
    instr: &Instr,
    meter: &mut M,
) -> Result<Next, RuleError>
    requires spellable { IsSpellable (P.object program.now) }
    requires held { HoldsForms forms.old ctx.old }
    requires types { NamesTypes (P.object program.now) ctx.old }
    requires instr { IsInstrOf (P.object program.now) instr.now }
    ensures row { Answers (row (P.object program.now) (context_in forms.old ctx.old) instr.now) forms.new ctx.new result }
    ensures before { OnErr result (ctx.new ≡ ctx.old) }
    ensures kept { Keeps forms.old forms.new }
    ensures held { HoldsForms forms.new ctx.new }
    ensures types { NamesTypes (P.object program.now) ctx.new }
    ensures grows { Grows forms.old forms.new ctx.old ctx.new }
    ensures steps { M.counted meter.new ≤ M.counted meter.old + rule_cost (P.object program.now) (context_in forms.old ctx.old) instr.now }
{
    let mut shared = Shared::new(ctx.alloc(), forms)?;
    apply_rule_over(ctx, &mut shared, forms, program, instr, meter)
}

/// Like `apply_rule`, with the data that the blocks share, which other instructions may have used before.
pub fn apply_rule_over<P: Program, M: Meter>(
    ctx: &mut Context,
    shared: &mut Shared,
    forms: &mut Interner,
    program: &P,
    instr: &Instr,
    meter: &mut M,
) -> Result<Next, RuleError>
    requires spellable { IsSpellable (P.object program.now) }
    requires held { HoldsForms forms.old ctx.old }
    requires types { NamesTypes (P.object program.now) ctx.old }
    requires instr { IsInstrOf (P.object program.now) instr.now }
    requires shared { HoldsShared (P.object program.now) forms.old shared.old }
    ensures row { Answers (row (P.object program.now) (context_in forms.old ctx.old) instr.now) forms.new ctx.new result }
    ensures before { OnErr result (ctx.new ≡ ctx.old) }
    ensures kept { Keeps forms.old forms.new }
    ensures held { HoldsForms forms.new ctx.new }
    ensures types { NamesTypes (P.object program.now) ctx.new }
    ensures grows { Grows forms.old forms.new ctx.old ctx.new }
    ensures shared { HoldsShared (P.object program.now) forms.new shared.new }
    ensures steps { M.counted meter.new ≤ M.counted meter.old + rule_cost (P.object program.now) (context_in forms.old ctx.old) instr.now }
{
    match *instr {
        Instr::OpReg { op, rd, rs, rt } => operate(ctx, op, rd, rs, rt, forms, meter),
        Instr::OpWord { op, rd, rs, value } => operate_word(ctx, op, rd, rs, value, forms, meter),
        Instr::Mov { rd, value, basic } => claim(ctx, program, rd, value, basic, forms),
        Instr::Ld { colour, rd, rs } => load(ctx, colour, rd, rs, forms, meter),
        Instr::St { colour, rd, rs } => store(ctx, colour, rd, rs, forms),
        Instr::JmpG { rd } => jump_green(ctx, rd, forms),
        Instr::JmpB { rd, subst } => jump_blue(ctx, shared, program, rd, subst, forms, meter),
        Instr::BzG { rz, rd } => branch_green(ctx, rz, rd, forms),
        Instr::BzB { rz, rd, subst } => {
            branch_blue(ctx, shared, program, rz, rd, subst, forms, meter)
        }
        Instr::Halt => halt(ctx, forms),
        Instr::Idx {
            rd,
            rs,
            first,
            length,
        } => index(ctx, program, rd, rs, first, length, forms),
    }
}
