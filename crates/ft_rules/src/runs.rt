//! The row of `idx`: the address of a cell in a run.
ghost use Rattle.std.specs.Prelude.{◌≡◌, ◌<◌, ◌≤◌, IfOk, IfSome, Some, length, map, slice_range};
ghost use Rattle.std.specs.List.{list_all};
ghost use Rattle.ft_isa.specs.BasicTypes.{ref};
ghost use Rattle.ft_isa.specs.declared.basic.Basic.{Basic as BasicType};
ghost use Rattle.ft_static.specs.Form.{integer_form};
ghost use Rattle.ft_norm.specs.Held.{IsInteger, Keeps, held, polynomial};
ghost use Rattle.ft_types.specs.Objects.{basic_of};
ghost use Rattle.ft_types.specs.Spellable.{IsBase, IsRun, IsSpellable};
ghost use Rattle.ft_typing.specs.TypedWord.{run_type, same_basic};
ghost use Rattle.ft_typing.specs.TypingRow.{row};
ghost use Rattle.ft_typing.specs.RowWords.{Outcome, for_run, run_form};
ghost use Rattle.ft_contexts.specs.Contexts.{HoldsForms, NamesTypes, context_in};
ghost use Rattle.ft_rules.specs.Answers.{Does, Passes};

use crate::premises::typed;
use crate::why::{Next, RuleError};
use ft_contexts::{Context, RegForm};
use ft_isa::{Basic, FIRST_CELL, Instr, NoMemory, Op, Reg};
use ft_norm::{Form, Interner};
use ft_types::Program;
use ft_typing::{Why, same_basic};

/// The maximum number of `ref`s in a basic type.
const REFS: u8 = 8;

/// Whether the cells from `from` up to `past` are all of this basic type.
fn are_all<P: Program>(program: &P, basic: Basic, from: u32, past: u32) -> bool
    requires spellable { IsSpellable (P.object program.now) }
    requires within { past ≤ length (P.object program.now).cells }
    ensures { result ≡ list_all (same_basic basic) (map basic_of (slice_range (P.object program.now).cells from past)) }
{
    for k in from..past {
        let cell = program.cell(k);
        let same = same_basic(basic, cell.basic);
        if !same {
            return false;
        }
    }
    true
}

/// The type of the cells of a run, if they all have the same one and a `ref` can refer to it.
fn run_type<P: Program>(program: &P, first: u32, count: u32) -> Option<Basic>
    requires spellable { IsSpellable (P.object program.now) }
    requires run { IsRun (length (P.object program.now).cells) first count }
    ensures found { result ≡ run_type (P.object program.now) first count }
    ensures base { IfSome result (λ b. IsBase (length (P.object program.now).types) b.base) }
    ensures refs { IfSome result (λ b. b.refs < 8) }
{
    let cell = program.cell(first);
    let basic = cell.basic;
    let alike = are_all(program, basic, first + 1, first + count);
    if !alike {
        return None;
    }
    if basic.refs >= REFS {
        return None;
    }
    Some(basic)
}

/// The basic type of the address of a cell of this type.
fn referring(basic: Basic) -> Basic
    requires { basic.refs < 8 }
    ensures { result ≡ ref basic }
{
    Basic {
        refs: basic.refs + 1,
        base: basic.base,
    }
}

/// The basic type of the addresses of a run's cells.
#[tactic(auto, unfolding(ft_typing::specs::RowWords::for_run))]
fn array<P: Program>(program: &P, first: u32, count: u32) -> Result<Basic, RuleError>
    requires spellable { IsSpellable (P.object program.now) }
    requires run { IsRun (length (P.object program.now).cells) first count }
    ensures passes { (next : BasicType → Outcome) → Passes (for_run (run_type (P.object program.now) first count) (λ b. next (ref b))) next result }
    ensures base { IfOk result (λ t. IsBase (length (P.object program.now).types) t.base) }
{
    match run_type(program, first, count) {
        Some(basic) => Ok(referring(basic)),
        None => Err(RuleError::Refused(Why::Array)),
    }
}

/// The form of the address of the cell that a word selects in a run, given the form of that word.
fn run_form(forms: &mut Interner, first: u32, count: u32, named: Form) -> Result<Form, NoMemory>
    requires named { IsInteger forms.old named }
    requires some { 1 ≤ count }
    requires most { count ≤ 1024 }
    ensures kept { Keeps forms.old forms.new }
    ensures form { IfOk result (λ f. held forms.new f ≡ Some (integer_form (run_form first count (polynomial forms.old named)))) }
{
    let base = forms.word(FIRST_CELL + first as u64)?;
    let place = forms.rem(named, count)?;
    forms.op(Op::Add, base, place)
}

/// The address of the cell that a register selects in a run.
pub fn index<P: Program>(
    context: &mut Context,
    program: &P,
    rd: Reg,
    rs: Reg,
    first: u32,
    count: u32,
    forms: &mut Interner,
) -> Result<Next, RuleError>
    requires spellable { IsSpellable (P.object program.now) }
    requires held { HoldsForms forms.old context.old }
    requires types { NamesTypes (P.object program.now) context.old }
    requires run { IsRun (length (P.object program.now).cells) first count }
    ensures { Does (row (P.object program.now) (context_in forms.old context.old) (Instr.Idx rd rs first count)) (P.object program.now) forms.old forms.new context.old context.new result }
{
    let named = typed(context, rs)?;
    let basic = array(program, first, count)?;
    let form = run_form(forms, first, count, named.form)?;
    context.put(
        rd,
        RegForm {
            colour: named.colour,
            basic,
            form,
        },
    );
    Ok(Next::On)
}
