//! Explains why objects are not accepted.
ghost use Rattle.std.specs.Prelude.{◌≡◌, ◌<◌, length, IfSome};
ghost use Rattle.ft_types.specs.Objects.{reg_rows};
ghost use Rattle.ft_types.specs.Spellable.{IsSpellable};

use crate::claims::say_claim;
use crate::known::{Known, RegKnown};
use crate::premises::premise;
use crate::reads::{reads, target_of};
use crate::refusal::Refusal;
use ft_asm::put_codes;
use ft_isa::{Base, Basic, Colour, Instr, NoMemory, Reg};
use ft_mistakes::Page;
use ft_types::{Block, Program, RegType};

/// Writes a basic type as assembly texts spell it.
pub(crate) fn say_basic(page: &mut Page, basic: Basic) -> Result<(), NoMemory> {
    for _ in 0..basic.refs {
        page.say("ref:")?;
    }
    match basic.base {
        Base::Int => page.say("int"),
        Base::Code(t) => page.say(format_args!("code:{t}")),
    }
}

/// Writes the colour and the basic type of a register.
fn say_known(page: &mut Page, known: Option<RegKnown>) -> Result<(), NoMemory> {
    let Some(known) = known else {
        return page.say("no type");
    };
    page.say(match known.colour {
        Colour::Green => "G ",
        Colour::Blue => "B ",
    })?;
    say_basic(page, known.basic)
}

/// Writes a register and what is known of it.
fn say_reg(page: &mut Page, reg: Reg, known: Option<RegKnown>) -> Result<(), NoMemory> {
    let number = reg.number();
    page.say(format_args!("  r{number}: "))?;
    say_known(page, known)
}

/// Writes a line with a register and what is known of it.
fn say_reg_line(page: &mut Page, known: &Known, reg: Option<Reg>) -> Result<(), NoMemory> {
    let Some(reg) = reg else {
        return Ok(());
    };
    say_reg(page, reg, known.reg(reg))?;
    page.say("\n")
}

/// Says how a register's colour or basic type differs from its row in code type `t`.
fn say_unlike_row(
    page: &mut Page,
    t: u32,
    row: RegType,
    known: Option<RegKnown>,
) -> Result<(), NoMemory> {
    say_reg(page, row.reg, known)?;
    page.say(format_args!(", but code type {t} expects "))?;
    let colour = row.colour;
    let basic = row.basic;
    say_known(page, Some(RegKnown { colour, basic }))?;
    page.say("\n")
}

/// Writes instruction `i` as assembly text, between other words.
#[tactic(auto, using(ft_types::proofs::Counted::spellable_counted))]
pub(crate) fn say_code<P: Program>(
    page: &mut Page,
    program: &P,
    i: u32,
    before: &str,
    after: &str,
) -> Result<(), NoMemory>
    requires spellable { IsSpellable (P.object program.now) }
    requires there { i < length (P.object program.now).instrs }
{
    let mut text = Vec::new(page.alloc());
    put_codes(&mut text, program, i, i + 1)?;
    page.show_between(before, text.as_slice().trim_ascii_end(), after)
}

/// Writes instruction `i` as assembly text, on a line of its own.
pub(crate) fn say_instr<P: Program>(page: &mut Page, program: &P, i: u32) -> Result<(), NoMemory>
    requires spellable { IsSpellable (P.object program.now) }
    requires there { i < length (P.object program.now).instrs }
{
    say_code(page, program, i, "  ", "\n")
}

/// Whether the colour or basic type of a register differs from a row's. Any basic type fits a row of type `int`.
fn differs(known: Option<RegKnown>, colour: Colour, basic: Basic) -> bool {
    match known {
        Some(known) => known.colour != colour || (known.basic != basic && basic != ft_isa::INT),
        None => true,
    }
}

/// Lists the registers in the rows of code type `t`, one of which does not have the expected value.
fn say_rows<P: Program>(page: &mut Page, program: &P, t: u32, count: u32) -> Result<(), NoMemory>
    requires there { t < length (P.object program.now).types }
    requires count { count ≡ length (reg_rows (P.object program.now) t) }
{
    page.say(format_args!(
        "  the colours and types match code type {t}, but one of these registers does not have the expected value:"
    ))?;
    for j in 0..count {
        let number = program.reg_row(t, j).reg.number();
        page.say(format_args!(" r{number}"))?;
    }
    page.say("\n")
}

/// Says which registers differ in colour or basic type from the rows of code type `t`; returns false if none do.
fn say_unlike_rows<P: Program>(
    page: &mut Page,
    program: &P,
    known: &Known,
    t: u32,
    count: u32,
) -> Result<bool, NoMemory>
    requires there { t < length (P.object program.now).types }
    requires count { count ≡ length (reg_rows (P.object program.now) t) }
{
    let mut is_some_said = false;
    for j in 0..count {
        let row = program.reg_row(t, j);
        let here = known.reg(row.reg);
        if differs(here, row.colour, row.basic) {
            is_some_said = true;
            say_unlike_row(page, t, row, here)?;
        }
    }
    Ok(is_some_said)
}

/// Says which registers differ in colour or basic type from code type `t`, or else that one has the wrong value.
#[tactic(auto, using(ft_types::proofs::Counted::spellable_counted))]
fn say_unlike<P: Program>(
    page: &mut Page,
    program: &P,
    known: &Known,
    t: u32,
) -> Result<(), NoMemory>
    requires spellable { IsSpellable (P.object program.now) }
    requires there { t < length (P.object program.now).types }
{
    let head = program.code_type(t);
    if say_unlike_rows(page, program, known, t, head.regs)? {
        return Ok(());
    }
    say_rows(page, program, t, head.regs)
}

/// The code type of the target of a blue jump or branch, if it is known.
fn target_type<P: Program>(program: &P, known: &Known, rd: Reg) -> Option<u32>
    requires { IsSpellable (P.object program.now) }
    ensures { IfSome result (λ t. t < length (P.object program.now).types) }
{
    let Base::Code(t) = known.reg(rd)?.basic.base else {
        return None;
    };
    let t = u32::from(t);
    if t >= program.counts().types {
        return None;
    }
    Some(t)
}

/// How many rows the substitution of an instruction has.
fn row_count(instr: Instr) -> u32 {
    match instr {
        Instr::JmpB { subst, .. } | Instr::BzB { subst, .. } => {
            subst.past.saturating_sub(subst.first)
        }
        _ => 0,
    }
}

/// Says how many integer variables, or how many pending stores, the target's code type has.
fn say_counts<P: Program>(
    page: &mut Page,
    program: &P,
    t: u32,
    number: u64,
    instr: Instr,
) -> Result<(), NoMemory>
    requires spellable { IsSpellable (P.object program.now) }
    requires there { t < length (P.object program.now).types }
{
    let head = program.code_type(t);
    if number == 16 {
        page.say("  the substitution has ")?;
        page.count(row_count(instr), "row")?;
        page.say(format_args!(", but code type {t} has "))?;
        page.count(u32::from(head.ints), "integer variable")?;
        return page.say("\n");
    }
    page.say(format_args!("  code type {t} expects "))?;
    page.count(head.queue, "pending store")?;
    page.say("\n")
}

/// Says what the target of a blue jump or branch requires.
fn say_target<P: Program>(
    page: &mut Page,
    program: &P,
    known: &Known,
    number: u64,
    instr: Instr,
) -> Result<(), NoMemory>
    requires { IsSpellable (P.object program.now) }
{
    let Some(rd) = target_of(instr) else {
        return Ok(());
    };
    let Some(t) = target_type(program, known, rd) else {
        return Ok(());
    };
    match number {
        13 => say_unlike(page, program, known, t),
        _ => say_counts(page, program, t, number, instr),
    }
}

/// Names the type of the cell that a store writes to.
fn say_stored(page: &mut Page, known: &Known, instr: Instr) -> Result<(), NoMemory> {
    let Instr::St { rd, .. } = instr else {
        return Ok(());
    };
    let Some(basic) = known.referred(rd) else {
        return Ok(());
    };
    let number = rd.number();
    page.say(format_args!("  the cell that r{number} refers to has the type "))?;
    say_basic(page, basic)?;
    page.say("\n")
}

/// If the second register of a store holds an address instead of the first, says that the address comes first.
fn say_swapped(page: &mut Page, known: &Known, instr: Instr) -> Result<(), NoMemory> {
    let Instr::St { rs, .. } = instr else {
        return Ok(());
    };
    match known.referred(rs) {
        Some(_) => page.say(
            "  the register with the address comes first, then the one with the value\n",
        ),
        None => Ok(()),
    }
}

/// Says what is known of the registers that an instruction reads.
fn say_reads(page: &mut Page, known: &Known, instr: Instr) -> Result<(), NoMemory> {
    let [first, second] = reads(instr);
    say_reg_line(page, known, first)?;
    say_reg_line(page, known, second)
}

/// A block, and the number of the instruction at this index in it; `None` if there is no such block.
#[tactic(auto, using(ft_types::proofs::Counted::spellable_counted))]
pub(crate) fn find<P: Program>(program: &P, block: u64, index: u64) -> Option<(Block, u32)>
    requires { IsSpellable (P.object program.now) }
{
    let counts = program.counts();
    let b = u32::try_from(block).ok()?;
    if b >= counts.blocks {
        return None;
    }
    let found = program.block(b);
    let i = found.start.checked_add(u32::try_from(index).ok()?)?;
    Some((found, i))
}

/// Explains why the rule of an instruction does not apply.
#[tactic(auto, using(ft_types::proofs::Counted::spellable_counted))]
fn explain_instr<P: Program>(
    page: &mut Page,
    program: &P,
    name: &str,
    block: u64,
    index: u64,
    number: u64,
) -> Result<(), NoMemory>
    requires { IsSpellable (P.object program.now) }
{
    let counts = program.counts();
    let Some((found, i)) = find(program, block, index) else {
        return Ok(());
    };
    if i >= counts.instrs || found.code_type >= counts.types {
        return Ok(());
    }
    let instr = program.instr(i);
    page.head(name)?;
    page.say(format_args!("block {block}, instruction {index}: "))?;
    page.say(premise(number, instr))?;
    page.say(format_args!(" (premise {number})\n"))?;
    say_instr(page, program, i)?;
    let known = Known::before(program, found.code_type, found.start, i);
    say_reads(page, &known, instr)?;
    match number {
        3 => {
            say_stored(page, &known, instr)?;
            say_claim(page, program, instr)
        }
        4 => say_swapped(page, &known, instr),
        13 | 14 | 16 => say_target(page, program, &known, number, instr),
        _ => Ok(()),
    }
}

/// Explains why a run cannot begin in the entry block.
#[tactic(auto, using(ft_types::proofs::Counted::spellable_counted))]
fn explain_entry<P: Program>(page: &mut Page, program: &P, name: &str) -> Result<(), NoMemory>
    requires { IsSpellable (P.object program.now) }
{
    let counts = program.counts();
    let entry = program.entry();
    if entry >= counts.blocks {
        return Ok(());
    }
    let t = program.block(entry).code_type;
    if t >= counts.types {
        return Ok(());
    }
    let head = program.code_type(t);
    page.head(name)?;
    page.say(format_args!("a run cannot begin in block {entry}: its code type {t} "))?;
    if head.ints > 0 {
        page.say("has ")?;
        page.count(u32::from(head.ints), "integer variable")?;
    } else if head.regs > 0 {
        page.say("has ")?;
        page.count(head.regs, "`reg` line")?;
    } else if head.queue > 0 {
        page.say("has ")?;
        page.count(head.queue, "`pend` line")?;
    } else {
        return page.say("requires a memory other than the initial one\n");
    }
    page.say(", but it must have none\n")
}

/// Explains that a cell's initial word does not have the cell's type.
#[tactic(auto, using(ft_types::proofs::Counted::spellable_counted))]
fn explain_cell<P: Program>(
    page: &mut Page,
    program: &P,
    name: &str,
    cell: u64,
) -> Result<(), NoMemory>
    requires { IsSpellable (P.object program.now) }
{
    let Ok(k) = u32::try_from(cell) else {
        return Ok(());
    };
    if k >= program.counts().cells {
        return Ok(());
    }
    let head = program.cell(k);
    let init = head.init;
    page.head(name)?;
    page.say(format_args!("cell {k}, `"))?;
    page.show(program.name(k))?;
    page.say(format_args!("`, begins with {init}, which is not a value of its type "))?;
    say_basic(page, head.basic)?;
    page.say("\n")
}

/// Explains why an object is not accepted.
pub(crate) fn explain_check<P: Program>(
    page: &mut Page,
    program: &P,
    name: &str,
    refusal: Refusal,
) -> Result<(), NoMemory>
    requires { IsSpellable (P.object program.now) }
{
    match refusal {
        Refusal::Entry => explain_entry(page, program, name),
        Refusal::Cell(cell) => explain_cell(page, program, name, cell),
        Refusal::Instr(block, index, number) => {
            explain_instr(page, program, name, block, index, number)
        }
        _ => Ok(()),
    }
}
