//! Says why the word of a `mov` is not a value of the type that it claims.
ghost use Rattle.ft_types.specs.Spellable.{IsSpellable};

use crate::cells::cell_at;
use crate::checks::say_basic;
use ft_isa::{Base, FIRST_CELL, Instr, NoMemory};
use ft_mistakes::Page;
use ft_types::{Block, CellHead, Program};

/// The code address at which a block begins.
fn address_of(block: Block) -> u64 {
    u64::from(block.start).saturating_add(1)
}

/// The block that begins at a code address.
#[tactic(auto, using(ft_types::proofs::Counted::spellable_counted))]
fn block_at<P: Program>(program: &P, address: u64) -> Option<(u32, Block)>
    requires { IsSpellable (P.object program.now) }
{
    let count = program.counts().blocks;
    for b in 0..count {
        let block = program.block(b);
        if address_of(block) == address {
            return Some((b, block));
        }
    }
    None
}

/// The first block with this code type at or after a code address, or else the last one before it.
#[tactic(auto, using(ft_types::proofs::Counted::spellable_counted))]
fn nearest_of_type<P: Program>(program: &P, t: u32, address: u64) -> Option<(u32, Block)>
    requires { IsSpellable (P.object program.now) }
{
    let count = program.counts().blocks;
    let mut nearest = None;
    for b in 0..count {
        let block = program.block(b);
        if block.code_type == t {
            nearest = Some((b, block));
            if address_of(block) >= address {
                break;
            }
        }
    }
    nearest
}

/// Says which block begins at a code address, or where the nearest block of code type `t` begins.
fn say_code_claim<P: Program>(
    page: &mut Page,
    program: &P,
    address: u64,
    t: u32,
) -> Result<(), NoMemory>
    requires { IsSpellable (P.object program.now) }
{
    if let Some((b, block)) = block_at(program, address) {
        let found = block.code_type;
        return page.say(format_args!("  block {b}, at {address}, has code type {found}\n"));
    }
    page.say(format_args!("  no block begins at the code address {address}"))?;
    if let Some((b, block)) = nearest_of_type(program, t, address) {
        let at = address_of(block);
        page.say(format_args!("; block {b}, of code type {t}, begins at {at}"))?;
    }
    page.say("\n")
}

/// The cell with an address.
fn cell_with<P: Program>(program: &P, address: u64) -> Option<CellHead>
    requires { IsSpellable (P.object program.now) }
{
    let k = u32::try_from(address.checked_sub(FIRST_CELL)?).ok()?;
    cell_at(program, k)
}

/// Says which type the cell at an address has, or which addresses cells have.
fn say_cell_claim<P: Program>(page: &mut Page, program: &P, address: u64) -> Result<(), NoMemory>
    requires { IsSpellable (P.object program.now) }
{
    if let Some(cell) = cell_with(program, address) {
        page.say(format_args!("  the cell at {address} has the type "))?;
        say_basic(page, cell.basic)?;
        return page.say("\n");
    }
    let count = program.counts().cells;
    if count == 0 {
        return page.say("  the object has no cells\n");
    }
    page.say(format_args!("  no cell has the address {address}: "))?;
    if count == 1 {
        return page.say(format_args!("the only cell is at {FIRST_CELL}\n"));
    }
    let last = FIRST_CELL
        .saturating_add(u64::from(count))
        .saturating_sub(1);
    page.say(format_args!("the cells are at {FIRST_CELL} to {last}, one address each\n"))
}

/// Says why the word of a `mov` is not a value of the type that it claims.
pub(crate) fn say_claim<P: Program>(
    page: &mut Page,
    program: &P,
    instr: Instr,
) -> Result<(), NoMemory>
    requires { IsSpellable (P.object program.now) }
{
    let Instr::Mov { value, basic, .. } = instr else {
        return Ok(());
    };
    match basic.base {
        _ if basic.refs > 0 => say_cell_claim(page, program, value.word),
        Base::Code(t) => say_code_claim(page, program, value.word, u32::from(t)),
        Base::Int => Ok(()),
    }
}
