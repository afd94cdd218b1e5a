//! Whether a machine's state is certified: whether it may be kept as a point.
ghost use Rattle.std.specs.Prelude.{◌≡◌, ◌<◌, ◌&&◌, ◌==◌, length, Some};
ghost use Rattle.std.specs.List.{list_all};
ghost use Rattle.ft_types.specs.Objects.{queue_rows, reg_rows};
ghost use Rattle.ft_types.specs.Spellable.{IsSpellable};
ghost use Rattle.ft_semantics.specs.State.{word};
ghost use Rattle.ft_semantics.specs.Strike.{is_running};
ghost use Rattle.ft_typing.specs.TypedWord.{block_at};
ghost use Rattle.ft_points.specs.Certified.{are_partners, is_certified, is_certified_for, is_confirmed};

use ft_isa::Colour;
use ft_machine::Machine;
use ft_semantics::Status;
use ft_types::{Block, Program, RegType};
use ft_typing::same_colour;

/// Whether two register rows are partners: they state the same expression, for different colours.
fn are_partners(row: RegType, other: RegType) -> bool
    ensures { result ≡ are_partners row other }
{
    !same_colour(row.colour, other.colour) && row.expr == other.expr
}

/// Whether two rows are partners, and their registers have one word.
fn confirms(machine: &Machine, row: RegType, other: RegType) -> bool
    ensures { result ≡ (are_partners row other && (word machine.now row.reg == word machine.now other.reg)) }
{
    are_partners(row, other) && machine.reg(row.reg).word == machine.reg(other.reg).word
}

/// Whether the register of a row is confirmed by that of a partner among the rows of code type `t`.
fn is_confirmed<P: Program>(machine: &Machine, program: &P, t: u32, rows: u32, row: RegType) -> bool
    requires there { t < length (P.object program.now).types }
    requires rows { rows ≡ length (reg_rows (P.object program.now) t) }
    ensures { result ≡ is_confirmed machine.now (reg_rows (P.object program.now) t) row }
{
    for j in 0..rows {
        let other = program.reg_row(t, j);
        let same = confirms(machine, row, other);
        if same {
            return true;
        }
    }
    false
}

/// Whether the register of each row of code type `t` is confirmed.
fn are_confirmed<P: Program>(machine: &Machine, program: &P, t: u32, rows: u32) -> bool
    requires there { t < length (P.object program.now).types }
    requires rows { rows ≡ length (reg_rows (P.object program.now) t) }
    ensures { result
        ≡ list_all (is_confirmed machine.now (reg_rows (P.object program.now) t)) (reg_rows (P.object program.now) t) }
{
    for j in 0..rows {
        let row = program.reg_row(t, j);
        let confirmed = is_confirmed(machine, program, t, rows, row);
        if !confirmed {
            return false;
        }
    }
    true
}

/// Whether a machine is certified for the code type of a block.
#[tactic(auto, using(ft_types::proofs::Counted::spellable_counted))]
fn is_certified_for<P: Program>(machine: &Machine, program: &P, block: Block) -> bool
    requires spellable { IsSpellable (P.object program.now) }
    requires there { block.code_type < length (P.object program.now).types }
    ensures { result ≡ is_certified_for (P.object program.now) machine.now (Some block) }
{
    if machine.d() != 0 {
        return false;
    }
    let head = program.code_type(block.code_type);
    if head.queue != 0 {
        return false;
    }
    are_confirmed(machine, program, block.code_type, head.regs)
}

/// The block whose first instruction is at a code address; `None` exactly when there is none.
fn block_at<P: Program>(program: &P, address: u64) -> Option<Block>
    requires { IsSpellable (P.object program.now) }
    ensures { result ≡ block_at (P.object program.now) address }
{
    let blocks = program.counts().blocks;
    for b in 0..blocks {
        let block = program.block(b);
        let start = block.start as u64 + 1;
        if start == address {
            return Some(block);
        }
    }
    None
}

/// Whether a machine is running.
fn is_running(status: Status) -> bool
    ensures { result ≡ is_running status }
{
    match status {
        Status::Running => true,
        Status::Done => false,
        Status::Detected => false,
    }
}

/// Whether a machine's state is certified: it is running, nothing is fetched, both counters are at the first
/// instruction of a block, d is 0, the block's code type has no queue rows, and the register of each of its rows has
/// the word of a partner's.
pub fn is_certified<P: Program>(machine: &Machine, program: &P) -> bool
    requires { IsSpellable (P.object program.now) }
    ensures { result ≡ is_certified (P.object program.now) machine.now }
{
    if !is_running(machine.status()) {
        return false;
    }
    if machine.fetched().is_some() {
        return false;
    }
    let at = machine.pc(Colour::Green);
    if at != machine.pc(Colour::Blue) {
        return false;
    }
    match block_at(program, at) {
        Some(block) => is_certified_for(machine, program, block),
        None => false,
    }
}
