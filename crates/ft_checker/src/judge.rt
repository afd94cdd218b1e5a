//! The whole check.
ghost use Rattle.std.specs.Prelude.{◌≡◌, ◌+◌, ◌<◌, ◌≤◌, IfOk};
ghost use Rattle.ft_typing.specs.Accepted.{refusal};
ghost use Rattle.ft_types.specs.Spellable.{IsSpellable};
ghost use Rattle.ft_checker.specs.Costs.{check_cost};
ghost use Rattle.ft_checker.specs.Judges.{Judges};

use crate::blocks::check_blocks;
use crate::cells::check_cells;
use crate::checked::Checked;
use crate::entry::is_entry_type;
use crate::error::CheckError;
use ft_isa::Steps;
use ft_meter::Meter;
use ft_types::Program;
use std::alloc::Global;
use std::marker::Brand;
use std::sync::ledger::{Blank, Ledger};

/// How many records and nodes are read once.
#[inline(always)]
fn records<P: Program>(program: &P) -> u64
    requires { IsSpellable (P.object program.now) }
{
    let counts = program.counts();
    let code = counts.blocks as u64 + counts.instrs as u64 + counts.substs as u64;
    code + counts.cells as u64 + counts.types as u64 + program.node_count() as u64
}

/// Tests the entry block's code type, then the cells, then the blocks. It gives up with `NoMemory` if the meter refuses
/// steps or work.
pub(crate) fn judge<P: Program, M: Meter>(
    alloc: Global,
    program: &P,
    meter: &mut M,
) -> Result<(), CheckError>
    requires { IsSpellable (P.object program.now) }
    ensures judged { Judges (refusal (P.object program.now)) result }
    ensures steps { M.counted meter.new ≤ M.counted meter.old + check_cost (P.object program.now) }
{
    meter.pay(records(program))?;
    let first = program.block(program.entry()).code_type;
    let begins = is_entry_type(program, first);
    if !begins {
        return Err(CheckError::EntryType);
    }
    check_cells(program)?;
    check_blocks(alloc, program, meter)
}

/// Checks a program. Unless memory runs out, it returns Ok exactly when the program's object is accepted, and otherwise
/// the refusal: first `EntryType`, then `CellType` for the lowest cell whose initial word has another type, then
/// `Refused` for the first refused instruction, taking the blocks in order. `NoMemory` says nothing about the object.
/// It counts a step for each node handled, for each update at which the walk of a `sel` goes on, and for each update
/// applied for a pending memory.
pub fn check<'a, P: Program, L: Ledger>(
    alloc: Global,
    program: &'a P,
    steps: &mut Steps<L>,
) -> Result<Checked<'a, P>, CheckError>
    requires { IsSpellable (P.object program.now) }
    ensures judged { Judges (refusal (P.object program.now)) result }
    ensures program { IfOk result (λ k. k ≡ program.now) }
    ensures steps { steps.new ≤ steps.old + check_cost (P.object program.now) }
{
    match judge(alloc, program, steps) {
        Ok(()) => Ok(Checked { program }),
        Err(error) => Err(error),
    }
}

/// Checks a program, with steps counted from 0.
fn check_from_0<'a, P: Program, L: Ledger>(
    alloc: Global,
    program: &'a P,
    blank: Blank,
) -> Result<Checked<'a, P>, CheckError>
    requires name { blank.name ≡ L.name }
    requires parts { blank.parts ≡ L.parts }
    requires some { 0 < L.parts }
    requires spellable { IsSpellable (P.object program.now) }
    ensures judged { Judges (refusal (P.object program.now)) result }
    ensures program { IfOk result (λ k. k ≡ program.now) }
{
    let mut steps = Steps::<L>::new(blank);
    check(alloc, program, &mut steps)
}

/// The check that `check` makes, for callers that do not count steps.
pub fn check_uncounted<'a, P: Program>(
    alloc: Global,
    program: &'a P,
) -> Result<Checked<'a, P>, CheckError>
    requires { IsSpellable (P.object program.now) }
    ensures judged { Judges (refusal (P.object program.now)) result }
    ensures program { IfOk result (λ k. k ≡ program.now) }
{
    check_from_0::<P, Brand>(alloc, program, Blank::new(1))
}
