//! A program's meaning.
ghost use Rattle.std.specs.Prelude.{◌≡◌, length, map, replicate, IfOk};
ghost use Rattle.ft_edge.specs.Lines.{Puts};
ghost use Rattle.ft_scope.specs.ProgramOf.{program_of};
ghost use Rattle.ft_meaning.specs.Meaning.{meaning, outputs};
ghost use Rattle.ft_meaning.specs.Lines.{output_lines};
ghost use Rattle.ft_meaning.specs.Ends.{EndsAs, put_end};
ghost use Rattle.ft_meaning.specs.Runs.{Ready, end_of_run};

use crate::mean_end::MeanEnd;
use crate::output_line::longest;
use crate::run::{Run, Stop};
use ft_edge::Sink;
use ft_isa::{NoMemory, VALUE_ROOM};
use ft_scope::Prog;
use std::alloc::Global;

/// A run of a program at its start, with this many turns and room for the lines of cells with these names.
fn start(alloc: Global, prog: &Prog<'_>, names: &[Vec<u8>], turns: u64) -> Result<Run, NoMemory>
    requires { length names.now ≡ length prog.now.inits.items }
    ensures vars { IfOk result (λ r. r.vars.items ≡ replicate prog.now.vars 0) }
    ensures cells { IfOk result (λ r. r.cells.items ≡ prog.now.inits.items) }
    ensures left { IfOk result (λ r. r.left ≡ turns) }
    ensures ready { IfOk result (Ready (map (λ n. n.items) names.now)) }
{
    let Some(room) = longest(names).checked_add(VALUE_ROOM) else {
        return Err(NoMemory);
    };
    Ok(Run {
        vars: Vec::from_elem(alloc, 0, usize::from(prog.vars))?,
        cells: Vec::from_slice(alloc, &prog.inits)?,
        left: turns,
        line: Vec::from_elem(alloc, 0, room)?,
    })
}

/// How the computation of a meaning ended, given how its run ended.
fn end_of_run(run: Result<(), Stop>) -> MeanEnd
    ensures { result ≡ end_of_run run }
{
    match run {
        Ok(()) => MeanEnd::Ended,
        Err(Stop::Cut) => MeanEnd::Cut,
        Err(Stop::WriteFault) => MeanEnd::WriteFault,
    }
}

/// Computes a program's meaning with this many loop turns for the whole run. `Ended` and `Cut` say that the program
/// ended or was cut; a line was then written for each of its outputs, each with one put. `WriteFault` and `NoMemory` do
/// not say how the program ends: with `WriteFault` the put of a line failed, the lines before it were written and
/// nothing was put after it; with `NoMemory` nothing was put.
///
/// The time is proportional to the work, and the recursion is no deeper than statements and operators nest in the
/// source.
pub fn mean<K: Sink>(alloc: Global, prog: &Prog<'_>, turns: u64, out: &mut K) -> MeanEnd
    ensures ends { EndsAs result (meaning (program_of prog.now) turns) }
    ensures lines { Puts (put_end result) (output_lines (program_of prog.now).names (outputs (meaning (program_of prog.now) turns)))
        (K.log out.old) (K.log out.new) }
{
    let Ok(names) = prog.cell_names(alloc) else {
        return MeanEnd::NoMemory;
    };
    let Ok(mut state) = start(alloc, prog, &names, turns) else {
        return MeanEnd::NoMemory;
    };
    end_of_run(state.statements(&names, &prog.body, out))
}
