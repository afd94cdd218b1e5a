//! Recovery from a detected fault.
ghost use Rattle.std.specs.Prelude.{◌≡◌, None};
ghost use Rattle.ft_edge.specs.Lines.{Puts};
ghost use Rattle.ft_semantics.specs.Run.{status_after};
ghost use Rattle.ft_recover.specs.Recovery.{EndsAs, Restarts, put_end, restart_output, whole_output};

use crate::recover_end::RecoverEnd;
use crate::runs::recover_on;
use ft_checker::Checked;
use ft_edge::Sink;
use ft_isa::Plan;
use ft_machine::Machine;
use ft_types::Program;
use std::alloc::Global;

/// Runs an accepted program from its start under a plan, for at most `steps` steps, and writes a line for each output,
/// each with one put. If a fault is detected, it starts the program again without the strike, for at most `steps`
/// steps, and leaves out as many outputs as were committed. So the lines and the end are those of the run without a
/// fault, whatever is struck. Both machines are made first, so nothing is written if it returns `NoMemory`. It returns
/// `WriteFault` only after a failed put, which was the last.
pub fn recover<'a, P: Program, K: Sink>(
    alloc: Global,
    checked: &Checked<'a, P>,
    plan: Plan,
    steps: u64,
    out: &mut K,
) -> RecoverEnd
    // The end is that of the run without a fault, which is never detected.
    ensures ends { EndsAs result (status_after (P.object checked.now) None plan.entry.wild.now steps) }
    ensures again { Restarts result (restart_output (P.object checked.now) plan.entry.strike plan.entry.wild.now steps) }
    ensures lines { Puts (put_end result) (whole_output (P.object checked.now) plan.entry.wild.now steps)
        (K.log out.old) (K.log out.new) }
{
    let program = checked.program();
    let Ok(mut first) = Machine::new(alloc, program) else {
        return RecoverEnd::NoMemory;
    };
    let Ok(mut second) = Machine::new(alloc, program) else {
        return RecoverEnd::NoMemory;
    };
    recover_on(&mut first, &mut second, program, plan, steps, out)
}
