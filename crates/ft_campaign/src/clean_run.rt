//! The run without a fault, with its snapshots.
ghost use Rattle.std.specs.Prelude.{◌≡◌, ◌≤◌, ◌<◌, ◌+◌, ◌*◌, ◌++◌, IfOk, OnOk, length, None, true};
ghost use Rattle.ft_types.specs.Spellable.{IsSpellable};
ghost use Rattle.ft_semantics.specs.State.{HasCells};
ghost use Rattle.ft_semantics.specs.Run.{state_after, wild_after, outputs_after};
ghost use Rattle.ft_campaign.specs.Snapshots.{IsClean, IsSnapshot, AreSnapshots, IsDue};

use crate::clean::{KeptRun, SPACING, Snapshot};
use crate::lengths::keep_lengths;
use ft_isa::{NoMemory, Output, Steps, Wild};
use ft_machine::{Machine, Outlet, Pause, WildLeft};
use ft_semantics::Status;
use ft_types::Program;
use std::alloc::Global;
use std::sync::ledger::Ledger;

/// The state of the run before a step: its machine, the remaining answers, the number of its outputs, and the number of
/// the step.
#[derive(Clone, Copy)]
struct Moment<'a, 'w> {
    machine: &'a Machine,
    left: &'a WildLeft<'w>,
    count: usize,
    step: u64,
}

/// Copies this state of the run into a snapshot.
fn snapshot_of<'w, P: Program>(
    alloc: Global,
    program: &P,
    moment: Moment<'_, 'w>,
    wild: &'w [Wild],
) -> Result<Snapshot<'w>, NoMemory>
    requires spellable { IsSpellable (P.object program.now) }
    requires cells { HasCells (length (P.object program.now).cells) moment.machine.now }
    ensures machine { IfOk result (λ s. s.machine ≡ moment.entry.machine.now) }
    ensures wild { IfOk result (λ s. s.wild ≡ moment.entry.left.now) }
    ensures count { IfOk result (λ s. s.count ≡ moment.entry.count) }
{
    let mut copy = Machine::new(alloc, program)?;
    copy.copy_from(moment.machine);
    let mut answers = WildLeft::new(wild);
    answers.copy_from(moment.left);
    Ok(Snapshot {
        machine: copy,
        wild: answers,
        count: moment.count,
    })
}

/// Before which step the next snapshot is due, if so many are kept: at most `n`.
fn next_due(kept: usize, n: u64) -> u64
    requires { n ≤ 1000000 }
    ensures { IsDue n kept result }
{
    if n / SPACING < kept as u64 {
        return n;
    }
    SPACING * kept as u64
}

/// Keeps a snapshot of this state of the run, if it is due. Returns before which step the next one is.
fn keep_snapshot<'w, P: Program>(
    alloc: Global,
    program: &P,
    moment: Moment<'_, 'w>,
    wild: &'w [Wild],
    n: u64,
    due: u64,
    snapshots: &mut Vec<Snapshot<'w>>,
) -> Result<u64, NoMemory>
    requires spellable { IsSpellable (P.object program.now) }
    requires machine { moment.machine.now ≡ state_after (P.object program.now) None wild.now moment.step }
    requires left { moment.left.now ≡ wild_after (P.object program.now) None wild.now moment.step }
    requires count { moment.count ≡ length (outputs_after (P.object program.now) None wild.now moment.step) }
    requires snapshots { AreSnapshots (P.object program.now) wild.now moment.step snapshots.old.items }
    requires due { IsDue n (length snapshots.old.items) due }
    requires before { moment.step < n }
    requires few { n ≤ 1000000 }
    ensures snapshots { OnOk result (AreSnapshots (P.object program.now) wild.now (moment.entry.step + 1) snapshots.new.items) }
    ensures due { IfOk result (IsDue n (length snapshots.new.items)) }
    ensures after { IfOk result (λ next. moment.entry.step < next) }
{
    if moment.step < due {
        return Ok(due);
    }
    let snapshot = snapshot_of(alloc, program, moment, wild)?;
    snapshots.push(snapshot).map_err(|_| NoMemory)?;
    Ok(next_due(snapshots.len(), n))
}

/// The outputs so far. As an outlet, it stops the run if memory runs out.
#[derive(Drop)]
struct OutputList {
    outputs: Vec<Output>,
}

impl Outlet for OutputList {
    ghost use Rattle.std.proofs.Common.{sym, append-nil};

    ghost heard = { λ first outputs goes now. goes ≡ true → now.outputs.items ≡ first.outputs.items ++ outputs };

    ghost may = { λ list output. Unit {0} };

    ghost heard_none = { λ list goes. sym (append-nil list.outputs.items) };

    fn take(&mut self, output: Output) -> bool {
        self.outputs.push(output).is_ok()
    }
}

/// Runs a program from its start without a fault, for at most `n` steps.
pub(crate) fn run_clean<'w, P: Program, L: Ledger>(
    alloc: Global,
    program: &P,
    wild: &'w [Wild],
    n: u64,
    steps: &mut Steps<L>,
) -> Result<KeptRun<'w>, NoMemory>
    requires spellable { IsSpellable (P.object program.now) }
    requires n { n ≤ 1000000 }
    ensures clean { IfOk result (IsClean (P.object program.now) wild.now n) }
    ensures steps { steps.new ≤ steps.old + n }
{
    let mut machine = Machine::new(alloc, program)?;
    let mut left = WildLeft::new(wild);
    let mut list = OutputList {
        outputs: Vec::new(alloc),
    };
    let mut lengths = Vec::new(alloc);
    let mut snapshots = Vec::new(alloc);
    let mut k = 0;
    let mut due = 0;
    while k < n {
        let moment = Moment {
            machine: &machine,
            left: &left,
            count: list.outputs.len(),
            step: k,
        };
        due = keep_snapshot(alloc, program, moment, wild, n, due, &mut snapshots)?;
        let most = keep_lengths(&machine, program, due - k, &mut lengths)?;
        let gone = machine.go(program, &mut left, most, &mut list);
        steps.count(gone.taken);
        if gone.pause == Pause::Refused {
            return Err(NoMemory);
        }
        k += gone.taken;
        let status = machine.status();
        if status != Status::Running {
            lengths.truncate(k as usize);
            return Ok(KeptRun {
                outputs: list.outputs,
                lengths,
                snapshots,
                status,
                last: k - 1,
            });
        }
    }
    Ok(KeptRun {
        outputs: list.outputs,
        lengths,
        snapshots,
        status: Status::Running,
        last: n,
    })
}
