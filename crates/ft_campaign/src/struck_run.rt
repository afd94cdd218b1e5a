//! A struck run, from its strike on.
ghost use Rattle.std.specs.Prelude.{◌≡◌, ◌≤◌, ◌<◌, ◌+◌, ◌-◌, ◌*◌, ℕ, List, length, Decides, IfSome, IfNone, true, None, Some};
ghost use Rattle.ft_isa.specs.declared.plan.Strike.{Strike as Fault};
ghost use Rattle.ft_isa.specs.declared.plan.Wild.{Wild as Answer};
ghost use Rattle.ft_types.specs.declared.object.Object.{Object};
ghost use Rattle.ft_types.specs.Spellable.{IsSpellable};
ghost use Rattle.ft_semantics.specs.State.{HasCells};
ghost use Rattle.ft_semantics.specs.Run.{state_after, wild_after, status_after, is_struck};
ghost use Rattle.ft_campaign.specs.Verdicts.{IsVerdict};
ghost use Rattle.ft_campaign.specs.Snapshots.{IsClean, IsRacing, IsMeeting, IsEnd, Meets};

use crate::clean::{KeptRun, SPACING, Snapshot};
use crate::follow::{Expected, How, follow};
use crate::verdict::Verdict;
use ft_isa::{Steps, Strike, Wild};
use ft_machine::{Machine, WildLeft};
use ft_semantics::Status;
use ft_types::Program;
use std::sync::ledger::Ledger;

/// A fault to try, the answers to wild loads, and the number of steps.
#[derive(Clone, Copy)]
pub(crate) struct Trial<'w> {
    pub(crate) fault: Strike,
    pub(crate) wild: &'w [Wild],
    pub(crate) n: u64,
}

/// The machine of a struck run, and the remaining answers. One such value serves all trials of a list.
#[derive(Drop)]
pub(crate) struct StruckRun<'w> {
    pub(crate) machine: Machine,
    pub(crate) left: WildLeft<'w>,
}

/// After how many steps a run is compared next, if `s` have been taken: at most `n`.
fn next_place(s: u64, n: u64) -> u64
    requires before { s < n }
    requires n { n ≤ 1000000 }
    ensures after { s < result }
    ensures within { result ≤ n }
    ensures first { (j : ℕ) → s < 1024 * j → 1024 * j ≤ n → result ≤ 1024 * j }
{
    let next = SPACING * (s / SPACING + 1);
    if next < n {
        return next;
    }
    n
}

/// Whether a machine is in the same state as another.
fn same_state(machine: &Machine, other: &Machine) -> bool
    ensures { Decides result (machine.now ≡ other.now) }
{
    machine.same_as(other)
}

/// Whether the same answers are left.
fn same_answers(left: &WildLeft, other: &WildLeft) -> bool
    ensures { Decides result (left.now ≡ other.now) }
{
    left.same_as(other)
}

/// Whether a machine and the remaining answers are those of a snapshot.
fn is_here(snapshot: &Snapshot, machine: &Machine, left: &WildLeft) -> bool
    ensures { Decides result ((machine.now ≡ snapshot.now.machine) × (left.now ≡ snapshot.now.wild)) }
{
    if !same_state(machine, &snapshot.machine) {
        return false;
    }
    same_answers(left, &snapshot.wild)
}

/// The number of outputs of the run without a fault, if the struck run meets it after `s` steps.
fn meeting(clean: &KeptRun, s: u64, machine: &Machine, left: &WildLeft) -> Option<usize>
    ensures some { (o : Object) (x : Fault) (w : List Answer) (n : ℕ) → IsClean o w n clean.now → machine.now ≡ state_after o (Some x) w s
        → left.now ≡ wild_after o (Some x) w s → IfSome result (IsMeeting o x w s) }
    ensures none { (o : Object) (x : Fault) (w : List Answer) (n : ℕ) → IsClean o w n clean.now → machine.now ≡ state_after o (Some x) w s
        → left.now ≡ wild_after o (Some x) w s → status_after o (Some x) w s ≡ Status.Running → s < n → IfNone result (¬ (Meets o x w s)) }
{
    if s % SPACING != 0 {
        return None;
    }
    let Some(snapshot) = clean.snapshots.get((s / SPACING) as usize) else {
        return None;
    };
    if !is_here(snapshot, machine, left) {
        return None;
    }
    Some(snapshot.count)
}

/// Follows a struck run from its strike on until its verdict is known. `begun` is the number of its outputs before the
/// strike.
pub(crate) fn judge_run<P: Program, L: Ledger>(
    program: &P,
    clean: &KeptRun,
    trial: Trial<'_>,
    run: &mut StruckRun<'_>,
    begun: usize,
    steps: &mut Steps<L>,
) -> Verdict
    requires spellable { IsSpellable (P.object program.now) }
    requires n { trial.n ≤ 1000000 }
    requires clean { IsClean (P.object program.now) trial.wild.now trial.n clean.now }
    requires struck { is_struck (P.object program.now) (Some trial.fault) trial.wild.now trial.n ≡ true }
    requires racing { IsRacing (P.object program.now) trial.fault trial.wild.now trial.n trial.fault.step run.old.machine run.old.left begun }
    ensures verdict { IsVerdict (P.object program.now) trial.entry.fault trial.entry.wild.now trial.entry.n result }
    ensures cells { HasCells (length (P.object program.now).cells) run.new.machine }
    ensures steps { (e : ℕ) → IsEnd (P.object program.now) trial.entry.fault trial.entry.wild.now trial.entry.n e → steps.new ≤ steps.old + (e - trial.entry.fault.step) }
{
    let n = trial.n;
    let mut s = trial.fault.step;
    let mut expected = Expected {
        whole: clean.outputs.as_slice(),
        at: begun,
    };
    while s < n {
        let next = next_place(s, n);
        let followed = follow(
            &mut run.machine,
            program,
            &mut run.left,
            next - s,
            &mut expected,
            steps,
        );
        match followed.how {
            How::Apart => return Verdict::Corrupt,
            How::Stopped => {
                return clean.verdict_at_end(
                    expected.at,
                    run.machine.status(),
                    s + followed.done - 1,
                );
            }
            How::On => {}
        }
        s = next;
        if let Some(count) = meeting(clean, s, &run.machine, &run.left) {
            return clean.verdict_at_meeting(expected.at, count);
        }
    }
    clean.verdict_at_end(expected.at, Status::Running, n)
}
