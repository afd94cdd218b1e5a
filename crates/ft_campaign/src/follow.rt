//! Steps of a struck run, compared with the outputs of the run without a fault.
ghost use Rattle.std.specs.Prelude.{◌≡◌, ◌≤◌, ◌<◌, ◌+◌, ◌^◌, ◌++◌, ◌∷◌, [], ℕ, length, take, true};
ghost use Rattle.ft_semantics.specs.Agrees.{IsPrefix};
ghost use Rattle.ft_types.specs.Spellable.{IsSpellable};
ghost use Rattle.ft_machine.specs.Spans.{span};
ghost use Rattle.ft_campaign.specs.Follows.{Heeds, Follows, how_of};

use ft_isa::{Output, Steps};
use ft_machine::{Machine, Outlet, Pause, WildLeft};
use ft_semantics::Status;
use ft_types::Program;
use std::sync::ledger::Ledger;

/// How some steps of a struck run went.
#[derive(Clone, Copy)]
pub(crate) enum How {
    /// The machine is still running.
    On,
    /// The machine has stopped.
    Stopped,
    /// An output is not that of the run without a fault.
    Apart,
}

/// Some steps of a struck run: how many, and how they went.
#[derive(Clone, Copy)]
pub(crate) struct Followed {
    pub(crate) done: u64,
    pub(crate) how: How,
}

/// Whether an output is the one at this place in a list; if so, the place moves past it.
fn is_next(whole: &[Output], at: &mut usize, output: Output) -> bool
    requires { at.old ≤ length whole.now }
    ensures heeds { Heeds result whole.now at.old at.new (output ∷ []) }
    ensures within { at.new ≤ length whole.now }
{
    match whole.get(*at) {
        None => false,
        Some(next) => {
            if *next == output {
                *at += 1;
                true
            } else {
                false
            }
        }
    }
}

/// The outputs of the run without a fault, and how many of them the struck run has had. As an outlet, it stops the run
/// at an output that is not the next one.
#[derive(Drop)]
pub(crate) struct Expected<'a> {
    pub(crate) whole: &'a [Output],
    pub(crate) at: usize,
}

impl<'a> Outlet for Expected<'a> {
    ghost use Rattle.std.proofs.Common.{refl};
    ghost use Rattle.ft_campaign.specs.Follows.{heeds_none};

    ghost heard = { λ first outputs goes now. (now.whole.now ≡ first.whole.now) × (first.at ≤ length first.whole.now → Heeds goes first.whole.now first.at now.at outputs) };

    ghost may = { λ expected output. expected.at ≤ length expected.whole.now };

    ghost heard_none = { λ expected. (refl, λ within. heeds_none expected.whole.now expected.at within) };

    /// A separate function, so that the loop over instructions keeps none of this in processor registers.
    #[inline(never)]
    fn take(&mut self, output: Output) -> bool {
        is_next(self.whole, &mut self.at, output)
    }
}

/// How steps went, given how they ended.
fn how_of(pause: Pause) -> How
    ensures { result ≡ how_of pause }
{
    match pause {
        Pause::Running => How::On,
        Pause::Done => How::Stopped,
        Pause::Detected => How::Stopped,
        Pause::Refused => How::Apart,
    }
}

/// Takes at most `number` steps of a running machine, and ends early if it stops or an output is not the expected one.
pub(crate) fn follow<P: Program, L: Ledger>(
    machine: &mut Machine,
    program: &P,
    wild: &mut WildLeft,
    number: u64,
    expected: &mut Expected,
    steps: &mut Steps<L>,
) -> Followed
    requires spellable { IsSpellable (P.object program.now) }
    requires running { machine.old.status ≡ Status.Running }
    requires within { expected.old.at ≤ length expected.old.whole.now }
    ensures follows { Follows (P.object program.now) machine.old wild.old machine.new wild.new expected.old.whole.now expected.old.at expected.new.at number result }
    ensures whole { expected.new.whole.now ≡ expected.old.whole.now }
    ensures steps { steps.new ≡ steps.old + result.done }
{
    let gone = machine.go(program, wild, number, expected);
    steps.count(gone.taken);
    Followed {
        done: gone.taken,
        how: how_of(gone.pause),
    }
}

/// How many outputs have come so far.
#[derive(Drop)]
struct OutputCount {
    count: usize,
}

impl Outlet for OutputCount {
    ghost use Rattle.std.proofs.Common.{refl, sym, add-zero};

    ghost heard = { λ first outputs goes now. (goes ≡ true) × (first.count + length outputs < 2 ^ 64 → now.count ≡ first.count + length outputs) };

    ghost may = { λ count output. Unit {0} };

    ghost heard_none = { λ count. (refl, λ few. sym (add-zero count.count)) };

    fn take(&mut self, output: Output) -> bool {
        let _ = output;
        self.count = self.count.wrapping_add(1);
        true
    }
}

/// Takes some steps after which the machine is still running, and counts their outputs.
pub(crate) fn count_outputs<P: Program, L: Ledger>(
    machine: &mut Machine,
    program: &P,
    wild: &mut WildLeft,
    number: u64,
    steps: &mut Steps<L>,
) -> usize
    requires spellable { IsSpellable (P.object program.now) }
    requires running { (span (P.object program.now) number machine.old wild.old).state.status ≡ Status.Running }
    ensures state { machine.new ≡ (span (P.object program.now) number machine.old wild.old).state }
    ensures wild { wild.new ≡ (span (P.object program.now) number machine.old wild.old).wild }
    ensures count { result ≡ length (span (P.object program.now) number machine.old wild.old).outputs }
    ensures steps { steps.new ≡ steps.old + number }
{
    let mut outputs = OutputCount { count: 0 };
    let gone = machine.go(program, wild, number, &mut outputs);
    steps.count(gone.taken);
    outputs.count
}
