//! Repeats runs to see what stopped them.
ghost use Rattle.std.specs.Prelude.{◌≡◌, ◌≤◌};
ghost use Rattle.ft_types.specs.Spellable.{IsSpellable};

use ft_isa::{Plan, Strike};
use ft_machine::{Machine, Status, Stepped, WildLeft};
use ft_types::Program;

/// Takes at most `most` steps of a machine, and returns how many it took; 0 if the machine has stopped.
fn advance<P: Program>(machine: &mut Machine, program: &P, wild: &mut WildLeft, most: u64) -> u64
    requires { IsSpellable (P.object program.now) }
    ensures few { result ≤ most }
{
    match machine.status() {
        Status::Running => machine.advance(program, wild, most).taken,
        Status::Done | Status::Detected => 0,
    }
}

/// Takes `most` steps of a machine, or fewer if it stops, and returns how many it took.
pub(crate) fn go<P: Program>(
    machine: &mut Machine,
    program: &P,
    wild: &mut WildLeft,
    most: u64,
) -> u64
    requires { IsSpellable (P.object program.now) }
{
    let mut left = most;
    for _ in 0..most {
        let taken = advance(machine, program, wild, left);
        if taken == 0 {
            break;
        }
        left -= taken;
    }
    most.saturating_sub(left)
}

/// How many steps a loop in place has at most.
const IN_PLACE: u64 = 32;

/// Takes a step of a machine, and returns whether the step was quiet; false if the machine has stopped.
fn takes_quiet_step<P: Program>(machine: &mut Machine, program: &P, wild: &mut WildLeft) -> bool
    requires { IsSpellable (P.object program.now) }
{
    match machine.status() {
        Status::Running => machine.step(program, wild) == Stepped::Quiet,
        Status::Done | Status::Detected => false,
    }
}

/// Whether a machine comes back to this state of its own within a few quiet steps. Without wild answers it then runs
/// for ever, and puts nothing.
pub(crate) fn comes_back<P: Program>(machine: &mut Machine, program: &P, state: &Machine) -> bool
    requires { IsSpellable (P.object program.now) }
{
    let mut wild = WildLeft::new(&[]);
    for _ in 0..IN_PLACE {
        if !takes_quiet_step(machine, program, &mut wild) {
            return false;
        }
        if machine.same_as(state) {
            return true;
        }
    }
    false
}

/// How a repeated run went.
#[derive(Clone, Copy)]
pub(crate) struct Met {
    /// How many steps were taken.
    pub taken: u64,
    /// Whether the strike found its site; `None` if no strike came before the last step.
    pub struck: Option<bool>,
    /// The status of the machine when the strike came, or else after the last step.
    pub stood: Status,
}

/// Runs a machine to the step of the strike, strikes it, and continues.
fn strike<P: Program>(
    machine: &mut Machine,
    program: &P,
    wild: &mut WildLeft,
    strike: Strike,
    steps: u64,
) -> Met
    requires { IsSpellable (P.object program.now) }
{
    let before = go(machine, program, wild, strike.step);
    let stood = machine.status();
    let struck = machine.strike(strike.site, strike.value);
    let after = go(machine, program, wild, steps.saturating_sub(strike.step));
    Met {
        taken: before.saturating_add(after),
        struck: Some(struck),
        stood,
    }
}

/// Runs a machine from its start under a plan, for at most `steps` steps.
pub(crate) fn rerun<P: Program>(machine: &mut Machine, program: &P, plan: Plan, steps: u64) -> Met
    requires { IsSpellable (P.object program.now) }
{
    let mut wild = WildLeft::new(plan.wild);
    match plan.strike {
        Some(at) if at.step < steps => strike(machine, program, &mut wild, at, steps),
        _ => Met {
            taken: go(machine, program, &mut wild, steps),
            struck: None,
            stood: machine.status(),
        },
    }
}
