//! Goes on with a run in the caller's memory.
ghost use Rattle.std.specs.Prelude.{◌≡◌, ◌≢◌, ◌≤◌, ◌<◌, ◌+◌, ◌-◌, ℕ, List, Option, None, length, max};
ghost use Rattle.ft_isa.specs.declared.output.Output.{Output};
ghost use Rattle.ft_isa.specs.declared.plan.Strike.{Strike};
ghost use Rattle.ft_types.specs.Spellable.{IsSpellable};
ghost use Rattle.ft_types.specs.InitialWords.{object_with_words};
ghost use Rattle.ft_flight.specs.Flights.{HandedOut, HandsOn, IsFlight, IsWhole, MayHold};
ghost use Rattle.ft_flight.specs.Steps.{Ends, IsLimit, Took};

use crate::flown::{CellOutput, FlightEnd, Flown};
use crate::state::{FlightState, resume, suspend};
use crate::stepping::fill;
use ft_semantics::Status;
use ft_types::Program;

/// How many of `steps` further steps can be counted after `taken` steps with `seen` outputs.
fn limit(steps: u64, taken: u64, seen: u64) -> u64
    ensures steps { result + taken ≤ 18446744073709551615 }
    ensures outputs { result + seen ≤ 18446744073709551615 }
    ensures limit { IsLimit steps taken seen result }
{
    let left = u64::MAX - taken;
    let rest = u64::MAX - seen;
    if steps <= left && steps <= rest {
        return steps;
    }
    if left <= rest { left } else { rest }
}

/// How many further outputs are left out.
fn left_out(handed: u64, seen: u64) -> u64
    ensures { result ≡ handed - seen }
{
    if seen < handed { handed - seen } else { 0 }
}

/// The greater number.
fn greater(a: u64, b: u64) -> u64
    ensures { result ≡ max a b }
{
    if a < b { b } else { a }
}

/// Why no more steps were taken.
fn end_of(status: Status, taken: u64, most: u64) -> FlightEnd
    ensures ends { (count room : ℕ) → count ≤ room → taken ≤ most → (status ≡ Status.Running → count < room → taken ≡ most) →
        Ends result most taken count room status }
{
    match status {
        Status::Done => FlightEnd::Done,
        Status::Detected => FlightEnd::Detected,
        Status::Running => {
            if taken == most {
                FlightEnd::Cut
            } else {
                FlightEnd::Full
            }
        }
    }
}

/// Takes at most `steps` steps from the state that the words stand for, whatever they are, and fewer if the run stops or the array is
/// full. Puts their outputs into the array, but for those that an earlier attempt at the cycle handed out.
pub fn go<P: Program>(
    program: &P,
    state: &mut FlightState,
    cells: &mut [u64],
    steps: u64,
    out: &mut [CellOutput],
) -> Flown
    requires { IsSpellable (P.object program.now) }
    ensures took { Took (P.object program.now) state.old cells.old state.new cells.new steps result.steps result.count result.end out.new }
    ensures same { length out.new ≡ length out.old }

    // An attempt at a cycle goes on, and so do the outputs handed out in the cycle.
    ensures flight { (strike : Option Strike) (saved : List ℕ) → IsFlight (P.object program.now) strike state.old cells.old saved →
        IsFlight (P.object program.now) strike state.new cells.new saved }
    ensures hands { (strike : Option Strike) (saved : List ℕ) (given : List Output) →
        IsFlight (P.object program.now) strike state.old cells.old saved →
        HandedOut (object_with_words (P.object program.now) saved) state.old.handed given →
        HandsOn (object_with_words (P.object program.now) saved) state.new.handed result.count given out.new }
    ensures whole { (strike : Option Strike) (saved : List ℕ) (given : List Output) →
        IsFlight (P.object program.now) strike state.old cells.old saved →
        HandedOut (object_with_words (P.object program.now) saved) state.old.handed given → result.end ≡ FlightEnd.Done →
        IsWhole (object_with_words (P.object program.now) saved) state.new }
    ensures struck { (saved : List ℕ) → IsFlight (P.object program.now) None state.old cells.old saved → result.end ≢ FlightEnd.Detected }

    // Another cycle may begin with the cells.
    ensures held { (strike : Option Strike) (saved : List ℕ) → IsFlight (P.object program.now) strike state.old cells.old saved →
        MayHold (P.object program.now) cells.new }
{
    let most = limit(steps, state.steps, state.seen);
    let skip = left_out(state.handed, state.seen);
    let mut processor = resume(program, state);
    let filled = fill(
        &mut processor,
        &mut state.queue,
        cells,
        program,
        most,
        skip,
        out,
    );
    let end = end_of(processor.status(), filled.taken, most);
    suspend(program, &processor, state);
    state.steps += filled.taken;
    state.seen += filled.seen;
    state.handed = greater(state.handed, state.seen);
    Flown {
        steps: filled.taken,
        count: filled.count as u64,
        end,
    }
}
