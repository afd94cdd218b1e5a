//! The calls over the bytes of an object that was checked. None takes an allocator.
ghost use Rattle.std.specs.Prelude.{◌≡◌, ◌≢◌, ℕ, List, Option, None, Some, [], length};
ghost use Rattle.ft_isa.specs.declared.output.Output.{Output};
ghost use Rattle.ft_isa.specs.declared.plan.Strike.{Strike};
ghost use Rattle.ft_format.specs.Broken.{broken, object_of};
ghost use Rattle.ft_typing.specs.Accepted.{IsAccepted};
ghost use Rattle.ft_semantics.specs.State.{start};
ghost use Rattle.ft_types.specs.InitialWords.{object_with_words};
ghost use Rattle.ft_flight.specs.Flights.{HandedOut, HandsOn, IsFlight, IsWhole, MayHold};
ghost use Rattle.ft_flight.specs.States.{state_in};
ghost use Rattle.ft_flight.specs.Steps.{Took};

use crate::cycling::{again, cycle};
use crate::flown::{CellOutput, FlightEnd, Flown};
use crate::going::go;
use crate::state::FlightState;
use ft_view::View;

/// `go` over the bytes of an object, which were checked.
pub fn go_on(
    bytes: &[u8],
    state: &mut FlightState,
    cells: &mut [u64],
    steps: u64,
    out: &mut [CellOutput],
) -> Flown
    requires { broken bytes.now ≡ None }
    ensures took { Took (object_of bytes.now) state.old cells.old state.new cells.new steps result.steps result.count result.end out.new }
    ensures same { length out.new ≡ length out.old }
    ensures flight { (strike : Option Strike) (saved : List ℕ) → IsFlight (object_of bytes.now) strike state.old cells.old saved →
        IsFlight (object_of bytes.now) strike state.new cells.new saved }
    ensures hands { (strike : Option Strike) (saved : List ℕ) (given : List Output) →
        IsFlight (object_of bytes.now) strike state.old cells.old saved →
        HandedOut (object_with_words (object_of bytes.now) saved) state.old.handed given →
        HandsOn (object_with_words (object_of bytes.now) saved) state.new.handed result.count given out.new }
    ensures whole { (strike : Option Strike) (saved : List ℕ) (given : List Output) →
        IsFlight (object_of bytes.now) strike state.old cells.old saved →
        HandedOut (object_with_words (object_of bytes.now) saved) state.old.handed given → result.end ≡ FlightEnd.Done →
        IsWhole (object_with_words (object_of bytes.now) saved) state.new }
    ensures struck { (saved : List ℕ) → IsFlight (object_of bytes.now) None state.old cells.old saved → result.end ≢ FlightEnd.Detected }
    ensures held { (strike : Option Strike) (saved : List ℕ) → IsFlight (object_of bytes.now) strike state.old cells.old saved →
        MayHold (object_of bytes.now) cells.new }
{
    let view = View::again(bytes);
    go(&view, state, cells, steps, out)
}

/// `cycle` over the bytes of an object, which were checked.
pub fn cycle_on(bytes: &[u8], state: &mut FlightState, cells: &[u64], saved: &mut [u64])
    requires known { broken bytes.now ≡ None }
    requires as_many { length cells.now ≡ length (object_of bytes.now).cells }
    requires room { length saved.old ≡ length cells.now }
    ensures saved { saved.new ≡ cells.now }
    ensures start { state_in (object_of bytes.now) state.new cells.now ≡ start (object_with_words (object_of bytes.now) cells.now) }
    ensures none { state.new.handed ≡ 0 }
    ensures flight { IsAccepted (object_of bytes.now) → MayHold (object_of bytes.now) cells.now →
        IsFlight (object_of bytes.now) None state.new cells.now saved.new }
    ensures handed { HandedOut (object_with_words (object_of bytes.now) cells.now) state.new.handed [] }
{
    let view = View::again(bytes);
    cycle(&view, state, cells, saved);
}

/// `again` over the bytes of an object, which were checked.
pub fn again_on(bytes: &[u8], state: &mut FlightState, cells: &mut [u64], saved: &[u64])
    requires known { broken bytes.now ≡ None }
    requires as_many { length saved.now ≡ length (object_of bytes.now).cells }
    requires room { length cells.old ≡ length saved.now }
    ensures cells { cells.new ≡ saved.now }
    ensures start { state_in (object_of bytes.now) state.new cells.new ≡ start (object_with_words (object_of bytes.now) saved.now) }
    ensures handed { state.new.handed ≡ state.old.handed }
    ensures flight { (strike : Option Strike) → IsFlight (object_of bytes.now) strike state.old cells.old saved.now →
        IsFlight (object_of bytes.now) None state.new cells.new saved.now }
{
    let view = View::again(bytes);
    again(&view, state, cells, saved);
}
