//! Begins a cycle, and begins it again.
ghost use Rattle.std.specs.Prelude.{◌≡◌, ◌≤◌, ◌<◌, [], ℕ, List, length, slice_index_or, Option, None, Some};
ghost use Rattle.ft_isa.specs.declared.plan.Strike.{Strike};
ghost use Rattle.ft_types.specs.Objects.{init_of};
ghost use Rattle.ft_types.specs.Spellable.{IsSpellable};
ghost use Rattle.ft_typing.specs.Accepted.{IsAccepted};
ghost use Rattle.ft_semantics.specs.State.{start};
ghost use Rattle.ft_semantics.specs.Strike.{is_there, struck_state};
ghost use Rattle.ft_machine.specs.Arrays.{cells_of};
ghost use Rattle.ft_types.specs.InitialWords.{object_with_words};
ghost use Rattle.ft_flight.specs.Flights.{HandedOut, IsFlight, MayHold};
ghost use Rattle.ft_flight.specs.States.{state_in};

use crate::plain_queue::PlainQueue;
use crate::state::{FlightState, resume, suspend};
use ft_isa::Site;
use ft_machine::entry_address;
use ft_types::Program;

/// A state before the first step of a cycle of which this many outputs were handed out.
fn first_state<P: Program>(program: &P, handed: u64) -> FlightState
    requires { IsSpellable (P.object program.now) }
    ensures start { (words : List ℕ) → length words ≡ length (P.object program.now).cells →
        state_in (P.object program.now) result words ≡ start (object_with_words (P.object program.now) words) }
    ensures steps { result.steps ≡ 0 }
    ensures seen { result.seen ≡ 0 }
    ensures handed { result.handed ≡ handed }
{
    let entry = entry_address(program);
    FlightState {
        words: [0; 64],
        colours: [0; 64],
        d: 0,
        pc_green: entry,
        pc_blue: entry,
        fetched: 0,
        status: 0,
        queue: PlainQueue::new(),
        steps: 0,
        seen: 0,
        handed,
    }
}

/// Puts the object's initial words into the cells.
#[tactic(auto, using(ft_types::proofs::Counted::spellable_counted))]
pub fn begin<P: Program>(program: &P, cells: &mut [u64])
    requires spellable { IsSpellable (P.object program.now) }
    requires as_many { length cells.old ≡ length (P.object program.now).cells }
    ensures as_many { length cells.new ≡ length (P.object program.now).cells }
    ensures words { (k : ℕ) → k < length cells.new → slice_index_or cells.new k 0 ≡ init_of (P.object program.now) k }
{
    for k in 0..cells.len() {
        cells[k] = program.cell(k as u32).init;
    }
}

/// Begins a cycle: saves the cells, and goes to the start of the object that begins with their words.
pub fn cycle<P: Program>(program: &P, state: &mut FlightState, cells: &[u64], saved: &mut [u64])
    requires spellable { IsSpellable (P.object program.now) }
    requires as_many { length cells.now ≡ length (P.object program.now).cells }
    requires room { length saved.old ≡ length cells.now }
    ensures saved { saved.new ≡ cells.now }
    ensures start { state_in (P.object program.now) state.new cells.now ≡ start (object_with_words (P.object program.now) cells.now) }
    ensures none { state.new.handed ≡ 0 }
    ensures flight { IsAccepted (P.object program.now) → MayHold (P.object program.now) cells.now →
        IsFlight (P.object program.now) None state.new cells.now saved.new }
    ensures handed { HandedOut (object_with_words (P.object program.now) cells.now) state.new.handed [] }
{
    saved.copy_from_slice(cells);
    *state = first_state(program, 0);
}

/// Begins the cycle again, from its saved cells and without a strike. What was handed out stays handed out.
pub fn again<P: Program>(program: &P, state: &mut FlightState, cells: &mut [u64], saved: &[u64])
    requires spellable { IsSpellable (P.object program.now) }
    requires as_many { length saved.now ≡ length (P.object program.now).cells }
    requires room { length cells.old ≡ length saved.now }
    ensures cells { cells.new ≡ saved.now }
    ensures start { state_in (P.object program.now) state.new cells.new ≡ start (object_with_words (P.object program.now) saved.now) }
    ensures handed { state.new.handed ≡ state.old.handed }
    ensures flight { (strike : Option Strike) → IsFlight (P.object program.now) strike state.old cells.old saved.now →
        IsFlight (P.object program.now) None state.new cells.new saved.now }
{
    cells.copy_from_slice(saved);
    let handed = state.handed;
    *state = first_state(program, handed);
}

/// Strikes a site of any state: the word there becomes `value`. Returns `false`, with the state unchanged, exactly when the run has
/// stopped or the site does not exist.
pub fn strike<P: Program>(program: &P, state: &mut FlightState, site: Site, value: u64) -> bool
    requires { IsSpellable (P.object program.now) }
    ensures there { (cells : List ℕ) → result ≡ is_there (state_in (P.object program.now) state.old cells) site }
    ensures struck { (cells : List ℕ) → state_in (P.object program.now) state.new cells
        ≡ struck_state (state_in (P.object program.now) state.old cells) site value }
    ensures handed { state.new.handed ≡ state.old.handed }
    ensures flight { (cells saved : List ℕ) → IsFlight (P.object program.now) None state.old cells saved →
        IsFlight (P.object program.now) (Some (record { step = state.old.steps; site = site; value = value })) state.new cells saved }
{
    let mut processor = resume(program, state);
    let struck = processor.strike(&mut state.queue, site, value);
    suspend(program, &processor, state);
    struck
}
