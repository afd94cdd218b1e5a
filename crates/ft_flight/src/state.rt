//! The state of a run as plain words.
ghost use Rattle.std.specs.Prelude.{◌≡◌, ℕ, List};
ghost use Rattle.ft_types.specs.Objects.{instr_at};
ghost use Rattle.ft_types.specs.Spellable.{IsSpellable};
ghost use Rattle.ft_machine.specs.Processors.{state_over};
ghost use Rattle.ft_flight.specs.Rings.{pending_of};
ghost use Rattle.ft_flight.specs.States.{IsFetchedFrom, state_in, status_of};

use crate::plain_queue::PlainQueue;
use ft_machine::{Processor, Registers};
use ft_semantics::Status;
use ft_types::Program;

/// The state of a run but for its cells, 776 bytes. Every bit pattern is one.
#[repr(C)]
#[derive(Clone, Copy)]
pub struct FlightState {
    /// The words of r0 to r63.
    pub words: [u64; 64],
    /// Their colours: 0 is green, any other number blue.
    pub colours: [u8; 64],
    /// The destination register.
    pub d: u64,
    /// The green program counter.
    pub pc_green: u64,
    /// The blue program counter.
    pub pc_blue: u64,
    /// The code address of the fetched instruction. Nothing is fetched if no instruction has it, as 0.
    pub fetched: u64,
    /// 0 running, 1 done; any other number: detected.
    pub status: u64,
    /// The pending stores.
    pub queue: PlainQueue,
    /// How many steps this attempt at the cycle has taken.
    pub steps: u64,
    /// How many outputs this attempt has had, handed out or not.
    pub seen: u64,
    /// How many outputs of the cycle were handed out.
    pub handed: u64,
}

/// The status that a number stands for.
fn status_in(number: u64) -> Status
    ensures { result ≡ status_of number }
{
    match number {
        0 => Status::Running,
        1 => Status::Done,
        _ => Status::Detected,
    }
}

/// A number that stands for a status.
fn number_of(status: Status) -> u64
    ensures { status_of result ≡ status }
{
    match status {
        Status::Running => 0,
        Status::Done => 1,
        Status::Detected => 2,
    }
}

/// The processor in this state.
pub(crate) fn resume<P: Program>(program: &P, state: &FlightState) -> Processor
    requires { IsSpellable (P.object program.now) }
    ensures { (cells : List ℕ) → state_over result (pending_of state.now.queue) cells ≡ state_in (P.object program.now) state.now cells }
{
    let registers = Registers::of_words(&state.words, &state.colours);
    let status = status_in(state.status);
    Processor::resumed(
        program,
        registers,
        state.d,
        state.pc_green,
        state.pc_blue,
        state.fetched,
        status,
    )
}

/// The code address of what is fetched, or 0 if nothing is: the green counter's, if that is fetched, or else this one.
fn fetched_address<P: Program>(program: &P, processor: &Processor, old: u64) -> u64
    requires spellable { IsSpellable (P.object program.now) }
    requires from { IsFetchedFrom (P.object program.now) (instr_at (P.object program.now) old) processor.now.fetched
        processor.now.pc_green }
    ensures { instr_at (P.object program.now) result ≡ processor.now.fetched }
{
    if !processor.has_fetched() {
        return 0;
    }
    let green = processor.pc_green();
    if processor.has_fetched_at(program, green) {
        return green;
    }
    old
}

/// Writes what the processor holds.
pub(crate) fn suspend<P: Program>(program: &P, processor: &Processor, state: &mut FlightState)
    requires spellable { IsSpellable (P.object program.now) }
    requires from { IsFetchedFrom (P.object program.now) (instr_at (P.object program.now) state.old.fetched)
        processor.now.fetched processor.now.pc_green }
    ensures stands { (cells : List ℕ) → state_in (P.object program.now) state.new cells
        ≡ state_over processor.now (pending_of state.old.queue) cells }
    ensures steps { state.new.steps ≡ state.old.steps }
    ensures seen { state.new.seen ≡ state.old.seen }
    ensures handed { state.new.handed ≡ state.old.handed }
{
    let fetched = fetched_address(program, processor, state.fetched);
    processor
        .registers()
        .put_words(&mut state.words, &mut state.colours);
    state.d = processor.d();
    state.pc_green = processor.pc_green();
    state.pc_blue = processor.pc_blue();
    state.fetched = fetched;
    state.status = number_of(processor.status());
}
