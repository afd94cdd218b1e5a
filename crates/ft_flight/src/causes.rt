//! Tells why a run was detected.
ghost use Rattle.std.specs.Prelude.{◌≡◌, ◌==◌, ◌∷◌, [], if◌then◌else◌, List, ℕ, Bool, is_some, None, Some};
ghost use Rattle.ft_types.specs.declared.object.Object.{Object};
ghost use Rattle.ft_types.specs.Spellable.{IsSpellable};
ghost use Rattle.ft_types.specs.Objects.{instr_at};
ghost use Rattle.ft_semantics.specs.declared.status.Status.TheVariants.{Running};
ghost use Rattle.ft_semantics.specs.State.{State, held, is_cell};
ghost use Rattle.ft_semantics.specs.Step.{found, step};
ghost use Rattle.ft_isa.specs.Pending.{Pending};
ghost use Rattle.ft_machine.specs.Arrays.{cells_of};
ghost use Rattle.ft_machine.specs.Processors.{ProcessorState, state_over};
ghost use Rattle.ft_flight.specs.Causes.{blue_cause, blue_store_cause, cause, cause_at, green_cause, green_store_cause, is_detected, load_cause, pass_cause};
ghost use Rattle.ft_flight.specs.Rings.{pending_of};
ghost use Rattle.ft_flight.specs.States.{state_in};

use crate::plain_queue::PlainQueue;
use crate::reason::{Cause, Reason};
use crate::state::{FlightState, resume};
use ft_isa::{Colour, Instr, Reg};
use ft_machine::{Processor, cell_at, has_cell};
use ft_queue::{PendingStores, ROOM};
use ft_types::Program;

/// For every object and every running state: the next step is detected exactly when a cause is given.
pub fn causes_are_exact()
    ensures { (o : Object) (s : State) → s.status ≡ Running → is_some (cause o s) ≡ is_detected (step o s []).state.status }
{}

/// Why the step was detected after which the words stand for this state. The state alone determines it; for a state that no detected
/// step led to, it is why its next step would be detected, if it would.
pub fn cause_of<P: Program>(program: &P, state: &FlightState, cells: &[u64]) -> Option<Cause>
    requires { IsSpellable (P.object program.now) }
    ensures { result ≡ cause (P.object program.now) (state_in (P.object program.now) state.now cells.now) }
{
    let processor = resume(program, state);
    match processor.fetched() {
        None => of_fetch(program, &processor),
        Some(instr) => of_instr(&processor, &state.queue, cells, instr),
    }
}

fn because(reason: Reason, left: u64, right: u64) -> Option<Cause>
    ensures { result ≡ Some (record { reason = reason; left = left; right = right }) }
{
    Some(Cause {
        reason,
        left,
        right,
    })
}

/// Why a fetch is detected.
fn of_fetch<P: Program>(program: &P, processor: &Processor) -> Option<Cause>
    requires { IsSpellable (P.object program.now) }
    ensures { (pending : Pending) (cells : List ℕ) → result
        ≡ cause_at (P.object program.now) None (state_over processor.now pending cells) }
{
    let green = processor.pc_green();
    let blue = processor.pc_blue();
    if green != blue {
        return because(Reason::Counters, green, blue);
    }
    if ft_machine::has_instr(program, green) {
        return None;
    }
    because(Reason::NoCode, green, green)
}

/// The word of a register.
fn word(processor: &Processor, r: Reg) -> u64
    ensures { result ≡ (held processor.now.registers r.number).word }
{
    processor.registers().get(r).word
}

/// Why an instruction is detected.
fn of_instr(processor: &Processor, queue: &PlainQueue, cells: &[u64], instr: Instr) -> Option<Cause>
    ensures { (o : Object) → result ≡ cause_at o (Some instr) (state_over processor.now (pending_of queue.now) cells.now) }
{
    match instr {
        Instr::Ld { colour, rd: _, rs } => of_load(queue, cells, colour, word(processor, rs)),
        Instr::St {
            colour: Colour::Green,
            rd,
            rs: _,
        } => of_green_store(queue, word(processor, rd)),
        Instr::St {
            colour: Colour::Blue,
            rd,
            rs,
        } => of_blue_store(queue, cells, word(processor, rd), word(processor, rs)),
        Instr::JmpG { rd: _ } => of_green(processor.d()),
        Instr::JmpB { rd, subst: _ } => of_blue(word(processor, rd), processor.d()),
        Instr::BzG { rz: _, rd: _ } => of_green(processor.d()),
        Instr::BzB { rz, rd, subst: _ } => of_branch(
            word(processor, rz),
            word(processor, rd),
            processor.d(),
        ),
        Instr::OpReg {
            op: _,
            rd: _,
            rs: _,
            rt: _,
        } => None,
        Instr::OpWord {
            op: _,
            rd: _,
            rs: _,
            value: _,
        } => None,
        Instr::Mov {
            rd: _,
            value: _,
            basic: _,
        } => None,
        Instr::Halt => None,
        Instr::Idx {
            rd: _,
            rs: _,
            first: _,
            length: _,
        } => None,
    }
}

fn of_load(queue: &PlainQueue, cells: &[u64], colour: Colour, addr: u64) -> Option<Cause>
    ensures { (processor : ProcessorState) → result
        ≡ load_cause (found colour (state_over processor (pending_of queue.now) cells.now) addr) addr }
{
    match found(queue, cells, colour, addr) {
        Some(_) => None,
        None => because(Reason::Wild, addr, 0),
    }
}

/// What a load finds.
fn found(queue: &PlainQueue, cells: &[u64], colour: Colour, addr: u64) -> Option<u64>
    ensures { (processor : ProcessorState) → result ≡ found colour (state_over processor (pending_of queue.now) cells.now) addr }
{
    match colour {
        Colour::Green => match queue.newest_at(addr) {
            Some(word) => Some(word),
            None => cell_at(cells, addr),
        },
        Colour::Blue => cell_at(cells, addr),
    }
}

fn of_green_store(queue: &PlainQueue, addr: u64) -> Option<Cause>
    ensures { result ≡ green_store_cause (pending_of queue.now) addr }
{
    if queue.len() < ROOM {
        return None;
    }
    because(Reason::Crowded, addr, ROOM as u64)
}

fn of_blue_store(queue: &PlainQueue, cells: &[u64], addr: u64, value: u64) -> Option<Cause>
    ensures { result ≡ blue_store_cause (pending_of queue.now) addr value (is_cell (cells_of cells.now) addr) }
{
    match queue.get(0) {
        None => because(Reason::NonePending, addr, 0),
        Some((a, v)) => of_pair(a, v, addr, value, has_cell(cells, addr)),
    }
}

fn of_pair(a: u64, v: u64, addr: u64, value: u64, there: bool) -> Option<Cause>
    ensures { (rest : Pending) → result ≡ blue_store_cause ((a, v) ∷ rest) addr value there }
{
    if a != addr {
        return because(Reason::Addresses, addr, a);
    }
    if v != value {
        return because(Reason::Values, value, v);
    }
    if there {
        return None;
    }
    because(Reason::NoAddress, addr, addr)
}

fn of_green(d: u64) -> Option<Cause>
    ensures { result ≡ green_cause d }
{
    if d == 0 {
        return None;
    }
    because(Reason::JumpPending, d, 0)
}

fn of_blue(target: u64, d: u64) -> Option<Cause>
    ensures { result ≡ blue_cause target d }
{
    if d == 0 {
        return because(Reason::NoJump, target, 0);
    }
    if d == target {
        return None;
    }
    because(Reason::Targets, target, d)
}

fn of_branch(tested: u64, target: u64, d: u64) -> Option<Cause>
    ensures { result ≡ (if tested == 0 then blue_cause target d else pass_cause tested d) }
{
    if tested == 0 {
        return of_blue(target, d);
    }
    if d == 0 {
        return None;
    }
    because(Reason::NoPass, tested, d)
}
