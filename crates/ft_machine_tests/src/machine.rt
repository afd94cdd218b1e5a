//! The machine's steps and strikes on an object that stores once.
ghost use Rattle.std.specs.Prelude.{ℕ, length, IfOk};
ghost use Rattle.ft_semantics.specs.State.{HasCells};
ghost use Rattle.ft_types.specs.Spellable.{IsSpellable};

use ft_isa::{Colour, Coloured, NoMemory, Output, Reg, Site};
use ft_machine::{Machine, Status, Stepped, WildLeft};
use ft_object::decode;
use ft_types::Object;
use ft_worked_objects::A;
use std::alloc::Global;
use std::test::Fail;

/// The address of the only cell, `out`.
const OUT: u64 = 1_048_576;

/// Takes three steps, and returns what the last one did.
fn step_thrice(machine: &mut Machine, object: &Object, wild: &mut WildLeft) -> Stepped
    requires { IsSpellable object.now }
    ensures { (n : ℕ) → HasCells n machine.old → HasCells n machine.new }
{
    machine.step(object, wild);
    machine.step(object, wild);
    machine.step(object, wild)
}

/// The word of the first cell, if the object has one.
fn first_cell(machine: &Machine, object: &Object) -> Option<u64>
    requires { HasCells (length object.now.cells) machine.now }
{
    if object.cells.len() == 0 {
        None
    } else {
        Some(machine.cell(0))
    }
}

/// Whether a new machine is at the start of the object.
fn starts(machine: &Machine, object: &Object, r33: Reg) -> bool
    requires { HasCells (length object.now.cells) machine.now }
{
    let zero = Coloured {
        colour: Colour::Green,
        word: 0,
    };
    object.cells.len() == 1
        && machine.reg(r33) == zero
        && machine.pc(Colour::Green) == 1
        && first_cell(machine, object) == Some(0)
}

/// Whether strikes change their sites.
fn strikes_change(
    machine: &mut Machine,
    object: &Object,
    wild: &mut WildLeft,
    r0: Reg,
    r33: Reg,
) -> bool
    requires { IsSpellable object.now }
{
    step_thrice(machine, object, wild);
    step_thrice(machine, object, wild);
    let quiet = step_thrice(machine, object, wild) == Stepped::Quiet;
    let fetched = machine.fetched().is_some();
    let register = machine.strike(Site::R(r0), 3);
    let nothing = !machine.strike(Site::QVal(0), 6);
    let stores = machine.step(object, wild) == Stepped::Quiet;
    let waits = machine.queue().get(0) == Some((3, 5));
    let address = machine.strike(Site::QAddr(0), OUT);
    let target = machine.strike(Site::D, 2);
    quiet
        && fetched
        && register
        && nothing
        && stores
        && waits
        && address
        && target
        && machine.d() == 2
        && machine.reg(r0).word == 3
        && machine.reg(r33).colour == Colour::Blue
        && machine.pc(Colour::Blue) == 6
}

#[test]
fn strikes_change_their_sites(rt: HostRuntime) -> Result<(), Fail> {
    let r0 = Reg::new(0).expect(&rt, "below 64");
    let r33 = Reg::new(33).expect(&rt, "below 64");
    let object = decode(rt.alloc(), A)?;
    let mut wild = WildLeft::new(&[]);
    let mut machine = Machine::new(rt.alloc(), &object)?;
    let started = starts(&machine, &object, r33);
    let changed = strikes_change(&mut machine, &object, &mut wild, r0, r33);
    assert!(rt; started && changed);
    Ok(())
}

/// A machine with a pending green store, whose address was struck in the register and again in the queue.
fn struck_machine(
    alloc: Global,
    object: &Object,
    wild: &mut WildLeft,
    r0: Reg,
) -> Result<Machine, NoMemory>
    requires { IsSpellable object.now }
    ensures { IfOk result (λ machine. HasCells (length object.now.cells) machine) }
{
    let mut machine = Machine::new(alloc, object)?;
    step_thrice(&mut machine, object, wild);
    step_thrice(&mut machine, object, wild);
    step_thrice(&mut machine, object, wild);
    machine.strike(Site::R(r0), 3);
    machine.step(object, wild);
    machine.strike(Site::QAddr(0), OUT);
    machine.strike(Site::D, 2);
    Ok(machine)
}

/// Whether the struck machine commits its store, stops, and then stays stopped.
fn commits_and_stops(machine: &mut Machine, object: &Object, wild: &mut WildLeft) -> bool
    requires spelled { IsSpellable object.now }
    requires cells { HasCells (length object.now.cells) machine.old }
{
    let output = Output {
        addr: OUT,
        value: 5,
    };
    let quiet = machine.step(object, wild) == Stepped::Quiet;
    let commits = machine.step(object, wild) == Stepped::Commit(output);
    let stored = first_cell(machine, object) == Some(5) && machine.queue().is_empty();
    let running = machine.status() == Status::Running;
    let jumps = machine.step(object, wild) == Stepped::Quiet;
    let done = machine.step(object, wild) == Stepped::Done && machine.status() == Status::Done;
    let nothing = !machine.strike(Site::PcG, 1);
    let stays = machine.step(object, wild) == Stepped::Done;
    quiet && commits && stored && running && jumps && done && nothing && stays && wild.left() == 0
}

#[test]
fn a_struck_machine_commits_and_stops(rt: HostRuntime) -> Result<(), Fail> {
    let r0 = Reg::new(0).expect(&rt, "below 64");
    let object = decode(rt.alloc(), A)?;
    let mut wild = WildLeft::new(&[]);
    let mut machine = struck_machine(rt.alloc(), &object, &mut wild, r0)?;
    let stopped = commits_and_stops(&mut machine, &object, &mut wild);
    assert!(rt; stopped);
    Ok(())
}
