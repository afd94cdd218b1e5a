//! The machine on an object in which a register selects a cell of a run.
ghost use Rattle.ft_types.specs.Spellable.{IsSpellable};

use ft_isa::{NoMemory, Output, Reg, Site};
use ft_machine::{Machine, Status, Stepped, WildLeft};
use ft_object::decode;
use ft_types::Object;
use ft_worked_objects::I;
use std::alloc::Global;
use std::test::Fail;

/// The address of the second cell, `a[1]`.
const SECOND: u64 = 1_048_577;

/// The maximum number of steps of the run.
const STEPS: u64 = 100;

/// The run of an object if register `r` is struck before step 2: the step that stopped it, what it committed, and its
/// status.
fn run_struck(
    alloc: Global,
    object: &Object,
    r: Reg,
    word: u64,
) -> Result<(u64, Option<Output>, Status), NoMemory>
    requires { IsSpellable object.now }
{
    let mut wild = WildLeft::new(&[]);
    let mut machine = Machine::new(alloc, object)?;
    let mut committed = None;
    for step in 0..STEPS {
        if step == 2 {
            machine.strike(Site::R(r), word);
        }
        match machine.step(object, &mut wild) {
            Stepped::Quiet => {}
            Stepped::Commit(output) => committed = Some(output),
            Stepped::Done => return Ok((step, committed, Status::Done)),
            Stepped::Detected => return Ok((step, committed, Status::Detected)),
        }
    }
    Ok((STEPS, committed, Status::Running))
}

#[test]
fn a_struck_index_is_detected_unless_it_names_the_same_cell(rt: HostRuntime) -> Result<(), Fail> {
    let object = decode(rt.alloc(), I)?;
    let r0 = Reg::new(0).expect(&rt, "below 64");
    let output = Output {
        addr: SECOND,
        value: 9,
    };
    for (word, wanted) in [
        (4, (17, Some(output), Status::Done)),
        (5, (15, None, Status::Detected)),
        (7, (17, Some(output), Status::Done)),
        (1, (17, Some(output), Status::Done)),
        (0, (15, None, Status::Detected)),
        (u64::MAX, (15, None, Status::Detected)),
    ] {
        let found = run_struck(rt.alloc(), &object, r0, word)?;
        assert!(rt; found == wanted);
    }
    Ok(())
}
