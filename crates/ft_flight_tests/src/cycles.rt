//! A cycle that is struck, told about and done again.
ghost use Rattle.std.specs.Prelude.{◌≡◌, length};
ghost use Rattle.ft_types.specs.Spellable.{IsSpellable};

use ft_flight::{
    CellOutput, FlightEnd, FlightState, Flown, PlainPair, PlainQueue, Reason, again, begin,
    cause_of, cycle, go, strike,
};
use ft_isa::{Reg, Site};
use ft_types::Program;
use ft_view::View;
use ft_worked_objects::Q;
use std::test::Fail;

/// How many steps the first ten instructions of `Q` take. The tenth is its first blue store.
const FIRST_STORE: u64 = 20;

/// How many steps all fifteen instructions of `Q` take.
const ALL: u64 = 30;

/// More steps than `Q` takes.
const MANY: u64 = 100;

/// Words that no run left. They stand for a state like any others.
fn any_words() -> FlightState {
    FlightState {
        words: [7; 64],
        colours: [9; 64],
        d: 1,
        pc_green: u64::MAX,
        pc_blue: 3,
        fetched: 2,
        status: 5,
        queue: PlainQueue {
            first: u64::MAX,
            count: u64::MAX,
            pairs: [PlainPair { addr: 1, value: 2 }; 8],
        },
        steps: 0,
        seen: 0,
        handed: 0,
    }
}

/// Whether a call took so many steps, handed out so many outputs, and ended in this way.
fn has_flown(flown: Flown, steps: u64, count: u64, end: FlightEnd) -> bool {
    flown.steps == steps && flown.count == count && flown.end == end
}

/// Whether an output is of the first cell, with this word.
fn is_output(output: CellOutput, value: u64) -> bool {
    output.cell == 0 && output.value == value
}

/// Runs a cycle of `Q`, which puts out 5, 6 and 6, strikes the word that its second blue store compares, and does the cycle
/// again. Returns whether each call did what the table of steps says.
fn is_done_again<P: Program>(program: &P, struck: Reg) -> bool
    requires spellable { IsSpellable (P.object program.now) }
    requires one { length (P.object program.now).cells ≡ 1 }
{
    let mut state = any_words();
    let mut cells = [4; 1];
    let mut saved = [4; 1];
    let mut out = [CellOutput { cell: 9, value: 9 }; 4];
    begin(program, cells.as_mut_slice());
    cycle(program, &mut state, cells.as_slice(), saved.as_mut_slice());
    let flown = go(
        program,
        &mut state,
        cells.as_mut_slice(),
        FIRST_STORE,
        out.as_mut_slice(),
    );
    if !has_flown(flown, FIRST_STORE, 1, FlightEnd::Cut) || !is_output(out[0], 5) {
        return false;
    }
    if !strike(program, &mut state, Site::R(struck), 9) {
        return false;
    }
    let flown = go(
        program,
        &mut state,
        cells.as_mut_slice(),
        MANY,
        out.as_mut_slice(),
    );
    if !has_flown(flown, 2, 0, FlightEnd::Detected) {
        return false;
    }
    let Some(cause) = cause_of(program, &state, cells.as_slice()) else {
        return false;
    };
    if cause.reason != Reason::Values || cause.left != 9 || cause.right != 6 {
        return false;
    }
    again(program, &mut state, cells.as_mut_slice(), saved.as_slice());
    let flown = go(
        program,
        &mut state,
        cells.as_mut_slice(),
        MANY,
        out.as_mut_slice(),
    );
    has_flown(flown, ALL, 2, FlightEnd::Done)
        && is_output(out[0], 6)
        && is_output(out[1], 6)
        && cells[0] == 6
        && state.handed == 3
}

#[test]
fn a_struck_cycle_is_done_again(rt: HostRuntime) -> Result<(), Fail> {
    let view = View::over(Q)?;
    let struck = Reg::new(34).expect(&rt, "below 64");
    assert_eq!(rt; view.counts().cells, 1);
    assert!(rt; is_done_again(&view, struck));
    Ok(())
}
