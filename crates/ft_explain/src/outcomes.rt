//! Explains what happened in runs that did not simply succeed.
ghost use Rattle.ft_types.specs.Spellable.{IsSpellable};

use crate::comparisons::note_comparisons;
use crate::declared::declared_in;
use crate::detections::say_detection;
use crate::endless::note_endless;
use crate::indices::note_indices;
use crate::reruns::{Met, comes_back, rerun};
use crate::silent::note_silent;
use ft_command::{Campaign, Command, Run};
use ft_edge::Shelf;
use ft_isa::{NoMemory, Plan, Site, Strike};
use ft_machine::{Machine, Status};
use ft_mistakes::{OBJECT_LIMIT, Page, SOURCE_LIMIT, load};
use ft_types::Program;
use ft_view::View;
use std::alloc::Global;

/// How many steps are repeated to see what happened in a run.
const AGAIN: u64 = 1_000_000;

/// The largest `--steps` and `--turns`.
const MOST: u64 = 1_000_000_000;

/// The largest `--steps` of a command that takes a fault list.
const MOST_LISTED: u64 = 1_000_000;

/// Begins a line about a file.
fn begin(page: &mut Page, name: &str) -> Result<(), NoMemory> {
    page.name(name)?;
    page.say(": ")
}

/// Says that a limit can be raised, or that it is already the highest allowed.
fn say_limit(page: &mut Page, count: u64, most: u64, what: &str) -> Result<(), NoMemory> {
    if count < most {
        page.say(format_args!(": raise `--{what}`\n"))
    } else {
        page.say(format_args!(", the most that `--{what}` allows\n"))
    }
}

/// Says that a call was stopped at its limit of steps or turns.
fn say_cut(page: &mut Page, name: &str, count: u64, what: &str) -> Result<(), NoMemory> {
    begin(page, name)?;
    page.say(format_args!("still running after {count} {what}"))?;
    say_limit(page, count, MOST, what)
}

/// Says that a source was stopped at its limit of steps or turns, and which loop never ends.
fn say_cut_source<S: Shelf>(
    page: &mut Page,
    name: &str,
    count: u64,
    what: &str,
    shelf: &mut S,
) -> Result<(), NoMemory> {
    say_cut(page, name, count, what)?;
    note_endless(page, name, shelf)
}

/// Says why a strike found nothing to strike in a run of at most `steps` steps.
fn say_missed(page: &mut Page, strike: Strike, met: Met, steps: u64) -> Result<(), NoMemory> {
    let step = strike.step;
    match (met.stood, strike.site) {
        (Status::Running, _) if step >= steps => page.say(format_args!(
            "it comes at step {step}, and the run is limited to {steps} steps (`--steps`)"
        )),
        (Status::Running, Site::QAddr(i) | Site::QVal(i)) => page.say(format_args!(
            "at step {step} the queue has no entry {i}"
        )),
        _ => {
            let taken = met.taken;
            page.say(format_args!("the run had ended after {taken} steps, before step {step}"))
        }
    }
}

/// Whether a strike found nothing to strike in a run of at most `steps` steps.
fn missed(strike: Strike, met: Met, steps: u64) -> bool {
    match met.stood {
        Status::Running => strike.step >= steps || met.struck == Some(false),
        Status::Done | Status::Detected => true,
    }
}

/// If nothing was struck, says so.
fn say_unstruck(page: &mut Page, run: &Run, met: Met) -> Result<(), NoMemory> {
    let Some(strike) = run.strike else {
        return Ok(());
    };
    if !missed(strike, met, run.steps) {
        return Ok(());
    }
    begin(page, run.object)?;
    page.say("the fault struck nothing: ")?;
    say_missed(page, strike, met, run.steps)?;
    page.say("\n")
}

/// Says where a fault was detected.
fn say_detected<P: Program>(
    page: &mut Page,
    program: &P,
    machine: &Machine,
    run: &Run,
    met: Met,
) -> Result<(), NoMemory>
    requires { IsSpellable (P.object program.now) }
{
    begin(page, run.object)?;
    let at = met.taken.saturating_sub(1);
    page.say(format_args!("detected at step {at}: "))?;
    say_detection(page, program, machine)?;
    page.say("\n")
}

/// Says that a fault was detected at an unknown place.
fn say_detected_late(page: &mut Page, run: &Run) -> Result<(), NoMemory> {
    begin(page, run.object)?;
    page.say("detected after more than 1000000 steps; `talft debug` shows the step\n")
}

/// Explains what happened in a run that this machine has repeated.
fn say_rerun<P: Program>(
    page: &mut Page,
    program: &P,
    machine: &Machine,
    run: &Run,
    met: Met,
    status: u8,
) -> Result<(), NoMemory>
    requires { IsSpellable (P.object program.now) }
{
    say_unstruck(page, run, met)?;
    match machine.status() {
        Status::Detected => say_detected(page, program, machine, run, met),
        Status::Running if status == 1 => say_detected_late(page, run),
        _ => Ok(()),
    }
}

/// Runs an object again, and explains what happened.
fn say_met<P: Program>(page: &mut Page, program: &P, run: &Run, status: u8) -> Result<(), NoMemory>
    requires { IsSpellable (P.object program.now) }
{
    let mut machine = Machine::new(page.alloc(), program)?;
    let plan = Plan {
        strike: run.strike,
        wild: run.wild.as_slice(),
    };
    let met = rerun(&mut machine, program, plan, run.steps.min(AGAIN));
    say_rerun(page, program, &machine, run, met, status)
}

/// Explains what happened in the run of an object, if its file can be read again.
fn say_again<S: Shelf>(
    page: &mut Page,
    run: &Run,
    status: u8,
    shelf: &mut S,
) -> Result<(), NoMemory> {
    let Some(bytes) = load(page.alloc(), run.object, OBJECT_LIMIT, shelf)? else {
        return Ok(());
    };
    match View::over(bytes.as_slice()) {
        Ok(view) => say_met(page, &view, run, status),
        Err(_) => Ok(()),
    }
}

/// Whether a run that was cut is in a loop that changes nothing: two machines repeat it, and one takes some steps more.
fn loops_in_place<P: Program>(
    alloc: Global,
    program: &P,
    strike: Option<Strike>,
    steps: u64,
) -> Result<bool, NoMemory>
    requires { IsSpellable (P.object program.now) }
{
    let mut machine = Machine::new(alloc, program)?;
    let mut state = Machine::new(alloc, program)?;
    let plan = Plan { strike, wild: &[] };
    rerun(&mut machine, program, plan, steps);
    rerun(&mut state, program, plan, steps);
    Ok(comes_back(&mut machine, program, &state))
}

/// Whether the run of an object that was cut is in a loop that changes nothing, if its file can be read again.
fn is_in_place<S: Shelf>(
    alloc: Global,
    run: &Run,
    strike: Option<Strike>,
    shelf: &mut S,
) -> Result<bool, NoMemory> {
    let Some(bytes) = load(alloc, run.object, OBJECT_LIMIT, shelf)? else {
        return Ok(false);
    };
    match View::over(bytes.as_slice()) {
        Ok(view) => loops_in_place(alloc, &view, strike, run.steps.min(AGAIN)),
        Err(_) => Ok(false),
    }
}

/// Whether a strike comes only after this many steps.
fn is_due(strike: Option<Strike>, steps: u64) -> bool {
    match strike {
        Some(strike) => strike.step >= steps,
        None => false,
    }
}

/// Says that the run of an object under this strike was stopped at its limit of steps. A run that loops in place goes on
/// for ever unless a wild answer or a strike is still to come.
fn say_cut_run<S: Shelf>(
    page: &mut Page,
    run: &Run,
    strike: Option<Strike>,
    shelf: &mut S,
) -> Result<(), NoMemory> {
    let is_open = !run.wild.is_empty() || is_due(strike, run.steps.min(AGAIN));
    if is_open || !is_in_place(page.alloc(), run, strike, shelf)? {
        return say_cut(page, run.object, run.steps, "steps");
    }
    begin(page, run.object)?;
    let steps = run.steps;
    page.say(format_args!(
        "still running after {steps} steps, and for ever: it loops in place, as after a trap; `talft-ending` says where\n"
    ))
}

/// Explains a run of an object if something notable may have happened in it. `last` is the strike of its last run.
fn explain_run<S: Shelf>(
    page: &mut Page,
    run: &Run,
    status: u8,
    last: Option<Strike>,
    shelf: &mut S,
) -> Result<(), NoMemory> {
    if status == 1 || run.strike.is_some() {
        say_again(page, run, status, shelf)?;
    }
    if status == 9 {
        say_cut_run(page, run, last, shelf)?;
    }
    Ok(())
}

/// Says that a campaign's run without a fault was cut, if it was.
fn say_if_cut<P: Program>(page: &mut Page, program: &P, asked: &Campaign) -> Result<(), NoMemory>
    requires { IsSpellable (P.object program.now) }
{
    let mut machine = Machine::new(page.alloc(), program)?;
    let plan = Plan {
        strike: None,
        wild: asked.wild.as_slice(),
    };
    let met = rerun(&mut machine, program, plan, asked.steps.min(AGAIN));
    match machine.status() {
        Status::Running => {
            begin(page, asked.object)?;
            let taken = met.taken;
            page.say(format_args!("note: the run without a fault was cut after {taken} steps"))?;
            say_limit(page, taken, MOST_LISTED, "steps")
        }
        _ => Ok(()),
    }
}

/// Notes that the runs of a campaign were cut, if the object's file can be read again.
fn note_cut<S: Shelf>(page: &mut Page, asked: &Campaign, shelf: &mut S) -> Result<(), NoMemory> {
    let Some(bytes) = load(page.alloc(), asked.object, OBJECT_LIMIT, shelf)? else {
        return Ok(());
    };
    match View::over(bytes.as_slice()) {
        Ok(view) => say_if_cut(page, &view, asked),
        Err(_) => Ok(()),
    }
}

/// Notes what is notable about an accepted source.
fn note_text(page: &mut Page, name: &str, source: &[u8]) -> Result<(), NoMemory> {
    let declared = declared_in(page.alloc(), source)?;
    note_comparisons(page, name, source)?;
    note_indices(page, name, source, declared.as_slice())?;
    note_silent(page, name, source, declared.as_slice())
}

/// Notes what is notable about an accepted source, if it can be read again.
fn note_source<S: Shelf>(page: &mut Page, name: &str, shelf: &mut S) -> Result<(), NoMemory> {
    match load(page.alloc(), name, SOURCE_LIMIT, shelf)? {
        Some(source) => note_text(page, name, source.as_slice()),
        None => Ok(()),
    }
}

/// Explains what happened in a call that ended with status 0, 1 or 9; it writes nothing about plain success.
pub(crate) fn explain_outcome<S: Shelf>(
    page: &mut Page,
    command: &Command<'_>,
    status: u8,
    shelf: &mut S,
) -> Result<(), NoMemory> {
    match command {
        Command::Run(run) | Command::Trial(run) => {
            explain_run(page, run, status, run.strike, shelf)
        }
        // A run that is detected is done again, without the fault.
        Command::Recover(run) => explain_run(page, run, status, None, shelf),
        Command::Campaign(asked) | Command::Survey(asked) => note_cut(page, asked, shelf),
        Command::Exec(asked) if status == 9 => {
            say_cut_source(page, asked.source, asked.steps, "steps", shelf)
        }
        Command::Mean(asked) if status == 9 => {
            say_cut_source(page, asked.source, asked.turns, "turns", shelf)
        }
        Command::Compile(source) if status == 0 => note_source(page, *source, shelf),
        Command::Exec(asked) if status == 0 => note_source(page, asked.source, shelf),
        Command::Mean(asked) if status == 0 => note_source(page, asked.source, shelf),
        _ => Ok(()),
    }
}
