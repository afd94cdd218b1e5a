//! The command `recover`.
ghost use Rattle.std.specs.Prelude.{◌≡◌, ◌≢◌, None, OnOk, OnErr};
ghost use Rattle.ft_command.specs.Asked.{run_view};
ghost use Rattle.ft_edge.specs.Lines.{Puts, end_of_puts};
ghost use Rattle.ft_types.specs.Spellable.{IsSpellable};
ghost use Rattle.ft_typing.specs.Accepted.{refusal};
ghost use Rattle.ft_tool.specs.Answers.{RecoversObject, again_lines};
ghost use Rattle.ft_tool.specs.Endings.{Ends, again_of, ending_of_recovery};
ghost use Rattle.ft_tool.specs.Texts.{again_line};

use crate::ending::{Ending, refuse_check};
use crate::over_object::ObjectCommand;
use ft_checker::{Checked, check_uncounted};
use ft_command::Run;
use ft_edge::{Failed, Sink, put_line};
use ft_isa::Plan;
use ft_recover::RecoverEnd;
use ft_text::Line;
use ft_types::Program;
use std::alloc::Global;

/// The line that reports a restart after this many outputs.
fn again_line(count: u64) -> Line
    ensures { result ≡ again_line count }
{
    let mut line = Line::new();
    line.piece(b"again ");
    line.number(count);
    line.piece(b"\n");
    line
}

/// Writes the line that reports the restart, if there was one.
fn put_again<K: Sink>(again: Option<u64>, out: &mut K) -> Result<(), Failed>
    ensures { Puts (end_of_puts result) (again_lines again) (K.log out.old) (K.log out.new) }
{
    match again {
        Some(count) => put_line(again_line(count).as_bytes(), out),
        None => Ok(()),
    }
}

/// The restart that a recovery reports.
fn again_of(end: RecoverEnd) -> Option<u64>
    ensures { result ≡ again_of end }
{
    match end {
        RecoverEnd::Done { again } => again,
        RecoverEnd::OutOfSteps { again } => again,
        RecoverEnd::WriteFault => None,
        RecoverEnd::NoMemory => None,
    }
}

/// How a command ends, given how its recovery ended.
fn ending_of_recovery(end: RecoverEnd) -> Ending
    ensures { result ≡ ending_of_recovery end }
{
    match end {
        RecoverEnd::Done { again: _ } => Ending::Done,
        RecoverEnd::OutOfSteps { again: _ } => Ending::OutOfSteps,
        RecoverEnd::WriteFault => Ending::WriteFailed,
        RecoverEnd::NoMemory => Ending::NoMemory,
    }
}

/// Runs a checked object, and runs it again if a fault is detected.
fn recover_checked<P: Program, K: Sink>(
    alloc: Global,
    checked: &Checked<P>,
    run: &Run,
    out: &mut K,
) -> Ending
    requires spellable { IsSpellable (P.object checked.now) }
    requires accepted { refusal (P.object checked.now) ≡ None }
    ensures { Ends result (RecoversObject (run_view run.now) (P.object checked.now))
        (K.log out.old) (K.log out.new) ⊥ }
{
    let plan = Plan {
        strike: run.strike,
        wild: run.wild.as_slice(),
    };
    let end = ft_recover::recover(alloc, checked, plan, run.steps, out);
    match put_again(again_of(end), out) {
        Ok(()) => ending_of_recovery(end),
        Err(_) => Ending::WriteFailed,
    }
}

/// Checks an object, runs it, and runs it again if a fault is detected.
fn recover_object<P: Program, K: Sink>(alloc: Global, program: &P, run: &Run, out: &mut K) -> Ending
    requires { IsSpellable (P.object program.now) }
    ensures { Ends result (RecoversObject (run_view run.now) (P.object program.now))
        (K.log out.old) (K.log out.new) ⊥ }
{
    let checked = match check_uncounted(alloc, program) {
        Ok(checked) => checked,
        Err(error) => return refuse_check(error, out),
    };
    recover_checked(alloc, &checked, run, out)
}

/// The command that checks the object in a file, runs it, and runs it again if a fault is detected.
#[derive(Drop)]
pub(crate) struct RecoverCommand<'w> {
    pub run: Run<'w>,
}

impl<'w> ObjectCommand for RecoverCommand<'w> {
    ghost use Rattle.std.specs.Prelude.{refl};
    ghost use Rattle.ft_command.specs.Asked.{run_view};
    ghost use Rattle.ft_command.specs.Commands.{Recovers};
    ghost use Rattle.ft_tool.specs.Answers.{RecoversObject};

    ghost request = { λ c. Recovers (run_view c.run) };

    ghost file = { λ c. c.run.object.now };

    ghost answer = { λ c. RecoversObject (run_view c.run) };

    ghost is_over_file = { λ c. record { answers = λ told files script bytes a is h. (bytes, (is, h)); comes = λ told files. refl; loads = λ told files early asked asked' made. made } };

    fn file(&self) -> &str {
        self.run.object
    }

    fn over_object<P: Program, K: Sink>(&self, alloc: Global, program: &P, out: &mut K) -> Ending {
        recover_object(alloc, program, &self.run, out)
    }
}
