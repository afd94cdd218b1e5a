//! Whole sessions.
ghost use Rattle.std.specs.Prelude.{◌≡◌, ◌≤◌, ◌<◌, length, map};
ghost use Rattle.std.specs.List.{AllByRecursion};
ghost use Rattle.ft_edge.specs.Lines.{Puts, end_of_puts};
ghost use Rattle.ft_types.specs.Spellable.{IsSpellable};
ghost use Rattle.ft_script.specs.Reads.{command_of};
ghost use Rattle.ft_debug.specs.Ends.{EndsAs};
ghost use Rattle.ft_debug.specs.Sessions.{session_lines, first_session};
ghost use Rattle.ft_debug.specs.Inside.{Ready, Holds, IsSmall};

use crate::debug_end::DebugEnd;
use crate::debugger::Debugger;
use ft_edge::{Failed, Sink};
use ft_isa::Wild;
use ft_script::{Command, read_script};
use ft_types::Program;
use std::alloc::Global;

/// Answers all commands of a session, in order.
fn answer_all<P: Program, K: Sink>(
    debugger: &mut Debugger<'_>,
    program: &P,
    wild: &[Wild],
    commands: &[Command<'_>],
    out: &mut K,
) -> Result<(), Failed>
    requires spellable { IsSpellable (P.object program.now) }
    requires ready { Ready (P.object program.now) debugger.old }
    requires holds { Holds (P.object program.now) wild.now first_session debugger.old }
    requires small { AllByRecursion IsSmall (map command_of commands.now) }
    requires few { length commands.now ≤ 1048576 }
    ensures { Puts (end_of_puts result) (session_lines (P.object program.now) wild.now (map command_of commands.now))
        (K.log out.old) (K.log out.new) }
{
    for command in commands {
        debugger.answer(program, *command, out)?;
    }
    Ok(())
}

/// Runs a script on a program's machine from its start, with these answers to wild loads, and writes each line of the
/// session with one put. It returns `WriteFault` only after a failed put, which was the last; it returns `NoMemory`
/// only before the first put.
///
/// A line of the script is `step N`, `go N`, `back N`, `zap SITE V`, `reg R`, `queue`, `cell NAME`, `where` or `break B
/// I`; N is at most 1,000,000. The session keeps the current state and the last 4,096 before it; only these, the
/// commands and room for 64 breakpoints take memory. A step costs one machine step and one copy of a state.
pub fn session<P: Program, K: Sink>(
    alloc: Global,
    program: &P,
    wild: &[Wild],
    script: &[u8],
    out: &mut K,
) -> DebugEnd
    requires spellable { IsSpellable (P.object program.now) }
    requires short { length script.now ≤ 1048576 }
    ensures ends { EndsAs result (P.object program.now) wild.now script.now
        (K.log out.old) (K.log out.new) }
{
    let Ok(commands) = read_script(alloc, script) else {
        return DebugEnd::NoMemory;
    };
    let Ok(mut debugger) = Debugger::new(alloc, program, wild) else {
        return DebugEnd::NoMemory;
    };
    match answer_all(&mut debugger, program, wild, &commands, out) {
        Ok(()) => DebugEnd::Ended,
        Err(_) => DebugEnd::WriteFault,
    }
}
