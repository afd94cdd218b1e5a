//! The debugger: where a session is, and what it keeps.
ghost use Rattle.std.specs.Prelude.{◌≡◌, ◌≤◌, ◌<◌, ◌+◌, ◌^◌, ℕ, List, ◌∷◌, [], length, IfOk, IfSome};
ghost use Rattle.ft_edge.specs.Lines.{Puts, end_of_puts};
ghost use Rattle.ft_isa.specs.declared.plan.Wild.{Wild as Answer};
ghost use Rattle.ft_types.specs.Spellable.{IsSpellable};
ghost use Rattle.ft_debug.specs.Sessions.{Session, first_session, is_at_break, walks, goes, goes_back, earlier, zaps, sets_break, break_address};
ghost use Rattle.ft_types.specs.declared.object.Object.{Object};
ghost use Rattle.ft_semantics.specs.Strike.{is_running, is_there};
ghost use Rattle.ft_isa.specs.declared.output.Output as outputs;
ghost use Rattle.ft_debug.specs.Kept.{IsFull};
ghost use Rattle.ft_debug.specs.Inside.{Ready, Holds, Does, committed_lines, advances, halting, goes_on};

use crate::break_places::BreakPlaces;
use crate::code_places::break_address;
use crate::history::History;
use crate::lines::output_line;
use crate::moment::Moment;
use ft_edge::{Failed, Sink, put_line};
use ft_isa::{Colour, NoMemory, Site, Wild};
use ft_machine::Stepped;
use ft_semantics::Status;
use ft_types::Program;
use std::alloc::Global;

/// A session in progress: the moment that is shown, the moments before it, and the breakpoints. Only `new` allocates.
#[derive(Drop)]
pub struct Debugger<'w> {
    pub present: Moment<'w>,
    pub history: History<'w>,
    pub breaks: BreakPlaces,
}

impl<'w> Debugger<'w> {
    /// The session before its first line.
    pub fn new<P: Program>(
        alloc: Global,
        program: &P,
        wild: &'w [Wild],
    ) -> Result<Debugger<'w>, NoMemory>
        requires { IsSpellable (P.object program.now) }
        ensures ready { IfOk result (Ready (P.object program.now)) }
        ensures holds { IfOk result (Holds (P.object program.now) wild.now first_session) }
    {
        Ok(Debugger {
            present: Moment::new(alloc, program, wild)?,
            history: History::new(alloc, program, wild)?,
            breaks: BreakPlaces::new(alloc)?,
        })
    }

    /// Whether nothing is fetched, both counters are equal, and their address is a breakpoint.
    fn is_at_break(&self) -> bool
        ensures { result ≡ is_at_break self.now.breaks self.now.present.machine }
    {
        let machine = &self.present.machine;
        let address = machine.pc(Colour::Green);
        machine.fetched().is_none()
            && address == machine.pc(Colour::Blue)
            && self.breaks.contains(address)
    }

    /// Whether the machine is running.
    fn is_running(&self) -> bool
        ensures { result ≡ is_running self.now.present.machine.status }
    {
        self.present.machine.status() == Status::Running
    }

    /// Whether the machine takes another step.
    fn goes_on(&self, halts: bool) -> bool
        ensures { result ≡ goes_on halts self.now.breaks self.now.present.machine }
    {
        if halts && self.is_at_break() {
            return false;
        }
        self.is_running()
    }

    /// Steps a running machine once, and writes what it commits.
    fn advance<P: Program, K: Sink>(&mut self, program: &P, out: &mut K) -> Result<(), Failed>
        requires spellable { IsSpellable (P.object program.now) }
        requires ready { Ready (P.object program.now) self.old }
        requires running { self.old.present.machine.status ≡ Status.Running }
        requires room { self.old.present.position < 2 ^ 63 }
        ensures ready { Ready (P.object program.now) self.new }
        ensures does { Does (advances (P.object program.now)) (P.object program.now) self.old self.new result (K.log out.old) (K.log out.new) }
        ensures breaks { self.new.breaks ≡ self.old.breaks }
        ensures position { self.new.present.position ≡ self.old.present.position + 1 }
    {
        self.history.keep(&self.present);
        let stepped = self.present.step(program);
        put_output(program, stepped, out)
    }

    /// Takes at most `count` steps, until the machine stops or, if `halts`, is at a breakpoint.
    pub fn walk<P: Program, K: Sink>(
        &mut self,
        program: &P,
        halts: bool,
        count: u64,
        out: &mut K,
    ) -> Result<(), Failed>
        requires spellable { IsSpellable (P.object program.now) }
        requires ready { Ready (P.object program.now) self.old }
        requires room { self.old.present.position + count < 2 ^ 63 }
        ensures ready { Ready (P.object program.now) self.new }
        ensures does { Does (λ w. walks (P.object program.now) w (halting halts self.old.breaks) count)
            (P.object program.now) self.old self.new result (K.log out.old) (K.log out.new) }
    {
        for _ in 0..count {
            if !self.goes_on(halts) {
                return Ok(());
            }
            self.advance(program, out)?;
        }
        Ok(())
    }

    /// Takes at most `count` steps, until the machine stops or is at a breakpoint; the first step may start at one.
    pub fn go<P: Program, K: Sink>(
        &mut self,
        program: &P,
        count: u64,
        out: &mut K,
    ) -> Result<(), Failed>
        requires spellable { IsSpellable (P.object program.now) }
        requires ready { Ready (P.object program.now) self.old }
        requires room { self.old.present.position + count < 2 ^ 63 }
        ensures ready { Ready (P.object program.now) self.new }
        ensures does { Does (λ w. goes (P.object program.now) w count) (P.object program.now) self.old self.new result (K.log out.old) (K.log out.new) }
    {
        if count == 0 {
            return Ok(());
        }
        if !self.is_running() {
            return Ok(());
        }
        self.advance(program, out)?;
        self.walk(program, true, count - 1, out)
    }

    /// Goes back `count` steps, all of which are kept.
    pub fn rewind(&mut self, count: u64)
        requires full { IsFull self.old.history }
        requires kept { count ≤ self.old.history.count }
        ensures ready { (o : Object) → Ready o self.old → Ready o self.new }
        ensures holds { (o : Object) (w : List Answer) (s : Session) → Holds o w s self.old → Holds o w (earlier count s) self.new }
    {
        for _ in 0..count {
            self.history.take_back(&mut self.present);
        }
    }

    /// Strikes the machine now. Returns `false`, with nothing changed, exactly when the machine has stopped or the site
    /// does not exist.
    pub fn zap(&mut self, site: Site, value: u64) -> bool
        requires { IsFull self.old.history }
        ensures there { result ≡ is_there self.old.present.machine site }
        ensures ready { (o : Object) → Ready o self.old → Ready o self.new }
        ensures holds { (o : Object) (w : List Answer) (s : Session) → Holds o w s self.old → Holds o w (zaps o w site value s).session self.new }
    {
        self.present.machine.strike(site, value)
    }
}

/// Writes what a step committed, if it committed anything.
fn put_output<P: Program, K: Sink>(program: &P, stepped: Stepped, out: &mut K) -> Result<(), Failed>
    requires spellable { IsSpellable (P.object program.now) }
    requires low { (output : outputs.Output) → stepped ≡ Stepped.Commit output → 1048576 ≤ output.addr }
    requires high { (output : outputs.Output) → stepped ≡ Stepped.Commit output → output.addr < 1048576 + length (P.object program.now).cells }
    ensures { Puts (end_of_puts result) (committed_lines (P.object program.now) stepped)
        (K.log out.old) (K.log out.new) }
{
    match stepped {
        Stepped::Commit(output) => put_line(output_line(program, output).as_bytes(), out),
        Stepped::Quiet | Stepped::Done | Stepped::Detected => Ok(()),
    }
}
