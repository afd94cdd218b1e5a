//! What each command does and writes.
ghost use Rattle.std.specs.Prelude.{◌≡◌, ◌≤◌, ◌<◌, ◌+◌, ◌^◌, ◌∷◌, [], length, IfSome};
ghost use Rattle.ft_edge.specs.Lines.{Puts, end_of_puts};
ghost use Rattle.ft_types.specs.Spellable.{IsSpellable};
ghost use Rattle.ft_types.specs.declared.object.Object.{Object};
ghost use Rattle.ft_script.specs.Commands as commands;
ghost use Rattle.ft_script.specs.Reads.{command_of};
ghost use Rattle.ft_debug.specs.Kept.{IsFull};
ghost use Rattle.ft_debug.specs.Sessions.{reply, coloured_in, at_line, named_cell, queue_lines};
ghost use Rattle.ft_debug.specs.Inside.{Ready, Does, IsSmall};

use crate::code_places::break_address;
use crate::debugger::Debugger;
use crate::lines::{at_line, entry_line, register_line, where_line, word_line};
use ft_edge::{Failed, Sink, put_line};
use ft_isa::{Colour, Coloured, Site};
use ft_queue::StoreQueue;
use ft_script::{Command, Register};
use ft_types::Program;

/// The number of the cell with this name, if there is one, found by linear search.
fn named_cell<P: Program>(program: &P, name: &[u8]) -> Option<u32>
    requires { IsSpellable (P.object program.now) }
    ensures found { result ≡ named_cell (P.object program.now) name.now }
    ensures there { IfSome result (λ k. k < length (P.object program.now).cells) }
    ensures short { IfSome result (λ k. length name.now ≤ 40) }
{
    for k in 0..program.counts().cells {
        if program.name(k) == name {
            return Some(k);
        }
    }
    None
}

/// Writes a line for each pending store, oldest first, or `empty`.
fn put_queue<K: Sink>(queue: &StoreQueue, out: &mut K) -> Result<(), Failed>
    ensures { Puts (end_of_puts result) (queue_lines queue.now) (K.log out.old) (K.log out.new) }
{
    if queue.is_empty() {
        return put_line(b"empty\n", out);
    }
    for i in 0..queue.len() {
        let Some(entry) = queue.get(i) else {
            unreachable!();
        };
        put_line(entry_line(entry).as_bytes(), out)?;
    }
    Ok(())
}

impl<'w> Debugger<'w> {
    /// What a register holds.
    fn coloured(&self, register: Register) -> Coloured
        ensures { result ≡ coloured_in self.now.present.machine register }
    {
        let machine = &self.present.machine;
        match register {
            Register::R(reg) => machine.reg(reg),
            Register::D => Coloured {
                colour: Colour::Green,
                word: machine.d(),
            },
            Register::PcG => Coloured {
                colour: Colour::Green,
                word: machine.pc(Colour::Green),
            },
            Register::PcB => Coloured {
                colour: Colour::Blue,
                word: machine.pc(Colour::Blue),
            },
        }
    }

    /// Writes the position.
    fn put_at<K: Sink>(&self, out: &mut K) -> Result<(), Failed>
        ensures { Puts (end_of_puts result) (at_line self.now.present.position self.now.present.machine ∷ [])
            (K.log out.old) (K.log out.new) }
    {
        put_line(at_line(&self.present).as_bytes(), out)
    }

    /// Takes at most `count` steps, until the machine stops.
    fn answer_step<P: Program, K: Sink>(
        &mut self,
        program: &P,
        count: u64,
        out: &mut K,
    ) -> Result<(), Failed>
        requires spellable { IsSpellable (P.object program.now) }
        requires ready { Ready (P.object program.now) self.old }
        requires room { self.old.present.position + count < 2 ^ 63 }
        ensures ready { Ready (P.object program.now) self.new }
        ensures does { Does (λ w. reply (P.object program.now) w (commands.Step count))
            (P.object program.now) self.old self.new result (K.log out.old) (K.log out.new) }
    {
        self.walk(program, false, count, out)?;
        self.put_at(out)
    }

    /// Takes at most `count` steps, until the machine stops or is at a breakpoint.
    fn answer_go<P: Program, K: Sink>(
        &mut self,
        program: &P,
        count: u64,
        out: &mut K,
    ) -> Result<(), Failed>
        requires spellable { IsSpellable (P.object program.now) }
        requires ready { Ready (P.object program.now) self.old }
        requires room { self.old.present.position + count < 2 ^ 63 }
        ensures ready { Ready (P.object program.now) self.new }
        ensures does { Does (λ w. reply (P.object program.now) w (commands.Go count))
            (P.object program.now) self.old self.new result (K.log out.old) (K.log out.new) }
    {
        self.go(program, count, out)?;
        self.put_at(out)
    }

    /// Goes back `count` steps, if that many are kept.
    fn answer_back<K: Sink>(&mut self, count: u64, out: &mut K) -> Result<(), Failed>
        requires { IsFull self.old.history }
        ensures ready { (o : Object) → Ready o self.old → Ready o self.new }
        ensures does { (o : Object) → Does (λ w. reply o w (commands.Back count)) o self.old self.new result
            (K.log out.old) (K.log out.new) }
    {
        if count > self.history.len() as u64 {
            return put_line(b"no history\n", out);
        }
        self.rewind(count);
        self.put_at(out)
    }

    /// Strikes the machine now, if it is running and the site exists.
    fn answer_zap<K: Sink>(&mut self, site: Site, value: u64, out: &mut K) -> Result<(), Failed>
        requires { IsFull self.old.history }
        ensures ready { (o : Object) → Ready o self.old → Ready o self.new }
        ensures does { (o : Object) → Does (λ w. reply o w (commands.Zap site value)) o self.old self.new result
            (K.log out.old) (K.log out.new) }
    {
        if self.zap(site, value) {
            put_line(b"zapped\n", out)
        } else {
            put_line(b"nothing there\n", out)
        }
    }

    /// Shows a register.
    fn answer_reg<K: Sink>(&self, register: Register, out: &mut K) -> Result<(), Failed>
        ensures { (o : Object) → Does (λ w. reply o w (commands.Reg register)) o self.now self.now result
            (K.log out.old) (K.log out.new) }
    {
        let line = register_line(register, self.coloured(register));
        put_line(line.as_bytes(), out)
    }

    /// Shows the pending stores.
    fn answer_queue<K: Sink>(&self, out: &mut K) -> Result<(), Failed>
        ensures { (o : Object) → Does (λ w. reply o w commands.Queue) o self.now self.now result
            (K.log out.old) (K.log out.new) }
    {
        put_queue(self.present.machine.queue(), out)
    }

    /// Shows the cell with this name.
    fn answer_cell<P: Program, K: Sink>(
        &self,
        program: &P,
        name: &[u8],
        out: &mut K,
    ) -> Result<(), Failed>
        requires spellable { IsSpellable (P.object program.now) }
        requires ready { Ready (P.object program.now) self.now }
        ensures { Does (λ w. reply (P.object program.now) w (commands.Cell name.now))
            (P.object program.now) self.now self.now result (K.log out.old) (K.log out.new) }
    {
        match named_cell(program, name) {
            Some(k) => {
                let word = self.present.machine.cell(k);
                put_line(word_line(name, word).as_bytes(), out)
            }
            None => put_line(b"no cell\n", out),
        }
    }

    /// Shows where the machine is.
    fn answer_where<P: Program, K: Sink>(&self, program: &P, out: &mut K) -> Result<(), Failed>
        requires { IsSpellable (P.object program.now) }
        ensures { Does (λ w. reply (P.object program.now) w commands.Where)
            (P.object program.now) self.now self.now result (K.log out.old) (K.log out.new) }
    {
        put_line(where_line(program, &self.present).as_bytes(), out)
    }

    /// Sets a breakpoint.
    fn answer_break<P: Program, K: Sink>(
        &mut self,
        program: &P,
        block: u64,
        index: u64,
        out: &mut K,
    ) -> Result<(), Failed>
        requires spellable { IsSpellable (P.object program.now) }
        requires ready { Ready (P.object program.now) self.old }
        ensures ready { Ready (P.object program.now) self.new }
        ensures does { Does (λ w. reply (P.object program.now) w (commands.Break block index))
            (P.object program.now) self.old self.new result (K.log out.old) (K.log out.new) }
    {
        let Some(address) = break_address(program, block, index) else {
            return put_line(b"no place\n", out);
        };
        if self.breaks.contains(address) {
            return put_line(b"break set\n", out);
        }
        if self.breaks.is_full() {
            return put_line(b"too many breaks\n", out);
        }
        self.breaks.add(address);
        put_line(b"break set\n", out)
    }

    /// Executes a command, and writes its answer. Nothing is written after a failed put.
    pub fn answer<P: Program, K: Sink>(
        &mut self,
        program: &P,
        command: Command<'_>,
        out: &mut K,
    ) -> Result<(), Failed>
        requires spellable { IsSpellable (P.object program.now) }
        requires ready { Ready (P.object program.now) self.old }
        requires room { self.old.present.position < 2 ^ 62 }
        requires small { IsSmall (command_of command) }
        ensures ready { Ready (P.object program.now) self.new }
        ensures does { Does (λ w. reply (P.object program.now) w (command_of command.entry))
            (P.object program.now) self.old self.new result (K.log out.old) (K.log out.new) }
    {
        match command {
            Command::Step(count) => self.answer_step(program, count, out),
            Command::Go(count) => self.answer_go(program, count, out),
            Command::Back(count) => self.answer_back(count, out),
            Command::Zap { site, value } => self.answer_zap(site, value, out),
            Command::Reg(register) => self.answer_reg(register, out),
            Command::Queue => self.answer_queue(out),
            Command::Cell(name) => self.answer_cell(program, name, out),
            Command::Where => self.answer_where(program, out),
            Command::Break { block, index } => self.answer_break(program, block, index, out),
            Command::Bad => put_line(b"bad command\n", out),
        }
    }
}
