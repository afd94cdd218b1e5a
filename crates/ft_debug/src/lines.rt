//! The lines of a session.
ghost use Rattle.std.specs.Prelude.{◌≡◌, ◌≤◌, ◌<◌, ◌+◌, ◌++◌, ℕ, length};
ghost use Rattle.ft_isa.specs.Words.{line};
ghost use Rattle.ft_isa.specs.PlanText.{site_text};
ghost use Rattle.ft_types.specs.Spellable.{IsSpellable};
ghost use Rattle.ft_types.specs.Texts.{line_at};
ghost use Rattle.ft_script.specs.Commands.{register_text};
ghost use Rattle.ft_debug.specs.Sessions.{status_text, at_text, at_line, colour_text, coloured_line, entry_line, block_text, where_line};
ghost use Rattle.ft_debug.specs.Places.{shown_place};

use crate::code_places::{Place, place_of};
use crate::moment::Moment;
use ft_isa::{Colour, Coloured, FIRST_CELL, Output};
use ft_script::Register;
use ft_semantics::Status;
use ft_text::Line;
use ft_types::Program;

/// The text of a status.
fn status_text(status: Status) -> &'static [u8]
    ensures text { result.now ≡ status_text status }
    ensures length { length result.now ≤ 8 }
{
    match status {
        Status::Running => b"running",
        Status::Done => b"done",
        Status::Detected => b"detected",
    }
}

/// A line that begins with the position and the machine's status: at most 32 bytes.
fn begin_at(moment: &Moment<'_>) -> Line
    ensures text { result ≡ at_text moment.now.position moment.now.machine }
    ensures length { length result ≤ 32 }
{
    let mut line = Line::new();
    line.piece(b"at ");
    line.number(moment.position);
    line.piece(b" ");
    line.piece(status_text(moment.machine.status()));
    line
}

/// The line of a position.
pub fn at_line(moment: &Moment<'_>) -> Line
    ensures { result ≡ at_line moment.now.position moment.now.machine }
{
    let mut line = begin_at(moment);
    line.piece(b"\n");
    line
}

/// The line with a cell's name and a word.
pub fn word_line(name: &[u8], word: u64) -> Line
    requires { length name.now ≤ 40 }
    ensures { result ≡ line name.now word }
{
    let mut line = Line::new();
    line.piece(name);
    line.piece(b" ");
    line.number(word);
    line.piece(b"\n");
    line
}

/// The line of an output.
pub fn output_line<P: Program>(program: &P, output: Output) -> Line
    requires spellable { IsSpellable (P.object program.now) }
    requires low { FIRST_CELL ≤ output.addr }
    requires high { output.addr < FIRST_CELL + length (P.object program.now).cells }
    ensures { result ≡ line_at (P.object program.now) output }
{
    let name = program.name((output.addr - FIRST_CELL) as u32);
    word_line(name, output.value)
}

/// The line of a store queue entry.
pub fn entry_line(entry: (u64, u64)) -> Line
    ensures { result ≡ entry_line entry }
{
    let (address, value) = entry;
    let mut line = Line::new();
    line.number(address);
    line.piece(b" ");
    line.number(value);
    line.piece(b"\n");
    line
}

/// Adds the name of a register: at most 21 bytes.
fn add_register(line: &mut Line, register: Register)
    requires { length line.old ≤ 100 }
    ensures added { line.new ≡ line.old ++ register_text register }
    ensures length { length line.new ≤ length line.old + 21 }
{
    match register {
        Register::R(reg) => {
            line.piece(b"r");
            line.number(u64::from(reg.number()));
        }
        Register::D => line.piece(b"d"),
        Register::PcG => line.piece(b"pcg"),
        Register::PcB => line.piece(b"pcb"),
    }
}

/// The letter of a colour, between spaces.
fn colour_text(colour: Colour) -> &'static [u8]
    ensures text { result.now ≡ colour_text colour }
    ensures length { length result.now ≤ 3 }
{
    match colour {
        Colour::Green => b" G ",
        Colour::Blue => b" B ",
    }
}

/// The line of a register and what it holds.
pub fn register_line(register: Register, held: Coloured) -> Line
    ensures { result ≡ coloured_line (register_text register) held }
{
    let mut line = Line::new();
    add_register(&mut line, register);
    line.piece(colour_text(held.colour));
    line.number(held.word);
    line.piece(b"\n");
    line
}

/// The line that says where the machine is.
pub fn where_line<P: Program>(program: &P, moment: &Moment<'_>) -> Line
    requires { IsSpellable (P.object program.now) }
    ensures { result ≡ where_line (P.object program.now) moment.now.position moment.now.machine }
{
    let (green, blue) = (
        moment.machine.pc(Colour::Green),
        moment.machine.pc(Colour::Blue),
    );
    let mut line = begin_at(moment);
    line.piece(b" pcg ");
    line.number(green);
    line.piece(b" pcb ");
    line.number(blue);
    add_place(&mut line, place_of(program, green, blue));
    line.piece(b"\n");
    line
}

/// Adds a place, if there is one: at most 54 bytes.
fn add_place(line: &mut Line, place: Option<Place>)
    requires { length line.old ≤ 100 }
    ensures added { line.new ≡ line.old ++ shown_place place }
    ensures length { length line.new ≤ length line.old + 54 }
{
    if let Some(place) = place {
        line.piece(b" block ");
        line.number(u64::from(place.block));
        line.piece(b" index ");
        line.number(u64::from(place.index));
    }
}
