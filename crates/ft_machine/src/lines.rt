//! An outlet that writes a line for each output.
ghost use Rattle.std.specs.Prelude.{◌≡◌, ◌≤◌, ◌<◌, ◌+◌, ◌∷◌, [], length};
ghost use Rattle.ft_edge.specs.Lines.{Puts, end_of_puts};
ghost use Rattle.ft_types.specs.Spellable.{IsSpellable};
ghost use Rattle.ft_types.specs.Texts.{line_at};
ghost use Rattle.ft_machine.specs.Drives.{PutsOutputs, IsOfCell};

use crate::outlet::Outlet;
use ft_edge::{Failed, Sink, put_line};
use ft_isa::{FIRST_CELL, LINE_ROOM, Output, write_line};
use ft_types::Program;

/// Writes the line of an output.
#[inline(never)]
pub fn put_output<P: Program, K: Sink>(
    program: &P,
    output: Output,
    out: &mut K,
) -> Result<(), Failed>
    requires spellable { IsSpellable (P.object program.now) }
    requires low { FIRST_CELL ≤ output.addr }
    requires high { output.addr < FIRST_CELL + length (P.object program.now).cells }
    ensures { Puts (end_of_puts result) (line_at (P.object program.now) output ∷ []) (K.log out.old) (K.log out.new) }
{
    let name = program.name((output.addr - FIRST_CELL) as u32);
    let mut line = [0u8; LINE_ROOM];
    let start = write_line(&mut line, name, output.value);
    put_line(&line[start..], out)
}

/// Writes a line for each output of a program, each with one put, and does not go on after a failed put.
#[derive(Drop)]
pub struct Lines<'a, P, K> {
    /// The program.
    pub program: &'a P,
    /// Where the lines are written.
    pub out: &'a mut K,
}

impl<'a, P: Program, K: Sink> Outlet for Lines<'a, P, K> {
    ghost use Rattle.std.proofs.Common.{refl};
    ghost use Rattle.ft_machine.specs.Drives.{outputs_none};

    ghost heard = { λ first outputs goes now. (now.out.ghost_name ≡ first.out.ghost_name) × (P.object now.program.now ≡ P.object first.program.now)
        × PutsOutputs (P.object first.program.now) outputs goes (K.log first.out.now) (K.log now.out.now) };

    ghost may = { λ lines output. IsSpellable (P.object lines.program.now) × IsOfCell (P.object lines.program.now) output };

    ghost heard_none = { λ lines. (refl, refl, outputs_none (P.object lines.program.now) (K.log lines.out.now)) };

    fn take(&mut self, output: Output) -> bool {
        put_output(self.program, output, self.out).is_ok()
    }
}
