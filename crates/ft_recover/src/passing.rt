//! An outlet that writes a line for each output except the first ones.
ghost use Rattle.std.specs.Prelude.{◌≡◌};
ghost use Rattle.ft_types.specs.Spellable.{IsSpellable};
ghost use Rattle.ft_machine.specs.Drives.{IsOfCell};
ghost use Rattle.ft_recover.specs.Passing.{Passes};

use ft_edge::Sink;
use ft_isa::Output;
use ft_machine::{Outlet, put_output};
use ft_types::Program;

/// Counts the outputs of a program, and writes a line for each except the first ones.
#[derive(Drop)]
pub(crate) struct Passing<'a, P, K> {
    /// The program.
    pub(crate) program: &'a P,
    /// How many more outputs are left out.
    pub(crate) passed: u64,
    /// How many outputs there were.
    pub(crate) count: u64,
    /// Where the lines are written.
    pub(crate) out: &'a mut K,
}

impl<'a, P: Program, K: Sink> Outlet for Passing<'a, P, K> {
    ghost use Rattle.std.proofs.Common.{refl};
    ghost use Rattle.ft_recover.specs.Passing.{passes_none};

    ghost heard = { λ first outputs goes now. (now.out.ghost_name ≡ first.out.ghost_name) × (P.object now.program.now ≡ P.object first.program.now)
        × Passes (P.object first.program.now) first.passed first.count outputs goes now.passed now.count (K.log first.out.now) (K.log now.out.now) };

    ghost may = { λ passing output. IsSpellable (P.object passing.program.now) × IsOfCell (P.object passing.program.now) output };

    ghost heard_none = { λ passing. (refl, refl, passes_none (P.object passing.program.now) passing.passed passing.count (K.log passing.out.now)) };

    fn take(&mut self, output: Output) -> bool {
        self.count = self.count.wrapping_add(1);
        if self.passed > 0 {
            self.passed -= 1;
            return true;
        }
        put_output(self.program, output, self.out).is_ok()
    }
}
