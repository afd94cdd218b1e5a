//! Checked programs.
ghost use Rattle.std.specs.Prelude.{◌≡◌};
ghost use Rattle.ft_typing.specs.Accepted.{IsAccepted};
ghost use Rattle.ft_types.specs.Spellable.{IsSpellable};
ghost use Rattle.ft_checker.specs.Judges.{IsChecked};

use ft_types::Program;
use std::marker::Model;

/// An accepted program: `check` has accepted it, or it is known to be accepted from the way it was made.
#[derive(Drop)]
pub struct Checked<'a, P: Program> {
    pub(crate) program: &'a P,
}

impl<'a, P: Program> Model for Checked<'a, P> {
    ghost use Rattle.ft_checker.specs.Judges.{IsChecked};

    ghost Value = { P };

    ghost coded = { P.code };

    ghost view = { λ s. s.program.now };

    ghost invariant = { λ s. IsChecked (P.object s.program.now) };
}

impl<'a, P: Program> Checked<'a, P> {
    /// Wraps a program already known to be accepted, without checking it.
    pub fn of_accepted(program: &'a P) -> Checked<'a, P>
        requires spellable { IsSpellable (P.object program.now) }
        requires accepted { IsAccepted (P.object program.now) }
        ensures { result ≡ program.now }
    {
        Checked { program }
    }

    /// The program.
    pub fn program(&self) -> &'a P
        ensures same { result.now ≡ self.now }
        ensures checked { IsChecked (P.object result.now) }
    {
        self.program
    }
}
