//! Points: states that are kept.
ghost use Rattle.std.specs.Prelude.{◌≡◌, ◌≤◌, ◌+◌, ℕ, true, List, Option, Some};
ghost use Rattle.ft_isa.specs.declared.plan.Strike.{Strike};
ghost use Rattle.ft_isa.specs.declared.plan.Wild.{Wild};
ghost use Rattle.ft_types.specs.Spellable.{IsSpellable};
ghost use Rattle.ft_typing.specs.Accepted.{IsAccepted};
ghost use Rattle.ft_semantics.specs.State.{State, is_cell};
ghost use Rattle.ft_semantics.specs.Strike.{struck_before};
ghost use Rattle.ft_points.specs.Certified.{is_certified};
ghost use Rattle.ft_points.specs.Points.{IsPoint, run_from};

use crate::certified::is_certified;
use ft_machine::Machine;
use ft_types::Program;

/// Copies a machine's state, and says whether the copy is certified. It copies first: a strike on the machine during or
/// after the call is one on the next leg, or shows in the copy. If the machine has been struck at most once since a
/// point of an accepted program, and the copy is certified, the copy is a point.
pub fn keep<P: Program>(machine: &Machine, program: &P, copy: &mut Machine) -> bool
    requires spellable { IsSpellable (P.object program.now) }
    requires cells { (a : ℕ) → is_cell copy.old.cells a ≡ is_cell machine.now.cells a }
    ensures copied { copy.new ≡ machine.now }
    ensures certified { result ≡ is_certified (P.object program.now) copy.new }
    ensures renewed { (n : ℕ) (s : State) (strike : Option Strike) (w : List Wild) (k : ℕ) → IsAccepted (P.object program.now) →
        IsPoint (P.object program.now) n s → ((x : Strike) → strike ≡ Some x → x.step ≤ k) →
        machine.now ≡ struck_before strike k (run_from (P.object program.now) s strike w k).state →
        result ≡ true → IsPoint (P.object program.now) (n + k) copy.new }
{
    copy.copy_from(machine);
    is_certified(copy, program)
}
