//! What happens at each output of a run.
ghost use Rattle.std.specs.Prelude.{◌≡◌, ◌∷◌, [], Bool, true, List};
ghost use Rattle.ft_isa.specs.declared.output.Output.{Output as Committed};
ghost use Rattle.ft_machine.specs.Hears.{Hears};

use ft_isa::Output;

/// Takes each output of a run, and tells the loop that runs the machine whether the run goes on.
pub trait Outlet {
    // From the first state, the outlet took these outputs one by one and went on after each but the last. The `Bool`
    // says whether it went on after the last, too.
    ghost heard: { Self → List Committed → Bool → Self → Type 0 };

    // Whether an output may be taken.
    ghost may: { Self → Committed → Type 0 };

    /// Takes an output, and returns whether the run goes on.
    fn take(&mut self, output: Output) -> bool
        requires { may self.old output }
        ensures heard { Hears heard self.old (output ∷ []) result self.new }
        ensures still { (other : Committed) → may self.old other → may self.new other };

    // At first, an outlet has taken no outputs.
    ghost heard_none: { (outlet : Self) → heard outlet [] true outlet };
}
