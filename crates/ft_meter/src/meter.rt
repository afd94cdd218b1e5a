//! What work is asked of.
ghost use Rattle.std.specs.Prelude.{◌≡◌, ℕ, ◌+◌, ◌≤◌};

use ft_isa::NoMemory;

/// What grants steps, and other work beside them. A refusal is an error like memory that has run out: whoever gets it
/// gives up, and knows nothing of the result.
pub trait Meter {
    /// Whether other work is counted. Where it is not, nobody needs to work out its price.
    const WEIGHS: bool;

    /// How many steps have been asked for.
    ghost counted: { Self → ℕ };

    /// Asks for steps, before they are taken.
    fn take(&mut self, steps: u64) -> Result<(), NoMemory>
        ensures { counted self.new ≤ counted self.old + steps };

    /// Asks for units of other work, before it is done.
    fn pay(&mut self, units: u64) -> Result<(), NoMemory>
        ensures { counted self.new ≡ counted self.old };
}
