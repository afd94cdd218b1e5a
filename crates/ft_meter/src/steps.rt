//! A counter of steps as a meter.
ghost use Rattle.std.specs.Prelude.{◌≡◌, ◌+◌, IsOk};

use crate::meter::Meter;
use ft_isa::{NoMemory, Steps};
use std::sync::ledger::Ledger;

impl<L: Ledger> Meter for Steps<L> {
    const WEIGHS: bool = false;

    ghost counted = { λ s. s };

    /// Counts exactly these steps, and never refuses.
    #[inline(always)]
    fn take(&mut self, steps: u64) -> Result<(), NoMemory>
        ensures exact { self.new ≡ self.old + steps }
        ensures granted { IsOk result }
    {
        self.count(steps);
        Ok(())
    }

    /// Counts nothing, and never refuses.
    #[inline(always)]
    fn pay(&mut self, _units: u64) -> Result<(), NoMemory>
        ensures same { self.new ≡ self.old }
        ensures granted { IsOk result }
    {
        Ok(())
    }
}
