//! A limit on work.
ghost use Rattle.std.specs.Prelude.{◌≡◌, ◌+◌, ◌<◌, ◌≤◌, ◌↔◌, IfSome, IsErr, None, OnOk, Some};
ghost use Rattle.ft_meter.specs.Budgets.{counted, is_spent};

use crate::meter::Meter;
use ft_isa::NoMemory;

/// How many steps are left, and how many units of other work. Either is `None` after it was refused: then it is refused
/// from then on.
#[derive(Clone, Copy, Debug, PartialEq, Eq)]
pub struct Budget {
    pub steps: Option<u64>,
    pub work: Option<u64>,
}

impl Budget {
    /// A budget of so many steps and units of other work.
    pub fn new(steps: u64, work: u64) -> Budget
        ensures steps { result.steps ≡ Some steps }
        ensures work { result.work ≡ Some work }
    {
        Budget {
            steps: Some(steps),
            work: Some(work),
        }
    }

    /// Whether steps or work were refused.
    pub fn is_spent(&self) -> bool
        ensures { result ≡ is_spent self.now.steps self.now.work }
    {
        match (self.steps, self.work) {
            (Some(_), Some(_)) => false,
            _ => true,
        }
    }
}

impl Meter for Budget {
    const WEIGHS: bool = true;

    ghost counted = { λ b. counted b.steps };

    /// Refuses exactly what goes beyond the steps that are left.
    #[inline]
    fn take(&mut self, steps: u64) -> Result<(), NoMemory>
        ensures most { counted self.new.steps ≤ counted self.old.steps + steps }
        ensures granted { OnOk result (IfSome self.old.steps (λ l. IfSome self.new.steps (λ k. k + steps ≡ l))) }
        ensures refused { IsErr result ↔ (self.new.steps ≡ None) }
        ensures exact { IfSome self.old.steps (λ l. IsErr result ↔ (l < steps)) }
        ensures spent { self.old.steps ≡ None → self.new.steps ≡ None }
        ensures work { self.new.work ≡ self.old.work }
    {
        match self.steps {
            Some(left) if steps <= left => {
                self.steps = Some(left - steps);
                Ok(())
            }
            _ => {
                self.steps = None;
                Err(NoMemory)
            }
        }
    }

    /// Refuses exactly what goes beyond the work that is left.
    #[inline]
    fn pay(&mut self, units: u64) -> Result<(), NoMemory>
        ensures same { counted self.new.steps ≡ counted self.old.steps }
        ensures steps { self.new.steps ≡ self.old.steps }
        ensures granted { OnOk result (IfSome self.old.work (λ l. IfSome self.new.work (λ k. k + units ≡ l))) }
        ensures refused { IsErr result ↔ (self.new.work ≡ None) }
        ensures exact { IfSome self.old.work (λ l. IsErr result ↔ (l < units)) }
        ensures spent { self.old.work ≡ None → self.new.work ≡ None }
    {
        match self.work {
            Some(left) if units <= left => {
                self.work = Some(left - units);
                Ok(())
            }
            _ => {
                self.work = None;
                Err(NoMemory)
            }
        }
    }
}
