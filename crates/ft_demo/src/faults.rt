//! The faults that are tried.
ghost use Rattle.std.specs.Prelude.{◌≡◌, ◌<◌, Some, IfOk};
ghost use Rattle.ft_demo.specs.Demonstrations.{fault, first_faults};

use ft_isa::{Reg, Site, Strike};
use std::alloc::{AllocError, Global};

/// Fault `j`, from 0 to 63: at step 16j, at register j, with value j.
fn fault(j: u8) -> Strike
    requires { j < 64 }
    ensures { fault j ≡ Some result }
{
    Strike {
        step: 16 * j as u64,
        site: Site::R(Reg::below(j)),
        value: j as u64,
    }
}

/// The 64 faults.
pub(crate) fn all_faults(alloc: Global) -> Result<Vec<Strike>, AllocError>
    ensures { IfOk result (λ faults. faults.items ≡ first_faults 64) }
{
    let mut faults = Vec::new(alloc);
    for j in 0..64u8 {
        faults.push(fault(j))?;
    }
    Ok(faults)
}
