//! Tries fault lists on objects.
ghost use Rattle.std.specs.Prelude.{◌≡◌, ◌≢◌, ◌≤◌, Some};
ghost use Rattle.ft_command.specs.Asked.{campaign_view};
ghost use Rattle.ft_edge.specs.Logs.{LoadFails, NoLoadFails};
ghost use Rattle.ft_tool.specs.Replies.{IsToldFile};
ghost use Rattle.ft_tool.specs.Known.{ForFiles};
ghost use Rattle.ft_edge.specs.Loads.{Files};
ghost use Rattle.ft_tool.specs.Told.{OverListOf, LoadsOther};
ghost use Rattle.ft_tool.specs.Endings.{Ends};

use crate::ending::{Ending, refuse_list};
use crate::load::list_of;
use ft_command::Campaign;
use ft_edge::{Shelf, Sink};
use ft_isa::Strike;
use std::alloc::Global;

/// An object on which faults are tried.
pub(crate) trait Target {
    ghost use Rattle.std.specs.Prelude.{◌≡◌, ◌≢◌, ◌≤◌, List, length};
    ghost use Rattle.ft_command.specs.Asked.{campaign_view};
    ghost use Rattle.ft_types.specs.declared.object.Object.{Object};
    ghost use Rattle.ft_campaign.specs.declared.verdict.Verdict.{Verdict};
    ghost use Rattle.ft_tool.specs.Lists.{OverFaults};
    ghost use Rattle.ft_tool.specs.Endings.{Ends};

    // The object.
    ghost object: { Self → Object };

    // What is known about the object.
    ghost known: { Self → Type 0 };

    // What is promised about the verdicts.
    ghost promised: { Self → List Verdict → Type 0 };

    /// Tries faults on the object.
    fn over_faults<K: Sink>(
        &self,
        alloc: Global,
        faults: &[Strike],
        asked: &Campaign,
        out: &mut K,
    ) -> Ending
        requires known { known self.now }
        requires faults { length faults.now ≤ 65536 }
        requires steps { asked.now.steps ≤ 1000000 }
        ensures { Ends result (OverFaults (promised self.now) (campaign_view asked.now) (object self.now) faults.now)
            (K.log out.old) (K.log out.new) ⊥ };
}

/// Loads the fault list of a campaign whose object file has these bytes, and tries it.
pub(crate) fn over_list<T: Target, F: Shelf, K: Sink>(
    alloc: Global,
    target: &T,
    bytes: &[u8],
    asked: &Campaign,
    shelf: &mut F,
    out: &mut K,
) -> Ending
    requires known { T.known target.now }
    requires steps { asked.now.steps ≤ 1000000 }
    ensures ends { ForFiles (F.log shelf.old).files (F.agrees shelf.new) (λ told.
        IsToldFile told asked.now.object.now bytes.now → Ends result (OverListOf (T.promised target.now) (campaign_view asked.now) told bytes.now (T.object target.now))
        (K.log out.old) (K.log out.new)
        (LoadFails asked.now.faults.now (F.log shelf.old) (F.log shelf.new))) }
    ensures earlier { (files : Files) → F.agrees shelf.new files → F.agrees shelf.old files }
    ensures load_failures { result ≢ Ending.LoadFailed → NoLoadFails
        (F.log shelf.old) (F.log shelf.new) }
    ensures made { LoadsOther (campaign_view asked.now) (F.log shelf.old).asked (F.log shelf.new).asked }
{
    match list_of(alloc, asked, bytes, shelf) {
        Ok(faults) => target.over_faults(alloc, faults.as_slice(), asked, out),
        Err(fault) => refuse_list(fault, out),
    }
}
