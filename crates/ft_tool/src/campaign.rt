//! The command `campaign`.
ghost use Rattle.std.specs.Prelude.{◌≡◌, ◌≢◌, ◌≤◌, ◌<◌, ◌*◌, ◌⊎◌, [], length, Some, None, IsTrue};
ghost use Rattle.ft_command.specs.Asked.{campaign_view};
ghost use Rattle.ft_typing.specs.Accepted.{refusal};
ghost use Rattle.ft_types.specs.Spellable.{IsSpellable};
ghost use Rattle.ft_campaign.specs.Campaigns.{EndsAs as CampaignEnds, IsUncorrupted};
ghost use Rattle.ft_edge.specs.Logs.{LoadFails, NoLoadFails};
ghost use Rattle.ft_tool.specs.Answers.{CampaignsUnless, CampaignsObject, OverFile, FailsIn};
ghost use Rattle.ft_tool.specs.Calls.{HasMade, LoadsFor};
ghost use Rattle.ft_tool.specs.Replies.{IsToldFile};
ghost use Rattle.ft_tool.specs.Known.{ForFiles, revealing};
ghost use Rattle.ft_edge.specs.Loads.{Files};
ghost use Rattle.ft_tool.specs.Told.{CampaignsListOf, LoadsOther, OfFiles};
ghost use Rattle.ft_tool.specs.Lists.{NoneCorrupt, OverFaults};
ghost use Rattle.ft_tool.specs.Endings.{Ends, ends_early};
ghost use Rattle.ft_command.specs.Commands.{Campaigns};

use crate::ending::{Ending, put_list_line, refuse_check, refuse_object};
use crate::load::load_object;
use crate::over_list::{Target, over_list};
use ft_campaign::{CampaignEnd, campaign};
use ft_checker::{Checked, check_uncounted};
use ft_command::Campaign;
use ft_edge::{Shelf, Sink};
use ft_isa::{Steps, Strike};
use ft_types::Program;
use std::alloc::Global;
use std::marker::Brand;
use std::sync::ledger::{Blank, Ledger};

/// Runs a campaign on an accepted object, with a step counter of its own.
fn campaign_counted<P: Program, K: Sink, L: Ledger>(
    alloc: Global,
    checked: &Checked<P>,
    faults: &[Strike],
    asked: &Campaign,
    out: &mut K,
    blank: Blank,
) -> CampaignEnd
    requires name { blank.name ≡ L.name }
    requires parts { blank.parts ≡ L.parts }
    requires some { 0 < L.parts }
    requires faults { length faults.now ≤ 65536 }
    requires steps { asked.now.steps ≤ 1000000 }
    ensures ends { CampaignEnds result (P.object checked.now) faults.now asked.now.wild.items asked.now.steps (K.log out.old) (K.log out.new) }
    ensures too_much { 1000000000 < length faults.now * asked.now.steps → result ≡ CampaignEnd.TooMuch (length faults.now * asked.now.steps) }
    ensures uncorrupted { IsUncorrupted result }
{
    let mut steps = Steps::<L>::new(blank);
    campaign(
        alloc,
        checked,
        faults,
        asked.wild.as_slice(),
        asked.steps,
        out,
        &mut steps,
    )
}

/// Tries faults on an accepted object and writes their verdicts, none of which is corrupt.
fn campaign_faults<P: Program, K: Sink>(
    alloc: Global,
    checked: &Checked<P>,
    faults: &[Strike],
    asked: &Campaign,
    out: &mut K,
) -> Ending
    requires spellable { IsSpellable (P.object checked.now) }
    requires accepted { refusal (P.object checked.now) ≡ None }
    requires faults { length faults.now ≤ 65536 }
    requires steps { asked.now.steps ≤ 1000000 }
    ensures { Ends result (OverFaults NoneCorrupt (campaign_view asked.now) (P.object checked.now) faults.now)
        (K.log out.old) (K.log out.new) ⊥ }
{
    match campaign_counted::<P, K, Brand>(alloc, checked, faults, asked, out, Blank::new(1)) {
        CampaignEnd::Finished(_) => Ending::Done,
        CampaignEnd::TooMuch { product } => put_list_line(3, product, out),
        CampaignEnd::WriteFault => Ending::WriteFailed,
        CampaignEnd::NoMemory => Ending::NoMemory,
    }
}

/// An accepted object on which faults are tried.
#[derive(Drop)]
struct CheckedTarget<'a, P: Program> {
    checked: &'a Checked<'a, P>,
}

impl<'a, P: Program> Target for CheckedTarget<'a, P> {
    ghost use Rattle.std.specs.Prelude.{◌≡◌, None};
    ghost use Rattle.ft_typing.specs.Accepted.{refusal};
    ghost use Rattle.ft_types.specs.Spellable.{IsSpellable};
    ghost use Rattle.ft_tool.specs.Lists.{NoneCorrupt};

    ghost object = { λ t. P.object t.checked.now };

    ghost known = { λ t. IsSpellable (P.object t.checked.now) × (refusal (P.object t.checked.now) ≡ None) };

    ghost promised = { λ t. NoneCorrupt };

    fn over_faults<K: Sink>(
        &self,
        alloc: Global,
        faults: &[Strike],
        asked: &Campaign,
        out: &mut K,
    ) -> Ending {
        campaign_faults(alloc, self.checked, faults, asked, out)
    }
}

/// Loads a fault list and tries it on an accepted object.
fn campaign_checked<P: Program, F: Shelf, K: Sink>(
    alloc: Global,
    checked: &Checked<P>,
    bytes: &[u8],
    asked: &Campaign,
    shelf: &mut F,
    out: &mut K,
) -> Ending
    requires spellable { IsSpellable (P.object checked.now) }
    requires accepted { refusal (P.object checked.now) ≡ None }
    requires steps { asked.now.steps ≤ 1000000 }
    ensures ends { ForFiles (F.log shelf.old).files (F.agrees shelf.new) (λ told.
        IsToldFile told asked.now.object.now bytes.now → Ends result (CampaignsListOf (campaign_view asked.now) told bytes.now (P.object checked.now))
        (K.log out.old) (K.log out.new)
        (LoadFails asked.now.faults.now (F.log shelf.old) (F.log shelf.new))) }
    ensures earlier { (files : Files) → F.agrees shelf.new files → F.agrees shelf.old files }
    ensures load_failures { result ≢ Ending.LoadFailed → NoLoadFails
        (F.log shelf.old) (F.log shelf.new) }
    ensures made { LoadsOther (campaign_view asked.now) (F.log shelf.old).asked (F.log shelf.new).asked }
{
    over_list(alloc, &CheckedTarget { checked }, bytes, asked, shelf, out)
}

/// Checks an object, and tries a fault list on it if it is accepted.
fn campaign_object<P: Program, F: Shelf, K: Sink>(
    alloc: Global,
    program: &P,
    bytes: &[u8],
    asked: &Campaign,
    shelf: &mut F,
    out: &mut K,
) -> Ending
    requires spellable { IsSpellable (P.object program.now) }
    requires steps { asked.now.steps ≤ 1000000 }
    ensures ends { ForFiles (F.log shelf.old).files (F.agrees shelf.new) (λ told.
        IsToldFile told asked.now.object.now bytes.now → Ends result (CampaignsUnless (refusal (P.object program.now)) (CampaignsListOf (campaign_view asked.now) told bytes.now (P.object program.now)))
        (K.log out.old) (K.log out.new)
        (LoadFails asked.now.faults.now (F.log shelf.old) (F.log shelf.new)
        × (refusal (P.object program.now) ≡ None))) }
    ensures earlier { (files : Files) → F.agrees shelf.new files → F.agrees shelf.old files }
    ensures load_failures { result ≢ Ending.LoadFailed → NoLoadFails
        (F.log shelf.old) (F.log shelf.new) }
    ensures made { (((refusal (P.object program.now) ≢ None) ⊎ IsTrue (ends_early result)) × HasMade [] (F.log shelf.old).asked (F.log shelf.new).asked)
        ⊎ ((refusal (P.object program.now) ≡ None) × LoadsOther (campaign_view asked.now) (F.log shelf.old).asked (F.log shelf.new).asked) }
{
    match check_uncounted(alloc, program) {
        Ok(checked) => campaign_checked(alloc, &checked, bytes, asked, shelf, out),
        Err(error) => refuse_check(error, out),
    }
}

/// Loads an object, checks it, and tries a fault list on it.
pub(crate) fn campaign_file<F: Shelf, K: Sink>(
    alloc: Global,
    asked: &Campaign,
    shelf: &mut F,
    out: &mut K,
) -> Ending
    requires { asked.now.steps ≤ 1000000 }
    ensures ends { ForFiles (F.log shelf.old).files (F.agrees shelf.new) (λ told.
        Ends result (λ a. OfFiles told (λ files. OverFile (CampaignsObject (campaign_view asked.now) files) asked.now.object.now files a))
        (K.log out.old) (K.log out.new)
        (OfFiles told (λ files. FailsIn (Campaigns (campaign_view asked.now)) files
        (revealing told (F.log shelf.old)) (revealing told (F.log shelf.new))))) }
    ensures load_failures { result ≢ Ending.LoadFailed → NoLoadFails
        (F.log shelf.old) (F.log shelf.new) }
    ensures made { ForFiles (F.log shelf.old).files (F.agrees shelf.new) (λ told.
        OfFiles told (λ files. LoadsFor (Campaigns (campaign_view asked.now)) told files (IsTrue (ends_early result)) (F.log shelf.old).asked (F.log shelf.new).asked)) }
{
    let mut bytes = Vec::new(alloc);
    match load_object(asked.object, shelf, &mut bytes) {
        Ok(view) => campaign_object(alloc, &view, view.bytes(), asked, shelf, out),
        Err(fault) => refuse_object(fault, out),
    }
}
