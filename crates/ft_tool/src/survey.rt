//! The command `survey`.
ghost use Rattle.std.specs.Prelude.{◌≡◌, ◌≢◌, ◌≤◌, ◌<◌, ◌*◌, length, Some, IsTrue};
ghost use Rattle.ft_command.specs.Asked.{campaign_view};
ghost use Rattle.ft_types.specs.Spellable.{IsSpellable};
ghost use Rattle.ft_campaign.specs.Campaigns.{EndsAs as CampaignEnds};
ghost use Rattle.ft_edge.specs.Logs.{NoLoadFails};
ghost use Rattle.ft_tool.specs.Answers.{SurveysObject, OverFile, FailsIn};
ghost use Rattle.ft_tool.specs.Calls.{LoadsFor};
ghost use Rattle.ft_tool.specs.Replies.{IsToldFile};
ghost use Rattle.ft_tool.specs.Known.{ForFiles, revealing};
ghost use Rattle.ft_tool.specs.Told.{OverListOf, LoadsOther, OfFiles};
ghost use Rattle.ft_tool.specs.Lists.{AnyVerdicts, OverFaults};
ghost use Rattle.ft_tool.specs.Endings.{Ends, ends_early};
ghost use Rattle.ft_command.specs.Commands.{Surveys};

use crate::ending::{Ending, put_list_line, refuse_object};
use crate::load::load_object;
use crate::over_list::{Target, over_list};
use ft_campaign::{CampaignEnd, survey};
use ft_command::Campaign;
use ft_edge::{Shelf, Sink};
use ft_isa::{Steps, Strike};
use ft_types::Program;
use std::alloc::Global;
use std::marker::Brand;
use std::sync::ledger::{Blank, Ledger};

/// Runs a campaign on an object without checking it, with a step counter of its own.
fn survey_counted<P: Program, K: Sink, L: Ledger>(
    alloc: Global,
    program: &P,
    faults: &[Strike],
    asked: &Campaign,
    out: &mut K,
    blank: Blank,
) -> CampaignEnd
    requires name { blank.name ≡ L.name }
    requires parts { blank.parts ≡ L.parts }
    requires some { 0 < L.parts }
    requires spellable { IsSpellable (P.object program.now) }
    requires faults { length faults.now ≤ 65536 }
    requires steps { asked.now.steps ≤ 1000000 }
    ensures ends { CampaignEnds result (P.object program.now) faults.now asked.now.wild.items asked.now.steps (K.log out.old) (K.log out.new) }
    ensures too_much { 1000000000 < length faults.now * asked.now.steps → result ≡ CampaignEnd.TooMuch (length faults.now * asked.now.steps) }
{
    let mut steps = Steps::<L>::new(blank);
    survey(
        alloc,
        program,
        faults,
        asked.wild.as_slice(),
        asked.steps,
        out,
        &mut steps,
    )
}

/// Tries faults on an object without checking it, and writes their verdicts.
fn survey_faults<P: Program, K: Sink>(
    alloc: Global,
    program: &P,
    faults: &[Strike],
    asked: &Campaign,
    out: &mut K,
) -> Ending
    requires spellable { IsSpellable (P.object program.now) }
    requires faults { length faults.now ≤ 65536 }
    requires steps { asked.now.steps ≤ 1000000 }
    ensures { Ends result (OverFaults AnyVerdicts (campaign_view asked.now) (P.object program.now) faults.now)
        (K.log out.old) (K.log out.new) ⊥ }
{
    match survey_counted::<P, K, Brand>(alloc, program, faults, asked, out, Blank::new(1)) {
        CampaignEnd::Finished(totals) => {
            if totals.corrupt == 0 {
                Ending::Done
            } else {
                Ending::Corrupt
            }
        }
        CampaignEnd::TooMuch { product } => put_list_line(3, product, out),
        CampaignEnd::WriteFault => Ending::WriteFailed,
        CampaignEnd::NoMemory => Ending::NoMemory,
    }
}

/// An unchecked object on which faults are tried.
#[derive(Drop)]
struct UncheckedTarget<'a, P> {
    program: &'a P,
}

impl<'a, P: Program> Target for UncheckedTarget<'a, P> {
    ghost use Rattle.ft_types.specs.Spellable.{IsSpellable};
    ghost use Rattle.ft_tool.specs.Lists.{AnyVerdicts};

    ghost object = { λ t. P.object t.program.now };

    ghost known = { λ t. IsSpellable (P.object t.program.now) };

    ghost promised = { λ t. AnyVerdicts };

    fn over_faults<K: Sink>(
        &self,
        alloc: Global,
        faults: &[Strike],
        asked: &Campaign,
        out: &mut K,
    ) -> Ending {
        survey_faults(alloc, self.program, faults, asked, out)
    }
}

/// Loads an object and, without checking it, tries a fault list on it.
pub(crate) fn survey_file<F: Shelf, K: Sink>(
    alloc: Global,
    asked: &Campaign,
    shelf: &mut F,
    out: &mut K,
) -> Ending
    requires { asked.now.steps ≤ 1000000 }
    ensures ends { ForFiles (F.log shelf.old).files (F.agrees shelf.new) (λ told.
        Ends result (λ a. OfFiles told (λ files. OverFile (SurveysObject (campaign_view asked.now) files) asked.now.object.now files a))
        (K.log out.old) (K.log out.new)
        (OfFiles told (λ files. FailsIn (Surveys (campaign_view asked.now)) files
        (revealing told (F.log shelf.old)) (revealing told (F.log shelf.new))))) }
    ensures load_failures { result ≢ Ending.LoadFailed → NoLoadFails
        (F.log shelf.old) (F.log shelf.new) }
    ensures made { ForFiles (F.log shelf.old).files (F.agrees shelf.new) (λ told.
        OfFiles told (λ files. LoadsFor (Surveys (campaign_view asked.now)) told files (IsTrue (ends_early result)) (F.log shelf.old).asked (F.log shelf.new).asked)) }
{
    let mut bytes = Vec::new(alloc);
    match load_object(asked.object, shelf, &mut bytes) {
        Ok(view) => {
            let target = UncheckedTarget { program: &view };
            over_list(alloc, &target, view.bytes(), asked, shelf, out)
        }
        Err(fault) => refuse_object(fault, out),
    }
}
