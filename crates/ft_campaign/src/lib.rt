//! Campaigns: the verdict of each fault of a list on a program.
//!
//! The crate promises that a fault list is read exactly, that a campaign finds each fault's verdict as defined and
//! writes a line for each verdict and a line of totals, that the faults together cost no more steps than
//! `specs/Snapshots.antt` says, and that a fault of an accepted program is never corrupt. Its definitions:
//! `specs/FaultList.antt`, `specs/Verdicts.antt`, `specs/Texts.antt`, `specs/Campaigns.antt`, `specs/Snapshots.antt`.
#![tactic(auto)]

mod campaign_end;
mod campaigns;
mod clean;
mod clean_run;
mod fault_list;
mod follow;
mod judge;
mod laws;
mod lengths;
mod lines;
mod report;
mod struck_run;
mod totals;
mod verdict;

pub use campaign_end::CampaignEnd;
pub use campaigns::{campaign, survey};
pub use fault_list::{ListError, read_faults};
pub use judge::find_verdicts;
pub use laws::{
    faults_of_accepted_objects_are_not_corrupt, one_text_has_one_list,
    runs_that_meet_stay_together, verdicts_are_one,
};
pub use lines::end_line;
pub use totals::{Totals, totals_of};
pub use verdict::Verdict;
