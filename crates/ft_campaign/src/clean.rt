//! The run without a fault, as a campaign keeps it.
ghost use Rattle.std.specs.Prelude.{◌≡◌, ◌≤◌, ◌+◌, ◌<◌, ℕ, List, IfOk, length, drop, Decides, slice_get, None, Some};
ghost use Rattle.ft_isa.specs.declared.plan.Strike.{Strike as Fault};
ghost use Rattle.ft_isa.specs.declared.plan.Wild.{Wild as Answer};
ghost use Rattle.ft_types.specs.declared.object.Object.{Object};
ghost use Rattle.ft_semantics.specs.Agrees.{IsPrefix};
ghost use Rattle.ft_semantics.specs.Run.{is_struck, state_after, wild_after, outputs_after};
ghost use Rattle.ft_semantics.specs.Strike.{is_site};
ghost use Rattle.ft_campaign.specs.Verdicts.{IsVerdict};
ghost use Rattle.ft_campaign.specs.Snapshots.{IsClean, HasEnded, IsAtMeeting};

use crate::verdict::Verdict;
use ft_isa::{Output, Site, Strike};
use ft_machine::{Machine, WildLeft};
use ft_semantics::Status;

/// How many steps there are from one snapshot to the next.
pub(crate) const SPACING: u64 = 1024;

/// The run without a fault after some steps.
#[derive(Drop)]
pub(crate) struct Snapshot<'w> {
    /// The machine.
    pub(crate) machine: Machine,
    /// The remaining answers to wild loads.
    pub(crate) wild: WildLeft<'w>,
    /// The number of outputs.
    pub(crate) count: usize,
}

/// What is kept of the run without a fault.
#[derive(Drop)]
pub(crate) struct KeptRun<'w> {
    /// Its outputs.
    pub(crate) outputs: Vec<Output>,
    /// The length of the queue before each step that it took while running.
    pub(crate) lengths: Vec<u8>,
    /// A snapshot before each such step whose number is a multiple of 1,024.
    pub(crate) snapshots: Vec<Snapshot<'w>>,
    /// Its status after its last step.
    pub(crate) status: Status,
    /// The number of the step at which it stopped, if it did.
    pub(crate) last: u64,
}

/// Whether the outputs after the first `from` are a prefix of those after the first `at`.
fn is_noticed_later(outputs: &[Output], from: usize, at: usize) -> bool
    requires from { from ≤ length outputs.now }
    requires at { at ≤ length outputs.now }
    ensures { Decides result (IsPrefix (drop from outputs.now) (drop at outputs.now)) }
{
    outputs[at..].starts_with(&outputs[from..])
}

/// Whether a run is detected.
fn is_detected(status: Status) -> bool
    ensures { Decides result (status ≡ Status.Detected) }
{
    match status {
        Status::Running => false,
        Status::Done => false,
        Status::Detected => true,
    }
}

/// Whether a site exists if the queue has this many entries.
fn is_site(site: Site, entries: u8) -> bool
    ensures { result ≡ is_site site entries }
{
    match site {
        Site::R(_) => true,
        Site::D => true,
        Site::PcG => true,
        Site::PcB => true,
        Site::QAddr(i) => i < entries,
        Site::QVal(i) => i < entries,
    }
}

impl<'w> KeptRun<'w> {
    /// Whether a fault strikes something.
    pub(crate) fn is_struck(&self, fault: Strike) -> bool
        ensures { (o : Object) (w : List Answer) (n : ℕ) → IsClean o w n self.now → result ≡ is_struck o (Some fault) w n }
    {
        match self.lengths.get(fault.step as usize) {
            None => false,
            Some(entries) => is_site(fault.site, *entries),
        }
    }

    /// Whether a run with the first `at` outputs and this status ends like this one.
    fn ends_alike(&self, at: usize, status: Status) -> bool
        ensures { Decides result ((status ≡ self.now.status) × (at ≡ length self.now.outputs.items)) }
    {
        if status != self.status {
            return false;
        }
        at == self.outputs.len()
    }

    /// The verdict on a struck run that reached its last step, with the first `at` outputs of this run.
    pub(crate) fn verdict_at_end(&self, at: usize, status: Status, last: u64) -> Verdict
        ensures { (o : Object) (x : Fault) (w : List Answer) (n : ℕ) → IsClean o w n self.now → HasEnded o x w n at status last → IsVerdict o x w n result }
    {
        if self.ends_alike(at, status) {
            return Verdict::Masked;
        }
        if is_detected(status) {
            return Verdict::Detected { at: last };
        }
        Verdict::Corrupt
    }

    /// Whether the run is detected, and its outputs after the first `from` are a prefix of those after the first `at`.
    fn is_noticed(&self, from: usize, at: usize) -> bool
        requires from { from ≤ length self.now.outputs.items }
        requires at { at ≤ length self.now.outputs.items }
        ensures { Decides result ((self.now.status ≡ Status.Detected) × IsPrefix (drop from self.now.outputs.items) (drop at self.now.outputs.items)) }
    {
        if !is_detected(self.status) {
            return false;
        }
        is_noticed_later(self.outputs.as_slice(), from, at)
    }

    /// The verdict on a struck run that met this one: at that point, it had the first `at` outputs, and this run had
    /// `count`.
    pub(crate) fn verdict_at_meeting(&self, at: usize, count: usize) -> Verdict
        requires at { at ≤ length self.now.outputs.items }
        requires count { count ≤ length self.now.outputs.items }
        ensures { (o : Object) (x : Fault) (w : List Answer) (n m : ℕ) → IsClean o w n self.now → IsAtMeeting o x w n at m count → IsVerdict o x w n result }
    {
        if at == count {
            return Verdict::Masked;
        }
        if self.is_noticed(count, at) {
            return Verdict::Detected { at: self.last };
        }
        Verdict::Corrupt
    }
}
