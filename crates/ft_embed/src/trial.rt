//! The verdicts of a campaign, as C sees them.
ghost use Rattle.std.specs.Prelude.{◌≡◌, ◌<◌, ◌≤◌, ◌+◌, ◌++◌, ◌∷◌, [], length, map, take};
ghost use Rattle.ft_embed.specs.Trials.{detected_at, fault_totals, fault_verdict, untried, verdict_number};

use ft_campaign::{Totals, Verdict};

/// The verdict on a fault: 0 masked, 1 detected, 2 idle, 3 corrupt; and the step that detected the fault, or 0 if none
/// did.
#[repr(C)]
#[derive(Clone, Copy)]
pub struct FaultVerdict {
    pub verdict: u64,
    pub at: u64,
}

/// How many faults there are, and how many have each verdict except corrupt, which no fault of an accepted object has.
#[repr(C)]
#[derive(Clone, Copy)]
pub struct FaultTotals {
    pub count: u64,
    pub masked: u64,
    pub detected: u64,
    pub idle: u64,
}

/// The number of a verdict.
fn verdict_number(verdict: Verdict) -> u64
    ensures { result ≡ verdict_number verdict }
{
    match verdict {
        Verdict::Masked => 0,
        Verdict::Detected { at: _ } => 1,
        Verdict::Idle => 2,
        Verdict::Corrupt => 3,
    }
}

/// The step that detected the fault, or 0.
fn detected_at(verdict: Verdict) -> u64
    ensures { result ≡ detected_at verdict }
{
    match verdict {
        Verdict::Masked => 0,
        Verdict::Detected { at } => at,
        Verdict::Idle => 0,
        Verdict::Corrupt => 0,
    }
}

/// A verdict as C sees it.
fn fault_verdict(verdict: Verdict) -> FaultVerdict
    ensures { result ≡ fault_verdict verdict }
{
    FaultVerdict {
        verdict: verdict_number(verdict),
        at: detected_at(verdict),
    }
}

/// Puts a verdict into an array at an index.
fn put_verdict(out: &mut [FaultVerdict], at: usize, verdict: FaultVerdict)
    requires { at < length out.old }
    ensures written { take (at + 1) out.new ≡ take at out.old ++ verdict ∷ [] }
    ensures same { length out.new ≡ length out.old }
{
    let one = [verdict];
    out[at..at + 1].copy_from_slice(&one);
}

/// Puts verdicts into an array from its start.
pub(crate) fn put_verdicts(verdicts: &[Verdict], out: &mut [FaultVerdict])
    requires { length verdicts.now ≤ length out.old }
    ensures written { take (length verdicts.now) out.new ≡ map fault_verdict verdicts.now }
    ensures same { length out.new ≡ length out.old }
{
    for (i, verdict) in verdicts.iter().enumerate() {
        put_verdict(out, i, fault_verdict(*verdict));
    }
}

/// Totals as C sees them.
pub(crate) fn fault_totals(count: usize, totals: Totals) -> FaultTotals
    ensures { result ≡ fault_totals count totals }
{
    FaultTotals {
        count: count as u64,
        masked: totals.masked as u64,
        detected: totals.detected as u64,
        idle: totals.idle as u64,
    }
}

/// Totals of a campaign that did not run: only the number of faults, or 0.
pub(crate) fn no_totals(count: usize) -> FaultTotals
    ensures { result ≡ untried count }
{
    FaultTotals {
        count: count as u64,
        masked: 0,
        detected: 0,
        idle: 0,
    }
}
