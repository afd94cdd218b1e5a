//! Campaigns.
ghost use Rattle.std.specs.Prelude.{◌≡◌, ◌<◌, ◌≤◌, ◌+◌, ◌*◌, ℕ, length, sum_by};
ghost use Rattle.ft_isa.specs.declared.plan.Strike.{Strike as Fault};
ghost use Rattle.ft_campaign.specs.Snapshots.{IsCost};
ghost use Rattle.ft_types.specs.Spellable.{IsSpellable};
ghost use Rattle.ft_campaign.specs.Campaigns.{EndsAs, IsUncorrupted};
ghost use Rattle.ft_tolerance.specs.Soundness.{IsNeverDetected};

use crate::campaign_end::CampaignEnd;
use crate::judge::find_verdicts;
use crate::report::report;
use crate::totals::totals_of;
use ft_checker::Checked;
use ft_edge::Sink;
use ft_isa::{Steps, Strike, Wild};
use ft_types::Program;
use std::alloc::Global;
use std::sync::ledger::Ledger;

/// The maximum of the number of faults times the number of steps.
const PRODUCT_LIMIT: u64 = 1_000_000_000;

/// Runs a program without a fault and under each fault, each time for at most `n` steps and with the same answers to
/// wild loads. Writes a line for the verdict of each fault, in the list's order, and then a line of totals. `steps`
/// counts the machine's steps. Returns `TooMuch` exactly when the number of faults times `n` is above 1,000,000,000; if
/// it returns this or `NoMemory`, nothing was put. Returns `WriteFault` only if a put failed; nothing is put after
/// that.
pub fn survey<P: Program, K: Sink, L: Ledger>(
    alloc: Global,
    program: &P,
    faults: &[Strike],
    wild: &[Wild],
    n: u64,
    out: &mut K,
    steps: &mut Steps<L>,
) -> CampaignEnd
    requires spellable { IsSpellable (P.object program.now) }
    requires faults { length faults.now ≤ 65536 }
    requires n { n ≤ 1000000 }
    ensures ends { EndsAs result (P.object program.now) faults.now wild.now n (K.log out.old) (K.log out.new) }
    ensures too_much { 1000000000 < length faults.now * n → result ≡ CampaignEnd.TooMuch (length faults.now * n) }
    ensures steps { steps.new ≤ steps.old + (length faults.now + 1) * n }
    ensures cost { (cost : Fault → ℕ) → ((x : Fault) → IsCost (P.object program.now) wild.now n x (cost x)) → steps.new ≤ steps.old + (n + sum_by cost faults.now) }
{
    let product = faults.len() as u64 * n;
    if product > PRODUCT_LIMIT {
        return CampaignEnd::TooMuch { product };
    }
    let verdicts = match find_verdicts(alloc, program, faults, wild, n, steps) {
        Ok(verdicts) => verdicts,
        Err(_) => return CampaignEnd::NoMemory,
    };
    let totals = totals_of(verdicts.as_slice());
    match report(faults, verdicts.as_slice(), totals, out) {
        Ok(()) => CampaignEnd::Finished(totals),
        Err(_) => CampaignEnd::WriteFault,
    }
}

/// Like `survey`, but on an accepted program: no verdict is `Corrupt`, and the run without a fault is never detected.
pub fn campaign<'a, P: Program, K: Sink, L: Ledger>(
    alloc: Global,
    checked: &Checked<'a, P>,
    faults: &[Strike],
    wild: &[Wild],
    n: u64,
    out: &mut K,
    steps: &mut Steps<L>,
) -> CampaignEnd
    requires faults { length faults.now ≤ 65536 }
    requires n { n ≤ 1000000 }
    ensures ends { EndsAs result (P.object checked.now) faults.now wild.now n (K.log out.old) (K.log out.new) }
    ensures uncorrupted { IsUncorrupted result }
    ensures sound { IsNeverDetected (P.object checked.now) wild.now }
    ensures too_much { 1000000000 < length faults.now * n → result ≡ CampaignEnd.TooMuch (length faults.now * n) }
    ensures steps { steps.new ≤ steps.old + (length faults.now + 1) * n }
    ensures cost { (cost : Fault → ℕ) → ((x : Fault) → IsCost (P.object checked.now) wild.now n x (cost x)) → steps.new ≤ steps.old + (n + sum_by cost faults.now) }
{
    survey(alloc, checked.program(), faults, wild, n, out, steps)
}
