//! Tries faults on an object.
ghost use Rattle.std.specs.Prelude.{◌≡◌, ◌≢◌, ◌≤◌, ◌⊎◌, List};
ghost use Rattle.ft_isa.specs.declared.plan.Wild.{Wild as Answer};
ghost use Rattle.ft_embed.specs.Plans.{AreAnswers};
ghost use Rattle.ft_embed.specs.Trials.{IsListRefused, TriesFile, WantsRoom, untried};
ghost use Rattle.ft_embed.specs.Verdicts.{IsAcceptedFile, Tells, nothing, verdict_on};

use ft_embed::{FaultTotals, FaultVerdict, Refused, campaign};
use std::alloc::Global;

/// Checks the object that bytes spell, and runs it without a fault and under each fault of a list, each time for at
/// most `steps` steps and with the answers to wild loads that a text spells. `steps` may be at most 1,000,000. The list
/// is a text of lines such as `4:r1:6`. The verdicts go into the array, in the list's order. Returns 0 on success; 15
/// if they do not fit; 11 for a list that is refused; 2 for a text that spells no answers, or for too many steps; 7 or
/// 8 for bytes that are refused; or 5 if memory runs out.
#[unsafe(no_mangle)]
pub extern "C" fn talft_campaign(
    alloc: Global,
    bytes: &[u8],
    list: &[u8],
    wild: &[u8],
    steps: u64,
    out: &mut [FaultVerdict],
    totals: &mut FaultTotals,
    why: &mut Refused,
) -> u32
    ensures tries { result ≡ 0 → TriesFile bytes.now list.now wild.now steps totals.new out.new }
    ensures accepted { (result ≡ 11) ⊎ (result ≡ 15) → IsAcceptedFile bytes.now }
    ensures wants { result ≡ 15 → WantsRoom list.now totals.new out.old out.new }
    ensures bad_list { result ≡ 11 → IsListRefused list.now steps why.new }
    ensures malformed { result ≡ 7 → Tells result why.new (verdict_on bytes.now) }
    ensures refused { result ≡ 8 → Tells result why.new (verdict_on bytes.now) }
    ensures no_plan { result ≡ 2 → (answers : List Answer) → AreAnswers wild.now answers → steps ≤ 1000000 → ⊥ }
    ensures status { result ≢ 2 → result ≢ 5 → result ≢ 7 → result ≢ 8 → result ≢ 11 → result ≢ 15 → result ≡ 0 }
    ensures kept { result ≢ 0 → out.new ≡ out.old }
    ensures unrefused { result ≢ 7 → result ≢ 8 → result ≢ 11 → why.new ≡ nothing }
    ensures untried { result ≢ 0 → result ≢ 15 → totals.new ≡ untried 0 }
{
    let answer = campaign(alloc, bytes, list, wild, steps, out);
    *totals = answer.totals;
    *why = answer.why;
    answer.status
}
