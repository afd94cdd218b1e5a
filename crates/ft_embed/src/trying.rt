//! Tries faults on accepted objects, and puts the verdicts into the caller's array.
ghost use Rattle.std.specs.Prelude.{◌≡◌, ◌≢◌, ◌≤◌, ◌<◌, ◌⊎◌, ◌*◌, ℕ, List, length, IfOk};
ghost use Rattle.ft_isa.specs.declared.plan.Wild.{Wild as Answer};
ghost use Rattle.ft_types.specs.Spellable.{IsSpellable};
ghost use Rattle.ft_typing.specs.Accepted.{IsAccepted, refusal};
ghost use Rattle.ft_campaign.specs.FaultList.{IsFaultList, IsListError};
ghost use Rattle.ft_campaign.specs.Verdicts.{AreVerdicts};
ghost use Rattle.ft_embed.specs.Plans.{AreAnswers};
ghost use Rattle.ft_embed.specs.Trials.{IsListRefused, Tries, TriesFile, TriesList, WantsRoom, told_list, untried};
ghost use Rattle.ft_embed.specs.Verdicts.{IsAcceptedFile, Tells, judged, nothing as nothing_told, verdict_on};

use crate::checking::refuse;
use crate::plan_text::read_answers;
use crate::refused::{Refused, nothing, told_error};
use crate::trial::{FaultTotals, FaultVerdict, fault_totals, no_totals, put_verdicts};
use crate::verdict::Verdict;
use ft_campaign::{ListError, find_verdicts, read_faults, totals_of};
use ft_checker::check_uncounted;
use ft_isa::{NoMemory, Steps, Strike, Wild, WildError};
use ft_types::Program;
use ft_view::View;
use std::alloc::Global;
use std::marker::Brand;
use std::sync::ledger::{Blank, Ledger};

/// The maximum number of steps of each run.
const MOST_STEPS: u64 = 1_000_000;

/// The maximum product of the number of faults and the number of steps.
const PRODUCT_LIMIT: u64 = 1_000_000_000;

/// What is tried on an object: the text of a fault list, the answers to wild loads, and the maximum number of steps.
#[derive(Clone, Copy)]
pub(crate) struct Trial<'a> {
    pub(crate) list: &'a [u8],
    pub(crate) wild: &'a [Wild],
    pub(crate) steps: u64,
}

/// The result of a campaign.
#[derive(Clone, Copy)]
pub struct TrialAnswer {
    pub status: u32,
    pub totals: FaultTotals,
    pub why: Refused,
}

/// The result of a campaign that did not run. If its verdicts would not fit, `count` is the number of faults.
fn not_tried(status: u32, why: Refused, count: usize) -> TrialAnswer
    ensures status { result.status ≡ status }
    ensures why { result.why ≡ why }
    ensures totals { result.totals ≡ untried count }
{
    TrialAnswer {
        status,
        totals: no_totals(count),
        why,
    }
}

/// Why a list is refused.
fn told_list(number: u32, place: u64) -> Refused
    ensures { result ≡ told_list number place }
{
    Refused {
        part: 8,
        number,
        place,
        index: 0,
    }
}

/// The result for a text that is not a fault list, or if memory ran out.
fn refuse_list(error: ListError) -> TrialAnswer
    ensures told { (list : List ℕ) (steps : ℕ) → IsListError list error → result.status ≡ 11 → IsListRefused list steps result.why }
    ensures status { (result.status ≡ 5) ⊎ (result.status ≡ 11) }
    ensures unrefused { result.status ≢ 11 → result.why ≡ nothing_told }
    ensures untried { result.totals ≡ untried 0 }
{
    match error {
        ListError::Line { number } => not_tried(11, told_list(1, number as u64), 0),
        ListError::TooMany => not_tried(11, told_list(2, 65_536), 0),
        ListError::NoMemory => not_tried(5, nothing(), 0),
    }
}

/// Finds the verdicts of faults, with a step counter of its own.
fn find_counted<P: Program, L: Ledger>(
    alloc: Global,
    program: &P,
    faults: &[Strike],
    wild: &[Wild],
    steps: u64,
    blank: Blank,
) -> Result<Vec<ft_campaign::Verdict>, NoMemory>
    requires name { blank.name ≡ L.name }
    requires parts { blank.parts ≡ L.parts }
    requires some { 0 < L.parts }
    requires spellable { IsSpellable (P.object program.now) }
    requires steps { steps ≤ 1000000 }
    ensures { IfOk result (λ verdicts. AreVerdicts (P.object program.now) faults.now wild.now steps verdicts.items) }
{
    let mut counter = Steps::<L>::new(blank);
    find_verdicts(alloc, program, faults, wild, steps, &mut counter)
}

/// Tries faults on an accepted program.
fn try_faults<P: Program>(
    alloc: Global,
    program: &P,
    faults: &[Strike],
    trial: Trial,
    out: &mut [FaultVerdict],
) -> TrialAnswer
    requires spellable { IsSpellable (P.object program.now) }
    requires accepted { IsAccepted (P.object program.now) }
    requires steps { trial.steps ≤ 1000000 }
    requires few { length faults.now ≤ 65536 }
    requires room { length faults.now ≤ length out.old }
    ensures tries { result.status ≡ 0 → Tries (P.object program.now) faults.now trial.entry.wild.now trial.entry.steps result.totals out.new }
    ensures status { (result.status ≡ 0) ⊎ (result.status ≡ 5) }
    ensures kept { result.status ≢ 0 → out.new ≡ out.old }
    ensures unrefused { result.why ≡ nothing_told }
    ensures untried { result.status ≢ 0 → result.totals ≡ untried 0 }
{
    let found = find_counted::<P, Brand>(
        alloc,
        program,
        faults,
        trial.wild,
        trial.steps,
        Blank::new(1),
    );
    let Ok(verdicts) = found else {
        return not_tried(5, nothing(), 0);
    };
    let totals = totals_of(verdicts.as_slice());
    put_verdicts(verdicts.as_slice(), out);
    TrialAnswer {
        status: 0,
        totals: fault_totals(faults.len(), totals),
        why: nothing(),
    }
}

/// Reads a fault list, and tries it on an accepted program.
fn try_list<P: Program>(
    alloc: Global,
    program: &P,
    trial: Trial,
    out: &mut [FaultVerdict],
) -> TrialAnswer
    requires spellable { IsSpellable (P.object program.now) }
    requires accepted { IsAccepted (P.object program.now) }
    requires steps { trial.steps ≤ 1000000 }
    ensures tries { result.status ≡ 0 → TriesList (P.object program.now) trial.entry.list.now trial.entry.wild.now trial.entry.steps result.totals out.new }
    ensures wants { result.status ≡ 15 → WantsRoom trial.entry.list.now result.totals out.old out.new }
    ensures bad_list { result.status ≡ 11 → IsListRefused trial.entry.list.now trial.entry.steps result.why }
    ensures kept { result.status ≢ 0 → out.new ≡ out.old }
    ensures status { result.status ≢ 5 → result.status ≢ 11 → result.status ≢ 15 → result.status ≡ 0 }
    ensures other { (result.status ≢ 2) × (result.status ≢ 7) × (result.status ≢ 8) }
    ensures unrefused { result.status ≢ 11 → result.why ≡ nothing_told }
    ensures untried { result.status ≢ 0 → result.status ≢ 15 → result.totals ≡ untried 0 }
{
    let faults = match read_faults(alloc, trial.list) {
        Ok(faults) => faults,
        Err(error) => return refuse_list(error),
    };
    let count = faults.len();
    let product = count as u64 * trial.steps;
    if product > PRODUCT_LIMIT {
        return not_tried(11, told_list(3, product), 0);
    }
    if count > out.len() {
        return not_tried(15, nothing(), count);
    }
    try_faults(alloc, program, faults.as_slice(), trial, out)
}

/// Checks a program, and tries a fault list on it.
fn try_program<P: Program>(
    alloc: Global,
    program: &P,
    trial: Trial,
    out: &mut [FaultVerdict],
) -> TrialAnswer
    requires spellable { IsSpellable (P.object program.now) }
    requires steps { trial.steps ≤ 1000000 }
    ensures tries { result.status ≡ 0 → TriesList (P.object program.now) trial.entry.list.now trial.entry.wild.now trial.entry.steps result.totals out.new }
    ensures accepted { (result.status ≡ 0) ⊎ (result.status ≡ 11) ⊎ (result.status ≡ 15) → IsAccepted (P.object program.now) }
    ensures wants { result.status ≡ 15 → WantsRoom trial.entry.list.now result.totals out.old out.new }
    ensures bad_list { result.status ≡ 11 → IsListRefused trial.entry.list.now trial.entry.steps result.why }
    ensures refused { result.status ≡ 8 → Tells result.status result.why (judged (refusal (P.object program.now))) }
    ensures status { result.status ≢ 5 → result.status ≢ 8 → result.status ≢ 11 → result.status ≢ 15 → result.status ≡ 0 }
    ensures other { (result.status ≢ 2) × (result.status ≢ 7) }
    ensures kept { result.status ≢ 0 → out.new ≡ out.old }
    ensures unrefused { result.status ≢ 8 → result.status ≢ 11 → result.why ≡ nothing_told }
    ensures untried { result.status ≢ 0 → result.status ≢ 15 → result.totals ≡ untried 0 }
{
    match check_uncounted(alloc, program) {
        Ok(_) => try_list(alloc, program, trial, out),
        Err(error) => {
            let verdict = refuse(error);
            not_tried(verdict.status, verdict.why, 0)
        }
    }
}

/// Checks the object that bytes spell, and tries a fault list on it.
fn try_bytes(alloc: Global, bytes: &[u8], trial: Trial, out: &mut [FaultVerdict]) -> TrialAnswer
    requires { trial.steps ≤ 1000000 }
    ensures tries { result.status ≡ 0 → (wild : List ℕ) → AreAnswers wild trial.entry.wild.now → TriesFile bytes.now trial.entry.list.now wild trial.entry.steps result.totals out.new }
    ensures accepted { (result.status ≡ 11) ⊎ (result.status ≡ 15) → IsAcceptedFile bytes.now }
    ensures wants { result.status ≡ 15 → WantsRoom trial.entry.list.now result.totals out.old out.new }
    ensures bad_list { result.status ≡ 11 → IsListRefused trial.entry.list.now trial.entry.steps result.why }
    ensures malformed { result.status ≡ 7 → Tells result.status result.why (verdict_on bytes.now) }
    ensures refused { result.status ≡ 8 → Tells result.status result.why (verdict_on bytes.now) }
    ensures status { result.status ≢ 5 → result.status ≢ 7 → result.status ≢ 8 → result.status ≢ 11 → result.status ≢ 15 → result.status ≡ 0 }
    ensures planned { result.status ≢ 2 }
    ensures kept { result.status ≢ 0 → out.new ≡ out.old }
    ensures unrefused { result.status ≢ 7 → result.status ≢ 8 → result.status ≢ 11 → result.why ≡ nothing_told }
    ensures untried { result.status ≢ 0 → result.status ≢ 15 → result.totals ≡ untried 0 }
{
    match View::over(bytes) {
        Ok(view) => try_program(alloc, &view, trial, out),
        Err(error) => not_tried(7, told_error(error), 0),
    }
}

/// Checks the object that bytes spell, and runs it without a fault and under each fault of a list, each time for at
/// most `steps` steps and with the answers to wild loads that a text spells. `steps` may be at most 1,000,000. The list
/// is a text of lines such as `4:r1:6`. The verdicts go into the array, in the list's order. The status is 0 on
/// success; 15 if they do not fit; 11 for a list that is refused; 2 for a text that spells no answers, or for too many
/// steps; 7 or 8 for bytes that are refused; or 5 if memory runs out.
pub fn campaign(
    alloc: Global,
    bytes: &[u8],
    list: &[u8],
    wild: &[u8],
    steps: u64,
    out: &mut [FaultVerdict],
) -> TrialAnswer
    ensures tries { result.status ≡ 0 → TriesFile bytes.now list.now wild.now steps result.totals out.new }
    ensures accepted { (result.status ≡ 11) ⊎ (result.status ≡ 15) → IsAcceptedFile bytes.now }
    ensures wants { result.status ≡ 15 → WantsRoom list.now result.totals out.old out.new }
    ensures bad_list { result.status ≡ 11 → IsListRefused list.now steps result.why }
    ensures malformed { result.status ≡ 7 → Tells result.status result.why (verdict_on bytes.now) }
    ensures refused { result.status ≡ 8 → Tells result.status result.why (verdict_on bytes.now) }
    ensures no_plan { result.status ≡ 2 → (answers : List Answer) → AreAnswers wild.now answers → steps ≤ 1000000 → ⊥ }
    ensures status { result.status ≢ 2 → result.status ≢ 5 → result.status ≢ 7 → result.status ≢ 8 → result.status ≢ 11 → result.status ≢ 15 → result.status ≡ 0 }
    ensures kept { result.status ≢ 0 → out.new ≡ out.old }
    ensures unrefused { result.status ≢ 7 → result.status ≢ 8 → result.status ≢ 11 → result.why ≡ nothing_told }
    ensures untried { result.status ≢ 0 → result.status ≢ 15 → result.totals ≡ untried 0 }
{
    if steps > MOST_STEPS {
        return not_tried(2, nothing(), 0);
    }
    match read_answers(alloc, wild) {
        Ok(answers) => {
            let trial = Trial {
                list,
                wild: answers.as_slice(),
                steps,
            };
            try_bytes(alloc, bytes, trial, out)
        }
        Err(WildError::Form { at: _ }) => not_tried(2, nothing(), 0),
        Err(WildError::NoMemory) => not_tried(5, nothing(), 0),
    }
}
