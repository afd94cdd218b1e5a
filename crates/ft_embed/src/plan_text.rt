//! Reads the texts of a run's plan: its fault, and the answers to wild loads. An empty text means none.
ghost use Rattle.std.specs.Prelude.{◌≡◌, ◌≢◌, IfOk, IfErr, List, OnErr, Option};
ghost use Rattle.ft_isa.specs.declared.plan.Strike.{Strike as Fault};
ghost use Rattle.ft_isa.specs.declared.plan.Wild.{Wild as Answer};
ghost use Rattle.ft_isa.specs.declared.wild_text.WildError.TheVariants as errors;
ghost use Rattle.ft_embed.specs.Plans.{IsFault, AreAnswers};

use ft_isa::{Form, Strike, Wild, WildError, read_strike, read_wild};
use std::alloc::Global;

/// Reads the text of a fault.
#[tactic(auto, using(crate::proofs::PlanTexts::empty_fault))]
pub(crate) fn read_fault(text: &[u8]) -> Result<Option<Strike>, Form>
    ensures ok { IfOk result (λ strike. IsFault text.now strike) }
    ensures none { OnErr result ((strike : Option Fault) → IsFault text.now strike → ⊥) }
{
    if text.len() == 0 {
        return Ok(None);
    }
    match read_strike(text) {
        Ok(strike) => Ok(Some(strike)),
        Err(form) => Err(form),
    }
}

/// Reads the text of answers to wild loads.
#[tactic(auto, using(crate::proofs::PlanTexts::empty_answers))]
pub(crate) fn read_answers(alloc: Global, text: &[u8]) -> Result<Vec<Wild>, WildError>
    ensures ok { IfOk result (λ answers. AreAnswers text.now answers.items) }
    ensures none { IfErr result (λ e. e ≢ errors.NoMemory → (answers : List Answer) → AreAnswers text.now answers → ⊥) }
{
    if text.len() == 0 {
        return Ok(Vec::new(alloc));
    }
    match read_wild(alloc, text) {
        Ok(answers) => Ok(answers),
        Err(error) => Err(error),
    }
}
