//! Checks the bytes of an object.
ghost use Rattle.std.specs.Prelude.{◌≡◌, ◌≢◌, ◌⊎◌, ◌<◌, IfOk, Option};
ghost use Rattle.ft_typing.specs.Accepted.{Refusal, refusal};
ghost use Rattle.ft_types.specs.Spellable.{IsSpellable};
ghost use Rattle.ft_checker.specs.Judges.{Judges, IsRefusalOf};
ghost use Rattle.ft_embed.specs.Verdicts.{IsAcceptedFile, Tells, judged, nothing as nothing_told, verdict_on};

use crate::refused::{told_cell, told_entry, told_error, told_instr};
use crate::verdict::{Verdict, unrefused};
use ft_checker::{CheckError, check_uncounted};
use ft_types::Program;
use ft_view::View;
use std::alloc::Global;

/// The verdict on an object that is not accepted, or if memory ran out.
#[tactic(auto, using(crate::proofs::Judged::tells_refused))]
pub(crate) fn refuse(error: CheckError) -> Verdict
    ensures told { (x : Option Refusal) → IsRefusalOf x error → result.status ≢ 5 → Tells result.status result.why (judged x) }
    ensures status { (result.status ≡ 5) ⊎ (result.status ≡ 8) }
    ensures unrefused { result.status ≢ 8 → result.why ≡ nothing_told }
{
    match error {
        CheckError::EntryType => Verdict {
            status: 8,
            why: told_entry(),
        },
        CheckError::CellType { cell } => Verdict {
            status: 8,
            why: told_cell(cell),
        },
        CheckError::Refused {
            block,
            index,
            why: premise,
        } => Verdict {
            status: 8,
            why: told_instr(block, index, premise),
        },
        CheckError::NoMemory => unrefused(5),
    }
}

/// Checks a program.
fn judge_program<P: Program>(alloc: Global, program: &P) -> Verdict
    requires { IsSpellable (P.object program.now) }
    ensures told { result.status ≢ 5 → Tells result.status result.why (judged (refusal (P.object program.now))) }
    ensures unrefused { result.status ≢ 8 → result.why ≡ nothing_told }
{
    match check_uncounted(alloc, program) {
        Ok(_) => unrefused(0),
        Err(error) => refuse(error),
    }
}

/// Checks the object that bytes spell. The status is 0 for an accepted object; 7 for bytes that spell no object, with
/// the first rule that they break; 8 for an object that is not accepted, with its refusal; or 5 if memory runs out.
pub fn judge(alloc: Global, bytes: &[u8]) -> Verdict
    ensures verdict { result.status ≢ 5 → Tells result.status result.why (verdict_on bytes.now) }
    ensures accepted { result.status ≡ 0 → IsAcceptedFile bytes.now }
    ensures unrefused { result.status ≢ 7 → result.status ≢ 8 → result.why ≡ nothing_told }
{
    match View::over(bytes) {
        Ok(view) => judge_program(alloc, &view),
        Err(error) => Verdict {
            status: 7,
            why: told_error(error),
        },
    }
}
