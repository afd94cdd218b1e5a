//! Writes upgraded objects, schedules and the names of cells into the caller's buffer.
ghost use Rattle.std.specs.Prelude.{◌≡◌, ◌≢◌, ◌≤◌, ℕ, List, length, IfOk, IfErr};
ghost use Rattle.ft_types.specs.Spellable.{IsSpellable};
ghost use Rattle.ft_typing.specs.Accepted.{IsAccepted, refusal};
ghost use Rattle.ft_format.specs.Broken.{broken, object_of};
ghost use Rattle.ft_embed.specs.Cells.{HasNoCell};
ghost use Rattle.ft_embed.specs.Texts.{Given, IsCellName, IsMalformed, IsNameOf, IsScheduleOf, IsScheduleOfFile, IsUpgraded, IsWhy};
ghost use Rattle.ft_embed.specs.Verdicts.{Tells, judged, nothing as nothing_told, verdict_on};

use crate::checking::refuse;
use crate::handing::{Written, hand_over, none_accepted, none_written, not_written};
use crate::refused::told_error;
use ft_checker::{Checked, check_uncounted};
use ft_isa::NoMemory;
use ft_object::{DecodeError, decode, encode};
use ft_sched::schedule;
use ft_types::Program;
use ft_view::View;
use std::alloc::Global;

/// The object that these bytes spell, as bytes of version 2.
fn upgrade_bytes(alloc: Global, bytes: &[u8]) -> Result<Vec<u8>, DecodeError>
    ensures ok { IfOk result (λ new. IsUpgraded bytes.now new.items) }
    ensures err { IfErr result (IsWhy (broken bytes.now)) }
{
    let object = match decode(alloc, bytes) {
        Ok(object) => object,
        Err(error) => return Err(error),
    };
    match encode(alloc, &object) {
        Ok(new) => Ok(new),
        Err(_) => Err(DecodeError::NoMemory),
    }
}

/// The result for bytes that spell no object, or if memory ran out.
#[tactic(auto, using(crate::proofs::Judged::malformed))]
fn refuse_bytes(error: DecodeError) -> Written
    ensures told { (bytes : List ℕ) → IsWhy (broken bytes) error → result.status ≡ 7 → IsMalformed bytes result.why }
    ensures status { result.status ≢ 7 → result.status ≡ 5 }
    ensures unmade { result.made ≡ 0 }
    ensures unrefused { result.status ≢ 7 → result.why ≡ nothing_told }
{
    match error {
        DecodeError::Object(error) => not_written(7, told_error(error)),
        DecodeError::NoMemory => none_written(5),
    }
}

/// Writes the object that bytes spell, in version 2 of the format. The status is 0 on success; 15 if the object does
/// not fit; 7 for bytes that spell no object; or 5 if memory runs out.
pub fn upgrade_into(alloc: Global, bytes: &[u8], out: &mut [u8]) -> Written
    ensures given { result.status ≢ 5 → result.status ≢ 7 → Given (IsUpgraded bytes.now) out.old out.new result.made result.status }
    ensures malformed { result.status ≡ 7 → IsMalformed bytes.now result.why }
    ensures kept { result.status ≢ 0 → out.new ≡ out.old }
    ensures unmade { result.status ≢ 0 → result.status ≢ 15 → result.made ≡ 0 }
    ensures unrefused { result.status ≢ 7 → result.why ≡ nothing_told }
{
    match upgrade_bytes(alloc, bytes) {
        Ok(new) => hand_over(new.as_slice(), out),
        Err(error) => refuse_bytes(error),
    }
}

/// Writes the name of a cell of the object that bytes spell. The status is 0 on success; 15 if the name does not fit; 7
/// for bytes that spell no object; or 16 if there is no such cell.
#[tactic(auto, using(crate::proofs::Judged::malformed, ft_types::proofs::Counted::spellable_counted))]
pub fn name_into(bytes: &[u8], cell: u32, out: &mut [u8]) -> Written
    ensures given { result.status ≢ 7 → result.status ≢ 16 → Given (IsNameOf bytes.now cell) out.old out.new result.made result.status }
    ensures malformed { result.status ≡ 7 → IsMalformed bytes.now result.why }
    ensures none { result.status ≡ 16 → HasNoCell bytes.now cell }
    ensures kept { result.status ≢ 0 → out.new ≡ out.old }
    ensures unmade { result.status ≢ 0 → result.status ≢ 15 → result.made ≡ 0 }
    ensures unrefused { result.status ≢ 7 → result.why ≡ nothing_told }
{
    match View::over(bytes) {
        Ok(view) => cell_name_into(&view, cell, out),
        Err(error) => not_written(7, told_error(error)),
    }
}

/// Writes the name of a cell.
#[tactic(auto, using(ft_types::proofs::Counted::spellable_counted))]
fn cell_name_into(view: &View, cell: u32, out: &mut [u8]) -> Written
    requires { IsSpellable (object_of view.now) }
    ensures given { result.status ≢ 16 → Given (IsCellName (object_of view.now) cell) out.old out.new result.made result.status }
    ensures none { result.status ≡ 16 → length (object_of view.now).cells ≤ cell }
    ensures other { result.status ≢ 7 }
    ensures kept { result.status ≢ 0 → out.new ≡ out.old }
    ensures unmade { result.status ≢ 0 → result.status ≢ 15 → result.made ≡ 0 }
    ensures unrefused { result.why ≡ nothing_told }
{
    if cell >= view.counts().cells {
        return none_written(16);
    }
    hand_over(view.name_of(cell), out)
}

/// The bytes of the schedule of a checked program.
fn schedule_bytes<'a, P: Program>(
    alloc: Global,
    checked: &Checked<'a, P>,
) -> Result<Vec<u8>, NoMemory>
    ensures { IfOk result (λ new. IsScheduleOf (P.object checked.now) new.items) }
{
    let object = schedule(alloc, checked)?;
    encode(alloc, &object)
}

/// Writes the schedule of a program, if it is accepted.
fn schedule_program<P: Program>(alloc: Global, program: &P, out: &mut [u8]) -> Written
    requires { IsSpellable (P.object program.now) }
    ensures given { result.status ≢ 5 → result.status ≢ 8 → Given (IsScheduleOf (P.object program.now)) out.old out.new result.made result.status }
    ensures refused { result.status ≡ 8 → Tells result.status result.why (judged (refusal (P.object program.now))) }
    ensures other { result.status ≢ 7 }
    ensures kept { result.status ≢ 0 → out.new ≡ out.old }
    ensures unmade { result.status ≢ 0 → result.status ≢ 15 → result.made ≡ 0 }
    ensures accepted { result.status ≢ 5 → result.status ≢ 8 → IsAccepted (P.object program.now) }
    ensures unrefused { result.status ≢ 8 → result.why ≡ nothing_told }
{
    let checked = match check_uncounted(alloc, program) {
        Ok(checked) => checked,
        Err(error) => return none_accepted(refuse(error)),
    };
    match schedule_bytes(alloc, &checked) {
        Ok(new) => hand_over(new.as_slice(), out),
        Err(_) => none_written(5),
    }
}

/// Writes the schedule of the object that bytes spell, in version 2 of the format. The status is 0 on success; 15 if
/// the schedule does not fit; 7 for bytes that spell no object; 8 for an object that is not accepted; or 5 if memory
/// runs out.
pub fn schedule_into(alloc: Global, bytes: &[u8], out: &mut [u8]) -> Written
    ensures given { result.status ≢ 5 → result.status ≢ 7 → result.status ≢ 8 → Given (IsScheduleOfFile bytes.now) out.old out.new result.made result.status }
    ensures malformed { result.status ≡ 7 → Tells result.status result.why (verdict_on bytes.now) }
    ensures refused { result.status ≡ 8 → Tells result.status result.why (verdict_on bytes.now) }
    ensures kept { result.status ≢ 0 → out.new ≡ out.old }
    ensures unmade { result.status ≢ 0 → result.status ≢ 15 → result.made ≡ 0 }
    ensures unrefused { result.status ≢ 7 → result.status ≢ 8 → result.why ≡ nothing_told }
{
    match View::over(bytes) {
        Ok(view) => schedule_program(alloc, &view, out),
        Err(error) => not_written(7, told_error(error)),
    }
}
