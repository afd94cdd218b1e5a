//! Assembles and disassembles into the caller's buffer.
ghost use Rattle.std.specs.Prelude.{◌≡◌, ◌≢◌, ℕ, List};
ghost use Rattle.ft_asm.specs.Reads.{text_of};
ghost use Rattle.ft_asm.specs.Refusals.{IsAssembly, IsRefusal};
ghost use Rattle.ft_types.specs.Spellable.{IsSpellable};
ghost use Rattle.ft_embed.specs.Texts.{Given, IsAsmBroken, IsAsmRefused, IsMalformed, IsText};
ghost use Rattle.ft_embed.specs.Verdicts.{nothing as nothing_told};

use crate::handing::{Written, hand_over, none_written, not_written};
use crate::refused::{told_asm, told_error};
use ft_asm::{AsmError, assemble_bytes, disassemble};
use ft_types::Program;
use ft_view::View;
use std::alloc::Global;

/// The result for an assembly text that is refused, or if memory ran out.
#[tactic(auto, using(crate::proofs::Judged::asm_text, crate::proofs::Judged::asm_order, crate::proofs::Judged::asm_long, crate::proofs::Judged::asm_broken))]
fn refuse_text(error: AsmError) -> Written
    ensures refused { (text : List ℕ) → IsRefusal text error → result.status ≡ 12 → IsAsmRefused text result.why }
    ensures broken { (text : List ℕ) → IsRefusal text error → result.status ≡ 7 → IsAsmBroken text result.why }
    ensures status { result.status ≢ 12 → result.status ≢ 7 → result.status ≡ 5 }
    ensures unmade { result.made ≡ 0 }
    ensures unrefused { result.status ≢ 12 → result.status ≢ 7 → result.why ≡ nothing_told }
{
    match error {
        AsmError::Text { line } => not_written(12, told_asm(1, line as u64)),
        AsmError::Order { line } => not_written(12, told_asm(2, line as u64)),
        AsmError::TooLong => not_written(12, told_asm(3, 134_217_728)),
        AsmError::Object(error) => not_written(7, told_error(error)),
        AsmError::NoMemory => none_written(5),
    }
}

/// Assembles a text, and writes the bytes of its object in version 2 of the format. The status is 0 on success; 15 if
/// they do not fit; 12 for a text that is refused; 7 if the tables that the text describes break a rule of the format;
/// or 5 if memory runs out.
pub fn assemble_into(alloc: Global, text: &[u8], out: &mut [u8]) -> Written
    ensures given { result.status ≢ 5 → result.status ≢ 7 → result.status ≢ 12 → Given (IsAssembly text.now) out.old out.new result.made result.status }
    ensures refused { result.status ≡ 12 → IsAsmRefused text.now result.why }
    ensures broken { result.status ≡ 7 → IsAsmBroken text.now result.why }
    ensures kept { result.status ≢ 0 → out.new ≡ out.old }
    ensures unmade { result.status ≢ 0 → result.status ≢ 15 → result.made ≡ 0 }
    ensures unrefused { result.status ≢ 12 → result.status ≢ 7 → result.why ≡ nothing_told }
{
    match assemble_bytes(alloc, text) {
        Ok(bytes) => hand_over(bytes.as_slice(), out),
        Err(error) => refuse_text(error),
    }
}

/// Writes the assembly text of a program.
fn text_into<P: Program>(alloc: Global, program: &P, out: &mut [u8]) -> Written
    requires { IsSpellable (P.object program.now) }
    ensures given { result.status ≢ 5 → Given (λ text. text ≡ text_of (P.object program.now)) out.old out.new result.made result.status }
    ensures other { result.status ≢ 7 }
    ensures kept { result.status ≢ 0 → out.new ≡ out.old }
    ensures unmade { result.status ≢ 0 → result.status ≢ 15 → result.made ≡ 0 }
    ensures unrefused { result.why ≡ nothing_told }
{
    match disassemble(alloc, program) {
        Ok(text) => hand_over(text.as_slice(), out),
        Err(_) => none_written(5),
    }
}

/// Writes the assembly text of the object that bytes spell. The status is 0 on success; 15 if the text does not fit; 7
/// for bytes that spell no object; or 5 if memory runs out.
#[tactic(auto, using(crate::proofs::Judged::malformed))]
pub fn disassemble_into(alloc: Global, bytes: &[u8], out: &mut [u8]) -> Written
    ensures given { result.status ≢ 5 → result.status ≢ 7 → Given (IsText bytes.now) out.old out.new result.made result.status }
    ensures malformed { result.status ≡ 7 → IsMalformed bytes.now result.why }
    ensures kept { result.status ≢ 0 → out.new ≡ out.old }
    ensures unmade { result.status ≢ 0 → result.status ≢ 15 → result.made ≡ 0 }
    ensures unrefused { result.status ≢ 7 → result.why ≡ nothing_told }
{
    match View::over(bytes) {
        Ok(view) => text_into(alloc, &view, out),
        Err(error) => not_written(7, told_error(error)),
    }
}
