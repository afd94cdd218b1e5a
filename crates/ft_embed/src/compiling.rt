//! Compiles sources into the caller's buffer.
ghost use Rattle.std.specs.Prelude.{◌≡◌, ◌≢◌, IfOk, IfErr};
ghost use Rattle.ft_scope.specs.Outcome.{IsRefusalOf};
ghost use Rattle.ft_syntax.specs.declared.source_error.SourceError.TheVariants as errors;
ghost use Rattle.ft_embed.specs.Texts.{Given, IsCompiled, IsSourceRefused, told_source};
ghost use Rattle.ft_embed.specs.Verdicts.{nothing as nothing_told};

use crate::handing::{Written, hand_over, none_written, not_written};
use crate::refused::told_source;
use ft_compile::compile;
use ft_object::encode;
use ft_scope::one_text_has_one_outcome;
use ft_syntax::SourceError;
use std::alloc::Global;

/// Compiles a source to the bytes of an object. A text has at most one program, so all clauses of `compile` are about
/// the same one.
fn compile_bytes(alloc: Global, text: &[u8]) -> Result<Vec<u8>, SourceError>
    ensures ok { IfOk result (λ bytes. IsCompiled text.now bytes.items) }
    ensures err { IfErr result (λ e. e ≢ errors.NoMemory → IsRefusalOf text.now e) }
{
    one_text_has_one_outcome();
    let object = match compile(alloc, text) {
        Ok(object) => object,
        Err(error) => return Err(error),
    };
    match encode(alloc, &object) {
        Ok(bytes) => Ok(bytes),
        Err(_) => Err(SourceError::NoMemory),
    }
}

/// The result for a source that is refused, or if memory ran out.
fn refuse_source(error: SourceError) -> Written
    ensures told { result.status ≡ 6 → result.why ≡ told_source error }
    ensures named { result.status ≡ 6 → error ≢ errors.NoMemory }
    ensures status { result.status ≢ 6 → result.status ≡ 5 }
    ensures unmade { result.made ≡ 0 }
    ensures unrefused { result.status ≢ 6 → result.why ≡ nothing_told }
{
    if error == SourceError::NoMemory {
        return none_written(5);
    }
    not_written(6, told_source(error))
}

/// Compiles a source, and writes the bytes of its object in version 2 of the format. The status is 0 on success; 15 if
/// they do not fit, with the number needed in `made`; 6 for a source that is refused; or 5 if memory runs out.
pub fn compile_into(alloc: Global, text: &[u8], out: &mut [u8]) -> Written
    ensures given { result.status ≢ 5 → result.status ≢ 6 → Given (IsCompiled text.now) out.old out.new result.made result.status }
    ensures refused { result.status ≡ 6 → IsSourceRefused text.now result.why }
    ensures kept { result.status ≢ 0 → out.new ≡ out.old }
    ensures unmade { result.status ≢ 0 → result.status ≢ 15 → result.made ≡ 0 }
    ensures unrefused { result.status ≢ 6 → result.why ≡ nothing_told }
{
    match compile_bytes(alloc, text) {
        Ok(bytes) => hand_over(bytes.as_slice(), out),
        Err(error) => refuse_source(error),
    }
}
