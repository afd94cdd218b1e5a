//! Compiles a text to an object.
ghost use Rattle.std.specs.Prelude.{◌≡◌, ◌≢◌, IfOk, IfErr};
ghost use Rattle.ft_syntax.specs.declared.source_error.SourceError.TheVariants as errors;
ghost use Rattle.ft_scope.specs.Outcome.{IsProgramOf, IsRefusalOf};
ghost use Rattle.ft_scope.specs.ProgramOf.{program_of};
ghost use Rattle.ft_scope.specs.Resolved.{Program};
ghost use Rattle.ft_compile.specs.Cells.{AreCells};
ghost use Rattle.ft_compile.specs.Emitted.{compiled_object, IsEmitted};
ghost use Rattle.ft_compile.specs.StandsFor.{StandsFor};
ghost use Rattle.ft_modules.specs.Linkable.{IsModule};

use crate::emission::emit;
use ft_dup::duplicate;
use ft_isa::NoMemory;
use ft_lower::lower;
use ft_scope::{Prog, resolve};
use ft_syntax::{SourceError, parse};
use ft_types::Object;
use std::alloc::Global;

/// The object that stands for a program.
fn compile_program(alloc: Global, prog: &Prog<'_>) -> Result<Object, NoMemory>
    requires { AreCells (program_of prog.now).names (program_of prog.now).inits }
    ensures stands { IfOk result (λ o. StandsFor (program_of prog.now) o) }
    ensures emitted { IfOk result (IsEmitted (program_of prog.now)) }
    ensures object { IfOk result (λ o. o ≡ compiled_object (program_of prog.now)) }
    ensures joins { IfOk result (λ o. IsModule o.cells o) }
{
    let flow = lower(alloc, prog)?;
    let code = duplicate(alloc, &flow)?;
    let object = emit(alloc, prog, &flow, code)?;
    Ok(object)
}

/// Compiles a source to the object of its program, which depends on the text alone and stands for the program. It has
/// the program's cells, of type `int`, with their names and initial words; it is spellable and accepted, and has at
/// most as many instructions as the program weighs. Without a fault, and with any initial words in its cells, its run
/// is never detected, and its outputs are a prefix of the outputs of the meaning of the program with these words; if
/// that meaning ends, the run ends with the same outputs. It is the object of a well-formed flow of this program: one
/// whose run over any initial words commits the outputs of the meaning of the program with these words and ends when
/// that meaning ends, with no more instructions than the program weighs and no pair at or above the program's need. The
/// entry has code type 0; all other blocks have code type 1, with a row for each variable in both colours. The object
/// is also a module: the linker refuses neither its cells and rows nor its code addresses.
///
/// For a text that is not a program, the error is the first that applies, in the order that `parse` and `resolve`
/// state. If memory runs out, `NoMemory` is returned instead of any other result.
pub fn compile(alloc: Global, text: &[u8]) -> Result<Object, SourceError>
    ensures ok { IfOk result (λ o. (p : Program) × IsProgramOf text.now p × StandsFor p o) }
    ensures emitted { IfOk result (λ o. (p : Program) × IsProgramOf text.now p × IsEmitted p o) }
    ensures object { IfOk result (λ o. (p : Program) × IsProgramOf text.now p × (o ≡ compiled_object p)) }
    ensures joins { IfOk result (λ o. IsModule o.cells o) }
    ensures err { IfErr result (λ e. e ≢ errors.NoMemory → IsRefusalOf text.now e) }
{
    let tree = match parse(alloc, text) {
        Ok(tree) => tree,
        Err(error) => return Err(error),
    };
    let program = match resolve(alloc, tree) {
        Ok(program) => program,
        Err(error) => return Err(error),
    };
    match compile_program(alloc, &program) {
        Ok(object) => Ok(object),
        Err(NoMemory) => Err(SourceError::NoMemory),
    }
}
