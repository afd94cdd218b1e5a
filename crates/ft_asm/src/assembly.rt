//! Reads texts as objects.
ghost use Rattle.std.specs.Prelude.{◌≡◌, ◌≤◌, length, IfOk, IfErr};
ghost use Rattle.ft_types.specs.Spellable.{IsSpellable};
ghost use Rattle.ft_format.specs.declared.version.Version.TheVariants.{Second};
ghost use Rattle.ft_format.specs.Rows.{spelling};
ghost use Rattle.ft_asm.specs.Reads.{Reads, Answer, Is, Applies};
ghost use Rattle.ft_asm.specs.Refusals.{IsRefusal, Gives, GivesBytes, IsAssembly};
ghost use Rattle.ft_asm.specs.Drafts as drafts;
ghost use Rattle.ft_asm.specs.Held.{Holds};
ghost use Rattle.ft_asm.specs.Turns.{Turns};

use crate::asm_error::AsmError;
use crate::draft::Draft;
use crate::forms::{Said, read_form};
use ft_isa::NoMemory;
use ft_object::spell;
use ft_text::read_line;
use ft_types::Object;
use ft_view::View;
use std::alloc::Global;

/// The maximum size of a text in bytes.
const LIMIT: usize = 134_217_728;

/// How a line relates to the lines so far.
enum Turn {
    /// It continues them.
    On,
    /// It has none of the forms.
    Bad,
    /// It is not allowed here.
    Stuck,
}

/// Adds a line to the draft.
fn take_line(draft: &mut Draft, alloc: Global, line: &[u8]) -> Result<Turn, NoMemory>
    ensures { (d : drafts.Draft) → Holds draft.old d → IfOk result (λ turn. Turns turn draft.new d line.now) }
{
    match read_form(alloc, line)? {
        Said::Nothing => Ok(Turn::On),
        Said::Bad => Ok(Turn::Bad),
        Said::Line(said) => {
            if draft.add(alloc, said)? {
                Ok(Turn::On)
            } else {
                Ok(Turn::Stuck)
            }
        }
    }
}

/// The object whose tables a text denotes, whether or not they obey the rules of the format.
fn read_tables(alloc: Global, text: &[u8]) -> Result<Object, AsmError>
    ensures few { IfOk result (λ object. length text.now ≤ 134217728) }
    ensures reads { IfOk result (Reads text.now) }
    ensures refused { IfErr result (IsRefusal text.now) }
{
    if text.len() > LIMIT {
        return Err(AsmError::TooLong);
    }
    let mut draft = Draft::new(alloc);
    let mut rest = text;
    let mut number: u32 = 1;
    while let Some((line, after)) = read_line(rest) {
        let Ok(turn) = take_line(&mut draft, alloc, line) else {
            return Err(AsmError::NoMemory);
        };
        match turn {
            Turn::On => {}
            Turn::Bad => return Err(AsmError::Text { line: number }),
            Turn::Stuck => return Err(AsmError::Order { line: number }),
        }
        rest = after;
        number += 1;
    }
    match draft.finish() {
        Some(object) => Ok(object),
        None => Err(AsmError::Order { line: number }),
    }
}

/// An object and its spelling, in version 2 of the format.
#[derive(Drop)]
struct Assembled {
    object: Object,
    bytes: Vec<u8>,
}

/// The object that a text reads as, with its spelling, or why `assemble` refuses the text.
fn assemble_whole(alloc: Global, text: &[u8]) -> Result<Assembled, AsmError>
    ensures reads { IfOk result (λ whole. Applies text.now (Is whole.object)) }
    ensures lawful { IfOk result (λ whole. IsSpellable whole.object) }
    ensures spelled { IfOk result (λ whole. whole.bytes.items ≡ spelling Second whole.object) }
    ensures refused { IfErr result (IsRefusal text.now) }
{
    let object = read_tables(alloc, text)?;
    let Ok(bytes) = spell(alloc, &object) else {
        return Err(AsmError::NoMemory);
    };
    match View::over(bytes.as_slice()) {
        Ok(_) => Ok(Assembled { object, bytes }),
        Err(error) => Err(AsmError::Object(error)),
    }
}

/// Returns the object that a text reads as, or why the text is refused: its length, the first line at fault or missing,
/// or the first rule of the format that the spelling of its tables breaks, and where. It also fails if memory runs out.
/// It makes one pass over the text, and its memory use grows with the text's tables.
pub fn assemble(alloc: Global, text: &[u8]) -> Result<Object, AsmError>
    // The result is the object that the text reads as, and it obeys the rules.
    ensures reads { IfOk result (λ object. Applies text.now (Is object)) }
    ensures lawful { IfOk result IsSpellable }
    // A refusal is returned only if it applies to the text.
    ensures refused { IfErr result (IsRefusal text.now) }
    // The outcome of the text is returned, unless memory runs out.
    ensures exact { (answer : Answer) → Applies text.now answer → Gives result answer }
{
    match assemble_whole(alloc, text) {
        Ok(whole) => Ok(whole.object),
        Err(error) => Err(error),
    }
}

/// Returns the bytes, in version 2 of the format, of the object that a text reads as, or why `assemble` refuses the
/// text. The object is spelled only once: the bytes that are judged are the bytes returned.
pub fn assemble_bytes(alloc: Global, text: &[u8]) -> Result<Vec<u8>, AsmError>
    // The result is the spelling of the object that the text reads as.
    ensures reads { IfOk result (λ bytes. IsAssembly text.now bytes.items) }
    // A refusal is returned only if it applies to the text.
    ensures refused { IfErr result (IsRefusal text.now) }
    // The outcome of the text is returned, unless memory runs out.
    ensures exact { (answer : Answer) → Applies text.now answer → GivesBytes result answer }
{
    match assemble_whole(alloc, text) {
        Ok(whole) => Ok(whole.bytes),
        Err(error) => Err(error),
    }
}
