//! Why something is refused, as C sees it.
ghost use Rattle.std.specs.Prelude.{◌≡◌};
ghost use Rattle.ft_typing.specs.Accepted as accepted;
ghost use Rattle.ft_embed.specs.Verdicts.{nothing, told_error, told_refusal};
ghost use Rattle.ft_embed.specs.Texts.{told_asm, told_source};

use ft_object::ObjectError;
use ft_rules::Why;
use ft_syntax::SourceError;

/// Why something is refused: what it is about, the number of the rule, a place, and an index.
#[repr(C)]
#[derive(Clone, Copy)]
pub struct Refused {
    pub part: u32,
    pub number: u32,
    pub place: u64,
    pub index: u64,
}

/// Nothing is refused.
pub(crate) fn nothing() -> Refused
    ensures { result ≡ nothing }
{
    Refused {
        part: 0,
        number: 0,
        place: 0,
        index: 0,
    }
}

/// The refusal of bytes: the first rule that they break.
pub(crate) fn told_error(error: ObjectError) -> Refused
    ensures { result ≡ told_error error }
{
    Refused {
        part: 1,
        number: error.number(),
        place: error.place() as u64,
        index: 0,
    }
}

/// The refusal of an entry block in which no run may begin.
pub(crate) fn told_entry() -> Refused
    ensures { result ≡ told_refusal accepted.EntryType }
{
    Refused {
        part: 2,
        number: 0,
        place: 0,
        index: 0,
    }
}

/// The refusal of a cell whose initial word does not have its type.
pub(crate) fn told_cell(cell: u32) -> Refused
    ensures { result ≡ told_refusal (accepted.CellType cell) }
{
    Refused {
        part: 3,
        number: 0,
        place: cell as u64,
        index: 0,
    }
}

/// The refusal of an instruction whose typing rule does not apply.
pub(crate) fn told_instr(block: u32, index: u32, why: Why) -> Refused
    ensures { result ≡ told_refusal (accepted.Refused block index why) }
{
    Refused {
        part: 4,
        number: why.number(),
        place: block as u64,
        index: index as u64,
    }
}

/// The refusal of a source.
pub(crate) fn told_source(error: SourceError) -> Refused
    ensures { result ≡ told_source error }
{
    Refused {
        part: 5,
        number: error.number(),
        place: error.told(),
        index: 0,
    }
}

/// The refusal of an assembly text.
pub(crate) fn told_asm(number: u32, place: u64) -> Refused
    ensures { result ≡ told_asm number place }
{
    Refused {
        part: 6,
        number,
        place,
        index: 0,
    }
}
