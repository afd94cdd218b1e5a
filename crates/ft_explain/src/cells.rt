//! Says in which cell two modules of a link differ.
ghost use Rattle.ft_types.specs.Spellable.{IsSpellable};

use ft_edge::Shelf;
use ft_isa::NoMemory;
use ft_mistakes::{OBJECT_LIMIT, Page, load};
use ft_types::{CellHead, Program};
use ft_view::View;

/// What to do about modules with different cells.
const ALIKE: &str =
    ": declare the same cells, in the same order and with the same initial words, in each module\n";

/// The type and the initial word of cell `k`; `None` if there is no such cell.
#[tactic(auto, using(ft_types::proofs::Counted::spellable_counted))]
pub(crate) fn cell_at<P: Program>(program: &P, k: u32) -> Option<CellHead>
    requires { IsSpellable (P.object program.now) }
{
    if k >= program.counts().cells {
        return None;
    }
    Some(program.cell(k))
}

/// The name of cell `k`; empty if there is no such cell.
#[tactic(auto, using(ft_types::proofs::Counted::spellable_counted))]
fn name_at<P: Program>(program: &P, k: u32) -> &[u8]
    requires { IsSpellable (P.object program.now) }
{
    if k >= program.counts().cells {
        return &[];
    }
    program.name(k)
}

/// Whether cell `k` of two modules has the same name, type and initial word.
fn is_alike<P: Program, Q: Program>(program: &P, first: &Q, k: u32) -> bool
    requires here { IsSpellable (P.object program.now) }
    requires there { IsSpellable (Q.object first.now) }
{
    let name = name_at(program, k);
    let wanted = name_at(first, k);
    name == wanted && cell_at(program, k) == cell_at(first, k)
}

/// The first cell that both modules have and in which they differ.
fn unlike_cell<P: Program, Q: Program>(program: &P, first: &Q) -> Option<u32>
    requires here { IsSpellable (P.object program.now) }
    requires there { IsSpellable (Q.object first.now) }
{
    let count = first.counts().cells.min(program.counts().cells);
    for k in 0..count {
        if !is_alike(program, first, k) {
            return Some(k);
        }
    }
    None
}

/// Says in which cell a module differs from the first one, or else how many cells each has.
fn say_unlike_cell<P: Program, Q: Program>(
    page: &mut Page,
    program: &P,
    first: &Q,
) -> Result<(), NoMemory>
    requires here { IsSpellable (P.object program.now) }
    requires there { IsSpellable (Q.object first.now) }
{
    if let Some(k) = unlike_cell(program, first) {
        page.say(format_args!("  cell {k}, "))?;
        page.quote(name_at(program, k))?;
        page.say(", has a different name, type or initial word")?;
        return page.say(ALIKE);
    }
    let count = program.counts().cells;
    let wanted = first.counts().cells;
    page.say("  it has ")?;
    page.count(count, "cell")?;
    page.say(format_args!(", but the first module has {wanted}"))?;
    page.say(ALIKE)
}

/// Says in which cell an object differs from the first one, or else how many cells each has.
fn say_unlike_object(page: &mut Page, object: &[u8], first: &[u8]) -> Result<(), NoMemory> {
    match (View::over(object), View::over(first)) {
        (Ok(here), Ok(there)) => say_unlike_cell(page, &here, &there),
        _ => Ok(()),
    }
}

/// Says how the cells of a module differ from those of the first one, if both files can be read again.
pub(crate) fn explain_cells<S: Shelf>(
    page: &mut Page,
    first: Option<&str>,
    file: Option<&str>,
    shelf: &mut S,
) -> Result<(), NoMemory> {
    let (Some(first), Some(file)) = (first, file) else {
        return Ok(());
    };
    let Some(wanted) = load(page.alloc(), first, OBJECT_LIMIT, shelf)? else {
        return Ok(());
    };
    match load(page.alloc(), file, OBJECT_LIMIT, shelf)? {
        Some(bytes) => say_unlike_object(page, bytes.as_slice(), wanted.as_slice()),
        None => Ok(()),
    }
}
