//! Suggests fixes for exports and imports of a link map that do not match.
ghost use Rattle.ft_types.specs.Spellable.{IsSpellable};

use crate::links::{file_of, modules_before};
use ft_edge::Shelf;
use ft_isa::{Instr, NoMemory, read_number};
use ft_mistakes::{OBJECT_LIMIT, Page, load};
use ft_types::{Program, TypeHead};
use ft_view::View;

/// The maximum number of blocks or names listed.
const MOST_LISTED: usize = 16;

/// An export or import: its name, and the number of its block.
#[derive(Clone, Copy)]
struct Asked<'m> {
    name: &'m str,
    block: u32,
}

/// The export or import that a line describes, given the rest of the line after its first word.
fn asked_of(rest: &str) -> Option<Asked<'_>> {
    let (name, block) = rest.split_once(' ')?;
    let block = u32::try_from(read_number(block.as_bytes())?).ok()?;
    Some(Asked { name, block })
}

/// The export or import that a line describes.
fn asked_by(line: &str) -> Option<Asked<'_>> {
    let (_, rest) = line.split_once(' ')?;
    asked_of(rest)
}

/// The line with this number, counted from 1.
fn line_at(map: &str, wanted: u64) -> Option<&str> {
    let mut number: u64 = 1;
    for line in map.lines() {
        if number == wanted {
            return Some(line);
        }
        number = number.saturating_add(1);
    }
    None
}

/// The export or import that the line with this number, counted from 1, describes.
fn asked_in(map: &str, wanted: u64) -> Option<Asked<'_>> {
    asked_by(line_at(map, wanted)?)
}

/// The number of the first line that begins with this word and gives this name.
fn line_with(map: &str, word: &str, name: &str) -> Option<u64> {
    let mut number: u64 = 1;
    for line in map.lines() {
        if let Some(rest) = line.strip_prefix(word)
            && let Some(asked) = asked_of(rest)
            && asked.name == name
        {
            return Some(number);
        }
        number = number.saturating_add(1);
    }
    None
}

/// The file of the module that a line belongs to.
fn module_of(map: &str, line: u64) -> Option<&str> {
    let above = modules_before(map.as_bytes(), line).checked_sub(1)?;
    file_of(Some(map.as_bytes()), above)
}

/// How many instructions block `b` has.
#[tactic(auto, using(ft_types::proofs::Counted::spellable_counted))]
fn instr_count<P: Program>(program: &P, b: u32) -> u32
    requires { IsSpellable (P.object program.now) }
{
    let counts = program.counts();
    if b >= counts.blocks {
        return 0;
    }
    let start = program.block(b).start;
    let next = b.saturating_add(1);
    if next >= counts.blocks {
        return counts.instrs.saturating_sub(start);
    }
    program.block(next).start.saturating_sub(start)
}

/// Whether block `b` is a stub.
#[tactic(auto, using(ft_types::proofs::Counted::spellable_counted))]
fn is_stub<P: Program>(program: &P, b: u32) -> bool
    requires { IsSpellable (P.object program.now) }
{
    let counts = program.counts();
    if b >= counts.blocks || instr_count(program, b) != 1 {
        return false;
    }
    let start = program.block(b).start;
    start < counts.instrs && program.instr(start) == Instr::Halt
}

/// Says which blocks of a module are stubs.
#[tactic(auto, using(ft_types::proofs::Counted::spellable_counted))]
fn say_stubs<P: Program>(page: &mut Page, program: &P, file: &str) -> Result<(), NoMemory>
    requires { IsSpellable (P.object program.now) }
{
    page.say("  stubs of ")?;
    page.name(file)?;
    page.say(":")?;
    let mut listed: usize = 0;
    for b in 0..program.counts().blocks {
        if listed < MOST_LISTED && is_stub(program, b) {
            listed = listed.saturating_add(1);
            page.say(format_args!(" {b}"))?;
        }
    }
    page.say(if listed == 0 { " none\n" } else { "\n" })
}

/// Says which numbers the blocks of a module have.
fn say_blocks<P: Program>(page: &mut Page, program: &P, file: &str) -> Result<(), NoMemory>
    requires { IsSpellable (P.object program.now) }
{
    let last = program.counts().blocks.saturating_sub(1);
    page.say("  blocks of ")?;
    page.name(file)?;
    page.say(format_args!(": 0 to {last}\n"))
}

/// Lists the exported names.
fn say_exports(page: &mut Page, map: &str) -> Result<(), NoMemory> {
    page.say("  exported names:")?;
    let mut listed: usize = 0;
    for line in map.lines() {
        if listed < MOST_LISTED
            && let Some(rest) = line.strip_prefix("export ")
            && let Some(asked) = asked_of(rest)
        {
            listed = listed.saturating_add(1);
            page.say(" ")?;
            page.quote(asked.name.as_bytes())?;
        }
    }
    page.say(if listed == 0 { " none\n" } else { "\n" })
}

/// The code type of block `b`, if both exist.
#[tactic(auto, using(ft_types::proofs::Counted::spellable_counted))]
fn type_of<P: Program>(program: &P, b: u32) -> Option<TypeHead>
    requires { IsSpellable (P.object program.now) }
{
    let counts = program.counts();
    if b >= counts.blocks {
        return None;
    }
    let t = program.block(b).code_type;
    if t >= counts.types {
        return None;
    }
    Some(program.code_type(t))
}

/// Says how the counts of two code types differ.
fn say_unlike(page: &mut Page, imported: TypeHead, exported: TypeHead) -> Result<(), NoMemory> {
    let (what, first, second) = if imported.ints != exported.ints {
        (
            "integer variables",
            u32::from(imported.ints),
            u32::from(exported.ints),
        )
    } else if imported.regs != exported.regs {
        ("`reg` lines", imported.regs, exported.regs)
    } else if imported.queue != exported.queue {
        ("`pend` lines", imported.queue, exported.queue)
    } else {
        return page.say("  they differ in a `reg` line, in a `pend` line or in their memory\n");
    };
    page.say(format_args!("  {what}: {first} in the import, {second} in the export\n"))
}

/// Says which line exports a block, and how the code type of an imported block differs from that of the exported one.
fn say_exported(
    page: &mut Page,
    imported: TypeHead,
    line: u64,
    object: &[u8],
    block: u32,
) -> Result<(), NoMemory> {
    let Ok(view) = View::over(object) else {
        return Ok(());
    };
    page.say(format_args!("  line {line} exports it\n"))?;
    match type_of(&view, block) {
        Some(exported) => say_unlike(page, imported, exported),
        None => Ok(()),
    }
}

/// Says how the code type of an imported block differs from that of the exported one.
fn say_unlike_blocks<S: Shelf>(
    page: &mut Page,
    imported: TypeHead,
    map: &str,
    name: &str,
    shelf: &mut S,
) -> Result<(), NoMemory> {
    let Some(line) = line_with(map, "export ", name) else {
        return Ok(());
    };
    let (Some(file), Some(asked)) = (module_of(map, line), asked_in(map, line)) else {
        return Ok(());
    };
    match load(page.alloc(), file, OBJECT_LIMIT, shelf)? {
        Some(bytes) => say_exported(page, imported, line, bytes.as_slice(), asked.block),
        None => Ok(()),
    }
}

/// Says which blocks the object of a module has, or which of them are stubs.
fn say_of_blocks(page: &mut Page, number: u64, file: &str, object: &[u8]) -> Result<(), NoMemory> {
    let Ok(view) = View::over(object) else {
        return Ok(());
    };
    match number {
        7 => say_blocks(page, &view, file),
        _ => say_stubs(page, &view, file),
    }
}

/// The code type of block `b` of an object; `None` if it has no such block.
fn type_in(object: &[u8], b: u32) -> Option<TypeHead> {
    match View::over(object) {
        Ok(view) => type_of(&view, b),
        Err(_) => None,
    }
}

/// Explains, from the module's object, why the block that a line names is unsuitable.
fn say_of_module<S: Shelf>(
    page: &mut Page,
    number: u64,
    map: &str,
    line: u64,
    shelf: &mut S,
) -> Result<(), NoMemory> {
    let (Some(file), Some(asked)) = (module_of(map, line), asked_in(map, line)) else {
        return Ok(());
    };
    let Some(bytes) = load(page.alloc(), file, OBJECT_LIMIT, shelf)? else {
        return Ok(());
    };
    if number != 10 {
        return say_of_blocks(page, number, file, bytes.as_slice());
    }
    let imported = type_in(bytes.as_slice(), asked.block);
    match imported {
        Some(imported) => say_unlike_blocks(page, imported, map, asked.name, shelf),
        None => Ok(()),
    }
}

/// The first earlier line of the same module that names this block.
fn line_of_block(map: &str, line: u64, block: u32) -> Option<u64> {
    let mut found = None;
    let mut number: u64 = 1;
    for text in map.lines() {
        if number >= line {
            break;
        }
        if text.starts_with("module ") {
            found = None;
        } else if let Some(asked) = asked_by(text)
            && asked.block == block
            && found.is_none()
        {
            found = Some(number);
        }
        number = number.saturating_add(1);
    }
    found
}

/// Says which earlier line exports the same name or names the same block.
fn say_first(page: &mut Page, map: &str, line: u64) -> Result<(), NoMemory> {
    let Some(text) = line_at(map, line) else {
        return Ok(());
    };
    let Some(asked) = asked_by(text) else {
        return Ok(());
    };
    if text.starts_with("export ")
        && let Some(first) = line_with(map, "export ", asked.name)
        && first < line
    {
        return page.say(format_args!("  line {first} exports this name\n"));
    }
    match line_of_block(map, line, asked.block) {
        Some(first) => page.say(format_args!("  line {first} names this block\n")),
        None => Ok(()),
    }
}

/// Suggests a fix for a refused line of a link map, if its files can be read again.
pub(crate) fn explain_join<S: Shelf>(
    page: &mut Page,
    number: u64,
    line: u64,
    map: Option<&[u8]>,
    shelf: &mut S,
) -> Result<(), NoMemory> {
    let Ok(map) = str::from_utf8(map.unwrap_or(&[])) else {
        return Ok(());
    };
    match number {
        2 => say_first(page, map, line),
        7 | 8 | 10 => say_of_module(page, number, map, line, shelf),
        9 => say_exports(page, map),
        _ => Ok(()),
    }
}
