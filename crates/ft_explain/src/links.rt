//! Explains why links are refused.
ghost use Rattle.ft_types.specs.Spellable.{IsSpellable};

use crate::checks::{find, say_instr};
use ft_isa::{Instr, NoMemory};
use ft_mistakes::{
    Content, Page, Place, first_word, is_near, is_number, say_misfit, say_near, say_other_kind,
    wrong_words,
};
use ft_text::read_line;
use ft_types::Program;

/// The maximum number of modules in a link map.
pub(crate) const MODULE_LIMIT: u64 = 64;

/// The largest block number.
const LAST_BLOCK: u64 = 4_294_967_295;

/// The file of the module with this number, counted from 0, as a map names it.
pub(crate) fn file_of(map: Option<&[u8]>, module: u64) -> Option<&str> {
    let text = map?;
    let mut rest = text;
    let mut number: u64 = 0;
    for _ in 0..text.len() {
        let (line, after) = read_line(rest)?;
        if let Some(file) = line.strip_prefix(b"module ") {
            if number == module {
                return str::from_utf8(file).ok();
            }
            number = number.saturating_add(1);
        }
        rest = after;
    }
    None
}

/// How many lines before the one with this number, counted from 1, name a module.
pub(crate) fn modules_before(map: &[u8], wanted: u64) -> u64 {
    let mut modules: u64 = 0;
    let mut number: u64 = 1;
    let mut rest = map;
    for _ in 0..map.len() {
        let Some((line, after)) = read_line(rest) else {
            break;
        };
        if number < wanted && line.starts_with(b"module ") {
            modules = modules.saturating_add(1);
        }
        number = number.saturating_add(1);
        rest = after;
    }
    modules
}

/// The words that the lines of a map begin with.
const WORDS: &[&str] = &["module", "export", "import"];

/// Says that a line begins with none of the three words.
fn say_unknown(page: &mut Page, first: &str) -> Result<(), NoMemory> {
    page.say("unexpected ")?;
    page.quote(first.as_bytes())?;
    if first == "entry" {
        return page.say(": a run begins at the entry of the first module; leave this line out");
    }
    for word in WORDS {
        if is_near(page.alloc(), first, *word)? {
            return say_near(page, word.as_bytes());
        }
    }
    page.say(": expected `module FILE`, `export NAME B` or `import NAME B`")
}

/// Says what is wrong with the words after `export` or `import`.
fn say_asked(page: &mut Page, word: &str, rest: &str) -> Result<(), NoMemory> {
    let Some((_, block)) = rest.split_once(' ') else {
        return page.say(format_args!(
            "expected `{word} NAME B`: the number of the block is missing"
        ));
    };
    if !is_number(block.as_bytes(), LAST_BLOCK) {
        page.say("invalid block ")?;
        page.quote(block.as_bytes())?;
        page.say(": ")?;
        return say_misfit(page, block.as_bytes(), LAST_BLOCK);
    }
    page.say(format_args!(
        "expected `{word} NAME B`: a name is at most 32 letters, digits and `_`, and does not begin with a digit"
    ))
}

/// A superfluous word of a line that begins with `export` or `import`, which only a name and a number may follow.
#[derive(Clone, Copy)]
struct Extra<'m> {
    /// The first word of the line.
    first: &'m str,
    /// Where the word begins.
    at: usize,
    /// The word.
    text: &'m str,
}

/// The superfluous word: the one between the name and the block's number, or the first one after them.
fn extra_of(line: &str) -> Option<Extra<'_>> {
    let (first, rest) = line.split_once(' ')?;
    let (_, block) = rest.split_once(' ')?;
    let (second, further) = block.split_once(' ')?;
    let is_after = is_number(second.as_bytes(), LAST_BLOCK);
    let rest = if is_after { further } else { block };
    if matches!(first.as_bytes(), b"export" | b"import") {
        Some(Extra {
            first,
            at: line.len().saturating_sub(rest.len()),
            text: first_word(rest),
        })
    } else {
        None
    }
}

/// Says which word of a line is superfluous.
fn explain_extra(
    page: &mut Page,
    name: &str,
    place: Place<'_>,
    extra: Extra<'_>,
) -> Result<(), NoMemory> {
    let first = extra.first;
    page.head_at(name, &place)?;
    page.say("unexpected ")?;
    page.quote(extra.text.as_bytes())?;
    page.say(format_args!(": expected `{first} NAME B`\n"))?;
    place.show(page, extra.text.len())
}

/// Says what is wrong with a line that is not allowed after this many modules.
fn say_misplaced(page: &mut Page, line: &str, modules: u64) -> Result<(), NoMemory> {
    let (first, rest) = match line.split_once(' ') {
        Some(parts) => parts,
        None => (line, ""),
    };
    match first.as_bytes() {
        b"module" if modules >= MODULE_LIMIT && !rest.is_empty() => {
            page.say("a link map has at most 64 modules")
        }
        b"module" => page.say(
            "expected `module FILE`: FILE is 1 to 255 printable characters without spaces",
        ),
        b"export" | b"import" if modules == 0 => {
            page.say(format_args!("no `module` line precedes this `{first}`"))
        }
        b"export" | b"import" => say_asked(page, first, rest),
        _ => say_unknown(page, first),
    }
}

/// What is wrong with a line of one of the three forms.
fn line_words(number: u64, line: &[u8]) -> &'static str {
    match number {
        1 => "this line is not allowed here",
        2 if line.starts_with(b"import ") => "this block is already exported or imported",
        2 => "this name is already exported, or this block is already imported",
        7 => "the module has no such block",
        8 => "the imported block is not a stub: a stub is a single `halt`",
        9 => "no line exports this name",
        _ => "the imported block and the exported one do not have the same code type",
    }
}

/// What is wrong with a module.
fn module_words(number: u64, module: u64) -> &'static str {
    match number {
        3 if module == 0 => "a cell's type has the base `code`, which no cell of a module may have",
        3 => "its cells differ from those of the first module",
        4 =>
            "a register row's type has the base `code`, which no register row of a module may have",
        _ =>
            "with this module the linked object is too large: it has more parts of one kind than are allowed",
    }
}

/// What is wrong with an instruction that the linker cannot move.
fn code_words(instr: Instr) -> &'static str {
    match instr {
        Instr::JmpG { .. } =>
            "its target register does not hold a block address from a `mov` in this block",
        Instr::BzG { .. } =>
            "its target register does not hold a block address from a `mov` in this block, or it tests such an address",
        Instr::JmpB { .. } | Instr::BzB { .. } =>
            "its target register does not hold a block address from a `mov` in this block, or it passes such an address on",
        _ => "it reads the address of a block but does not jump or branch to that block",
    }
}

/// Explains why a line of a link map is not allowed where it is.
fn explain_misplaced(
    page: &mut Page,
    name: &str,
    place: Place<'_>,
    modules: u64,
) -> Result<(), NoMemory> {
    if let Some((at, words)) = wrong_words(place.line()) {
        return place.after(at).explain(page, name, words);
    }
    let line = str::from_utf8(place.line()).unwrap_or("");
    if modules > 0
        && let Some(extra) = extra_of(line)
    {
        return explain_extra(page, name, place.after(extra.at), extra);
    }
    page.head_at(name, &place)?;
    say_misplaced(page, line, modules)?;
    page.say("\n")?;
    place.show(page, place.line().len())
}

/// Explains why a line of a link map is refused. The map is given if it can be read again.
pub(crate) fn explain_line(
    page: &mut Page,
    name: &str,
    number: u64,
    told: u64,
    map: Option<&[u8]>,
) -> Result<(), NoMemory> {
    let Some(map) = map else {
        page.head(name)?;
        page.say(format_args!("line {told}: "))?;
        page.say(line_words(number, &[]))?;
        return page.say("\n");
    };
    if number == 1 && say_other_kind(page, name, map, Content::Map)? {
        return Ok(());
    }
    let Some(place) = Place::of_line(map, told as usize) else {
        page.head(name)?;
        return page.say("a link map has at least one module\n");
    };
    if number == 1 {
        return explain_misplaced(page, name, place, modules_before(map, told));
    }
    page.head_at(name, &place)?;
    page.say(line_words(number, place.line()))?;
    page.say("\n")?;
    place.show(page, place.line().len())
}

/// Begins a message about a module with the name of its file, or with the map's name if the file's is not known.
fn module_head(
    page: &mut Page,
    name: &str,
    module: u64,
    file: Option<&str>,
) -> Result<(), NoMemory> {
    match file {
        Some(file) => page.head(file),
        None => {
            page.head(name)?;
            page.say(format_args!("module {module}: "))
        }
    }
}

/// Explains why a module is refused. Its file is known if the map can be read again.
pub(crate) fn explain_module(
    page: &mut Page,
    name: &str,
    number: u64,
    module: u64,
    file: Option<&str>,
) -> Result<(), NoMemory> {
    module_head(page, name, module, file)?;
    page.say(module_words(number, module))?;
    page.say("\n")
}

/// Explains why the linker cannot move an instruction if the object cannot be read again.
pub(crate) fn explain_unmoved(
    page: &mut Page,
    name: &str,
    module: u64,
    file: Option<&str>,
    block: u64,
    index: u64,
) -> Result<(), NoMemory> {
    module_head(page, name, module, file)?;
    page.say(format_args!(
        "block {block}, instruction {index}: it uses the address of a block in a way that the linker cannot follow\n"
    ))
}

/// Explains why the linker cannot move an instruction of an object.
#[tactic(auto, using(ft_types::proofs::Counted::spellable_counted))]
pub(crate) fn explain_code<P: Program>(
    page: &mut Page,
    program: &P,
    name: &str,
    block: u64,
    index: u64,
) -> Result<(), NoMemory>
    requires { IsSpellable (P.object program.now) }
{
    let Some((_, i)) = find(program, block, index) else {
        return Ok(());
    };
    if i >= program.counts().instrs {
        return Ok(());
    }
    page.head(name)?;
    page.say(format_args!("block {block}, instruction {index}: "))?;
    page.say(code_words(program.instr(i)))?;
    page.say("\n")?;
    say_instr(page, program, i)
}

/// Explains that a link map is too long.
pub(crate) fn explain_long_map(page: &mut Page, name: &str, most: u64) -> Result<(), NoMemory> {
    page.head(name)?;
    page.say(format_args!("the link map is too long: at most {most} bytes are allowed\n"))
}
