//! Explains a call from its words, its status and the last line that it wrote.
use crate::cells::explain_cells;
use crate::checks::explain_check;
use crate::emptied::{Wrote, explain_emptied, explain_emptied_module};
use crate::joins::explain_join;
use crate::links::{
    explain_code, explain_line, explain_long_map, explain_module, explain_unmoved, file_of,
};
use crate::look::Look;
use crate::modules::{explain_bad_object, explain_unaccepted};
use crate::named::{Holds, Named, files_of};
use crate::outcomes::explain_outcome;
use crate::refusal::Refusal;
use crate::unread::{explain_unread, explain_unread_module};
use ft_command::{Command, command_of};
use ft_edge::Shelf;
use ft_isa::NoMemory;
use ft_mistakes::{
    OBJECT_LIMIT, Page, SOURCE_LIMIT, explain_list, explain_long, explain_object,
    explain_option_as_file, explain_session, explain_source, explain_tables, explain_text,
    explain_usage, has_place, load, slice,
};
use ft_view::View;
use std::alloc::Global;

/// The maximum size of an assembly text in bytes.
const TEXT_LIMIT: usize = 134_217_728;

/// The maximum size of a fault list in bytes.
const LIST_LIMIT: usize = 4_194_304;

/// The maximum size of a link map in bytes.
const MAP_LIMIT: usize = 65_536;

/// Explains why an object, the tables of an assembly text, or a module of a link map is refused.
fn refused_object<S: Shelf>(
    page: &mut Page,
    named: Named<'_>,
    number: u64,
    at: u64,
    shelf: &mut S,
) -> Result<(), NoMemory> {
    if number == 2 && at == OBJECT_LIMIT as u64 {
        return explain_long(page, named.file, at);
    }
    match named.holds {
        Holds::Text => {
            let text = load(page.alloc(), named.file, TEXT_LIMIT, shelf)?;
            explain_tables(page, named.file, number, at, slice(&text))
        }
        Holds::Map => {
            let map = load(page.alloc(), named.file, MAP_LIMIT, shelf)?;
            explain_bad_object(page, named.file, slice(&map), (number, at), shelf)
        }
        Holds::Object | Holds::Source => {
            let bytes = load(page.alloc(), named.file, OBJECT_LIMIT, shelf)?;
            explain_object(page, named.file, number, at, slice(&bytes))
        }
    }
}

/// Says only that an object is not accepted: its bytes cannot be read again, or now spell no object.
fn say_refused(page: &mut Page, name: &str) -> Result<(), NoMemory> {
    page.head(name)?;
    page.say("the object is not accepted\n")
}

/// Explains why the object in a file is not accepted.
fn refused_check<S: Shelf>(
    page: &mut Page,
    named: Named<'_>,
    refusal: Refusal,
    shelf: &mut S,
) -> Result<(), NoMemory> {
    if named.holds == Holds::Map {
        let map = load(page.alloc(), named.file, MAP_LIMIT, shelf)?;
        return explain_unaccepted(page, named.file, slice(&map), refusal, shelf);
    }
    let Some(bytes) = load(page.alloc(), named.file, OBJECT_LIMIT, shelf)? else {
        return say_refused(page, named.file);
    };
    match View::over(bytes.as_slice()) {
        Ok(view) => explain_check(page, &view, named.file, refusal),
        Err(_) => say_refused(page, named.file),
    }
}

/// Explains why a source is refused.
fn refused_source<S: Shelf>(
    page: &mut Page,
    named: Named<'_>,
    number: u64,
    told: u64,
    shelf: &mut S,
) -> Result<(), NoMemory> {
    if !has_place(number) {
        return explain_source(page, named.file, number, told, None);
    }
    let bytes = load(page.alloc(), named.file, SOURCE_LIMIT, shelf)?;
    explain_source(page, named.file, number, told, slice(&bytes))
}

/// Explains why a fault list, a campaign or a script is refused.
fn refused_list<S: Shelf>(
    page: &mut Page,
    named: Named<'_>,
    number: u64,
    told: u64,
    shelf: &mut S,
) -> Result<(), NoMemory> {
    let name = named.list.unwrap_or("standard input");
    if number != 1 {
        return explain_list(page, name, number, told, None);
    }
    let bytes = load(page.alloc(), name, LIST_LIMIT, shelf)?;
    explain_list(page, name, number, told, slice(&bytes))
}

/// Explains why an assembly text is refused.
fn refused_text<S: Shelf>(
    page: &mut Page,
    named: Named<'_>,
    number: u64,
    told: u64,
    shelf: &mut S,
) -> Result<(), NoMemory> {
    if number == 3 {
        return explain_text(page, named.file, number, told, None);
    }
    let bytes = load(page.alloc(), named.file, TEXT_LIMIT, shelf)?;
    explain_text(page, named.file, number, told, slice(&bytes))
}

/// Explains why a link map or one of its modules is refused. The map is given if it can be read again.
fn refused_map<S: Shelf>(
    page: &mut Page,
    named: Named<'_>,
    refusal: (u64, u64),
    map: Option<&[u8]>,
    shelf: &mut S,
) -> Result<(), NoMemory> {
    let (number, told) = refusal;
    if !matches!(number, 3 | 4 | 6) {
        explain_line(page, named.file, number, told, map)?;
        return explain_join(page, number, told, map, shelf);
    }
    let file = file_of(map, told);
    explain_module(page, named.file, number, told, file)?;
    if number == 3 && told > 0 {
        return explain_cells(page, file_of(map, 0), file, shelf);
    }
    Ok(())
}

/// Explains why a link map or one of its modules is refused.
fn refused_link<S: Shelf>(
    page: &mut Page,
    named: Named<'_>,
    number: u64,
    told: u64,
    shelf: &mut S,
) -> Result<(), NoMemory> {
    if number == 11 {
        return explain_long_map(page, named.file, told);
    }
    let map = load(page.alloc(), named.file, MAP_LIMIT, shelf)?;
    refused_map(page, named, (number, told), slice(&map), shelf)
}

/// Explains why the linker cannot move an instruction of a module. The module's bytes are given if they can be read
/// again.
fn refused_bytes(
    page: &mut Page,
    named: Named<'_>,
    place: (u64, u64, u64),
    file: Option<&str>,
    bytes: Option<&[u8]>,
) -> Result<(), NoMemory> {
    let (module, block, index) = place;
    match (file, View::over(bytes.unwrap_or(&[]))) {
        (Some(name), Ok(view)) => explain_code(page, &view, name, block, index),
        _ => explain_unmoved(page, named.file, module, file, block, index),
    }
}

/// Explains why the linker cannot move an instruction of the module in this file.
fn refused_module<S: Shelf>(
    page: &mut Page,
    named: Named<'_>,
    place: (u64, u64, u64),
    file: Option<&str>,
    shelf: &mut S,
) -> Result<(), NoMemory> {
    let bytes = load(page.alloc(), file.unwrap_or(""), OBJECT_LIMIT, shelf)?;
    refused_bytes(page, named, place, file, slice(&bytes))
}

/// Explains why the linker cannot move an instruction of a module.
fn refused_code<S: Shelf>(
    page: &mut Page,
    named: Named<'_>,
    place: (u64, u64, u64),
    shelf: &mut S,
) -> Result<(), NoMemory> {
    let map = load(page.alloc(), named.file, MAP_LIMIT, shelf)?;
    refused_module(page, named, place, file_of(slice(&map), place.0), shelf)
}

/// If the shell emptied a file that a call names, says so; otherwise returns false.
fn say_if_emptied<S: Shelf, L: Look>(
    page: &mut Page,
    named: Named<'_>,
    wrote: Wrote<'_>,
    shelf: &mut S,
    look: &L,
) -> Result<bool, NoMemory> {
    if explain_emptied(page, named.file, wrote, shelf, look)? {
        return Ok(true);
    }
    if let Some(list) = named.list {
        return explain_emptied(page, list, wrote, shelf, look);
    }
    if named.holds != Holds::Map {
        return Ok(false);
    }
    let map = load(page.alloc(), named.file, MAP_LIMIT, shelf)?;
    explain_emptied_module(page, slice(&map), wrote, shelf, look)
}

/// What a call that names these files wrote.
fn wrote<'l>(named: Named<'_>, line: &'l [u8], called: &'static str) -> Wrote<'l> {
    Wrote {
        line,
        is_source: named.holds == Holds::Source,
        called,
    }
}

/// Explains a refusal of a call that names these files.
fn refused<S: Shelf>(
    page: &mut Page,
    named: Named<'_>,
    refusal: Refusal,
    shelf: &mut S,
) -> Result<(), NoMemory> {
    match refusal {
        Refusal::Usage => Ok(()),
        Refusal::Source(number, told) => refused_source(page, named, number, told, shelf),
        Refusal::Object(number, at) => refused_object(page, named, number, at, shelf),
        Refusal::Entry | Refusal::Cell(_) | Refusal::Instr(..) => {
            refused_check(page, named, refusal, shelf)
        }
        Refusal::List(number, told) => refused_list(page, named, number, told, shelf),
        Refusal::Text(number, told) => refused_text(page, named, number, told, shelf),
        Refusal::Link(number, told) => refused_link(page, named, number, told, shelf),
        Refusal::Code(module, block, index) => {
            refused_code(page, named, (module, block, index), shelf)
        }
    }
}

/// Explains that a file of a call could not be read.
fn unread<S: Shelf, L: Look>(
    page: &mut Page,
    named: Named<'_>,
    shelf: &mut S,
    look: &L,
) -> Result<(), NoMemory> {
    if named.holds != Holds::Map {
        return explain_unread(
            page,
            (named.file, named.list),
            named.takes_script,
            shelf,
            look,
        );
    }
    let map = load(page.alloc(), named.file, MAP_LIMIT, shelf)?;
    explain_unread_module(page, named.file, slice(&map), shelf, look)
}

/// Explains a call that names these files, from its status and the last line that it wrote.
fn by_files<S: Shelf, L: Look>(
    page: &mut Page,
    words: &[String],
    named: Named<'_>,
    told: (u8, &[u8]),
    shelf: &mut S,
    look: &L,
) -> Result<(), NoMemory> {
    let (status, line) = told;
    if status == 3 {
        if explain_option_as_file(page, words)? {
            return Ok(());
        }
        return unread(page, named, shelf, look);
    }
    if say_if_emptied(page, named, wrote(named, line, "error"), shelf, look)? {
        return Ok(());
    }
    match Refusal::read(line) {
        Some(refusal) if refusal.status() == status => refused(page, named, refusal, shelf),
        _ => Ok(()),
    }
}

/// Explains a call from its command, its status and the last line that it wrote.
fn by_command<S: Shelf, L: Look>(
    page: &mut Page,
    words: &[String],
    told: (u8, &[u8]),
    shelf: &mut S,
    look: &L,
) -> Result<(), NoMemory> {
    let command = command_of(page.alloc(), words)?;
    match files_of(&command) {
        Some(named) => by_files(page, words, named, told, shelf, look),
        None => Ok(()),
    }
}

/// Explains what happened in a call of this command that was not refused.
fn outcome_of<S: Shelf, L: Look>(
    page: &mut Page,
    command: &Command<'_>,
    told: (u8, &[u8]),
    shelf: &mut S,
    look: &L,
) -> Result<(), NoMemory> {
    let (status, line) = told;
    if let Command::Debug(_) = command {
        return explain_session(page, look.script(), line, shelf);
    }
    if let Some(named) = files_of(command)
        && named.holds != Holds::Map
        && say_if_emptied(page, named, wrote(named, line, "note"), shelf, look)?
    {
        return Ok(());
    }
    explain_outcome(page, command, status, shelf)
}

/// Explains what happened in a call that was not refused.
fn by_outcome<S: Shelf, L: Look>(
    page: &mut Page,
    words: &[String],
    told: (u8, &[u8]),
    shelf: &mut S,
    look: &L,
) -> Result<(), NoMemory> {
    let command = command_of(page.alloc(), words)?;
    outcome_of(page, &command, told, shelf, look)
}

/// The explanation of a call with these words, given its status and the last line written. It is empty for a call that
/// succeeded, unless something notable happened. The shelf reads files again, so an explanation describes the bytes
/// that a file has now. `look` says what the name of a file that could not be read refers to. Each line of the text
/// ends with a line feed.
pub fn explain<S: Shelf, L: Look>(
    alloc: Global,
    words: &[String],
    status: u8,
    line: &[u8],
    shelf: &mut S,
    look: &L,
) -> Result<String, NoMemory> {
    let mut page = Page::new(alloc);
    match status {
        0 | 1 | 9 => by_outcome(&mut page, words, (status, line), shelf, look)?,
        2 => explain_usage(&mut page, words)?,
        3 | 6 | 7 | 8 | 11 | 12 | 13 => by_command(&mut page, words, (status, line), shelf, look)?,
        4 => page.say("talft: error: the output could not be written\n")?,
        5 => page.say("talft: error: memory ran out\n")?,
        _ => {}
    }
    Ok(page.finish())
}
