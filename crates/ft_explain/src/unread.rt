//! Explains why files could not be read.
use crate::look::{Found, Look};
use ft_edge::{LoadFault, Shelf};
use ft_isa::NoMemory;
use ft_mistakes::{Page, Place, is_fault};
use std::alloc::Global;

/// The maximum number of bytes of a file that are examined.
const LIMIT: usize = 134_217_728;

/// Whether a file can be read.
fn can_be_read<S: Shelf>(page: &Page, name: &str, shelf: &mut S) -> bool {
    let mut bytes = Vec::new(page.alloc());
    !matches!(shelf.load(name, LIMIT, &mut bytes), Err(LoadFault::Failed))
}

/// How the line of a module begins in a link map.
const MODULE: &str = "module ";

/// The first line of a link map whose module cannot be read, counted from 1, and the module's file.
fn first_unread<'m, S: Shelf>(
    page: &Page,
    map: &'m [u8],
    shelf: &mut S,
) -> Option<(usize, &'m str)> {
    let mut number: usize = 0;
    for line in str::from_utf8(map).ok()?.lines() {
        number = number.saturating_add(1);
        if let Some(file) = line.strip_prefix(MODULE)
            && !can_be_read(page, file, shelf)
        {
            return Some((number, file));
        }
    }
    None
}

/// The shortest prefix of a path, up to a `/`, that is not a folder, and what it is.
fn wrong_folder<'n, L: Look>(name: &'n str, look: &L) -> Option<(&'n str, Found)> {
    let mut wrong = None;
    for (at, byte) in name.as_bytes().iter().enumerate() {
        if wrong.is_none() && at > 0 && *byte == b'/' {
            wrong = no_folder(name.get(..at).unwrap_or(""), look);
        }
    }
    wrong
}

/// A name and what it refers to, if that is not a folder.
fn no_folder<'n, L: Look>(name: &'n str, look: &L) -> Option<(&'n str, Found)> {
    match look.look(name) {
        Found::Folder => None,
        found => Some((name, found)),
    }
}

/// Writes a name between other words.
fn say_named(page: &mut Page, before: &str, name: &str, after: &str) -> Result<(), NoMemory> {
    page.say(before)?;
    page.name(name)?;
    page.say(after)
}

/// Advice on a name that looks wrong, beginning with a semicolon; empty if the name looks right.
fn advice_on(name: &str) -> &'static str {
    if name == "-" {
        "; for standard input write `/dev/stdin`"
    } else if name.starts_with(['"', '\'']) {
        "; names are written without quotes"
    } else if name.contains('\\') {
        "; `/` separates folders"
    } else if name.starts_with("~") {
        "; `~` is not expanded here: write the whole path"
    } else if name.contains(['*', '?']) {
        "; `*` and `?` are not expanded here: write the name of each file"
    } else if name.starts_with("$") {
        "; variables are not expanded here: write the whole path"
    } else {
        ""
    }
}

/// The extensions of files that the commands read.
const EXTENSIONS: &[&str] = &[".src", ".obj", ".asm", ".map", ".faults"];

/// A name with an extension.
fn extended(alloc: Global, name: &str, extension: &str) -> Result<String, NoMemory> {
    let mut longer = String::new(alloc);
    longer.push_str(name)?;
    longer.push_str(extension)?;
    Ok(longer)
}

/// If the name with an extension is that of a file, says so.
fn say_extended<L: Look>(page: &mut Page, name: &str, look: &L) -> Result<(), NoMemory> {
    for extension in EXTENSIONS {
        let longer = extended(page.alloc(), name, *extension)?;
        if look.look(longer.as_str()) == Found::File {
            say_named(page, "; there is `", longer.as_str(), "`")?;
        }
    }
    Ok(())
}

/// Says why a file cannot be read.
fn say_reason<L: Look>(page: &mut Page, name: &str, look: &L) -> Result<(), NoMemory> {
    match wrong_folder(name, look) {
        Some((folder, Found::Missing)) => say_named(page, "there is no folder `", folder, "`")?,
        Some((folder, Found::File)) => say_named(page, "`", folder, "` is not a folder")?,
        _ => page.say(look.look(name).words())?,
    }
    if look.look(name) == Found::Missing {
        say_extended(page, name, look)?;
    }
    page.say(advice_on(name))
}

/// Says why the module of a link map's line cannot be read.
fn say_why_module<L: Look>(
    page: &mut Page,
    name: &str,
    map: &[u8],
    unread: (usize, &str),
    look: &L,
) -> Result<(), NoMemory> {
    let (number, file) = unread;
    let Some(start) = Place::of_line(map, number) else {
        return say_why(page, file, look);
    };
    let place = start.after(MODULE.len());
    page.head_at(name, &place)?;
    page.quote(file.as_bytes())?;
    page.say(": ")?;
    say_reason(page, file, look)?;
    if name.contains('/') && !file.starts_with("/") && advice_on(file).is_empty() {
        page.say("; names are relative to the current folder, not to the map's")?;
    }
    page.say("\n")?;
    place.show(page, file.len())
}

/// Says why a file cannot be read.
fn say_why<L: Look>(page: &mut Page, name: &str, look: &L) -> Result<(), NoMemory> {
    if name.is_empty() {
        return page.say("talft: error: the name of the file is empty\n");
    }
    page.head(name)?;
    say_reason(page, name, look)?;
    page.say("\n")
}

/// If a file cannot be read, says why; otherwise returns false.
fn say_if_unread<S: Shelf, L: Look>(
    page: &mut Page,
    name: &str,
    shelf: &mut S,
    look: &L,
) -> Result<bool, NoMemory> {
    if can_be_read(page, name, shelf) {
        return Ok(false);
    }
    say_why(page, name, look)?;
    Ok(true)
}

/// If a fault list cannot be read, says why; otherwise returns false.
fn say_if_list_unread<S: Shelf, L: Look>(
    page: &mut Page,
    name: &str,
    shelf: &mut S,
    look: &L,
) -> Result<bool, NoMemory> {
    if is_fault(name) && look.look(name) == Found::Missing {
        page.head(name)?;
        page.say("this is a fault; `--faults` takes a FILE with one fault per line\n")?;
        return Ok(true);
    }
    say_if_unread(page, name, shelf, look)
}

/// Explains that a file could not be read: names whichever of the two files cannot be read now. If both can be read, it
/// was the script, or the file has reappeared.
pub(crate) fn explain_unread<S: Shelf, L: Look>(
    page: &mut Page,
    names: (&str, Option<&str>),
    takes_script: bool,
    shelf: &mut S,
    look: &L,
) -> Result<(), NoMemory> {
    let (first, second) = names;
    let first_is_said = say_if_unread(page, first, shelf, look)?;
    let second_is_said = match second {
        Some(second) => say_if_list_unread(page, second, shelf, look)?,
        None => false,
    };
    if first_is_said || second_is_said {
        return Ok(());
    }
    page.say(if takes_script {
        look.input().words_of_input()
    } else {
        "talft: error: a file cannot be read\n"
    })
}

/// Explains that a link map or one of its modules could not be read: the map, or the first module that cannot
/// be read now.
pub(crate) fn explain_unread_module<S: Shelf, L: Look>(
    page: &mut Page,
    name: &str,
    map: Option<&[u8]>,
    shelf: &mut S,
    look: &L,
) -> Result<(), NoMemory> {
    match map {
        Some(map) => match first_unread(page, map, shelf) {
            Some(unread) => say_why_module(page, name, map, unread, look),
            None => page.say("talft: error: a file cannot be read\n"),
        },
        None => say_why(page, name, look),
    }
}
