//! Explains calls on standard error.
use crate::build::line_of_build;
use crate::looks::Folders;
use crate::streams::{STANDARD_ERROR, STANDARD_INPUT, STANDARD_OUTPUT, is_pipe, is_terminal};
use crate::watched::Watched;
use crate::{NO_MEMORY, NOT_WRITTEN, answer};
use ft_edge::{FolderShelf, GatheringSink, MemShelf, Shelf};
use ft_explain::{LastLine, asks_for_version, explain, form_of_words};
use ft_isa::NoMemory;
use std::alloc::Global;
use std::rt::{Env, Files};
use std::{env, fs, io};

/// The environment variable that turns explanations off if its value is 0.
const VARIABLE: &str = "TALFT_EXPLAIN";

/// The explanation for arguments that are not UTF-8.
const NO_TEXT: &str = "talft: error: an argument is not UTF-8 text\n";

/// The message before debugger commands are read from a terminal.
const COMMANDS: &str =
    "talft: note: debugger commands are read from the terminal up to Ctrl-D; `talft-debugger OBJECT` has a prompt and help\n";

/// The maximum size of a link map in bytes.
const MAP_LIMIT: usize = 65_536;

/// Whether calls are explained: they are unless the environment turns explanations off.
pub(crate) fn is_wanted<R: Env + AllocGlobal>(rt: &R) -> bool {
    match env::var(rt, VARIABLE) {
        Ok(value) => value.as_str() != "0",
        Err(_) => true,
    }
}

/// Whether the file with this name can be read only once, like a pipe or a device.
fn is_read_once<R: Files>(rt: &R, name: &str) -> bool {
    match fs::metadata(rt, name) {
        Ok(found) => !found.is_file() && !found.is_dir(),
        Err(_) => false,
    }
}

/// Whether each file that the words may name can be read again.
fn can_be_read_again<R: Files>(rt: &R, words: &[String]) -> bool {
    for word in words {
        if is_read_once(rt, word.as_str()) {
            return false;
        }
    }
    true
}

/// Whether each file that a link map names can be read again.
fn can_link_again<R: Files>(rt: &R, map: &[u8]) -> bool {
    for line in str::from_utf8(map).unwrap_or("").lines() {
        if let Some(file) = line.strip_prefix("module ")
            && is_read_once(rt, file)
        {
            return false;
        }
    }
    true
}

/// Whether the files of a call can be read again, including the modules of a link map.
fn are_read_again<R: Files, S: Shelf>(
    rt: &R,
    alloc: Global,
    words: &[String],
    shelf: &mut S,
) -> bool {
    if !can_be_read_again(rt, words) {
        return false;
    }
    let [first, map] = words else {
        return true;
    };
    let mut bytes = Vec::new(alloc);
    if first.as_str() == "link" && shelf.load(map.as_str(), MAP_LIMIT, &mut bytes).is_ok() {
        return can_link_again(rt, bytes.as_slice());
    }
    true
}

/// Whether an argument of the program is not UTF-8; the call then has no words.
fn is_some_argument_no_text<R: Env + AllocGlobal>(rt: &R) -> bool {
    match env::args(rt) {
        Ok(_) => false,
        Err(error) => error.kind() == io::ErrorKind::InvalidData,
    }
}

/// The explanation of a call.
fn explanation<R: Files + AllocGlobal + Clone + Drop>(
    rt: &R,
    words: &[String],
    status: u8,
    line: &[u8],
) -> Result<String, NoMemory> {
    let Ok(files) = rt.clone() else {
        return Err(NoMemory);
    };
    let mut shelf = FolderShelf::new(files, rt.alloc());
    if are_read_again(rt, rt.alloc(), words, &mut shelf) {
        return explain(rt.alloc(), words, status, line, &mut shelf, &Folders { rt });
    }
    let mut nothing = MemShelf::new(rt.alloc());
    explain(
        rt.alloc(),
        words,
        status,
        line,
        &mut nothing,
        &Folders { rt },
    )
}

/// Explains why writing to standard output failed. Says nothing about a pipe, whose reader may just have stopped
/// reading.
fn say_unwritten<R: Files + Eprint + AllocGlobal>(rt: &R, reason: &str) {
    if !is_pipe(rt) {
        let _ = rt.eprint("talft: error: the output could not be written");
        let _ = rt.eprint(reason);
        let _ = rt.eprint("\n");
    }
}

/// Writes the explanation of a call to standard error. If that fails, the status is still that of the call.
fn say<R: Env + Files + Eprint + AllocGlobal + Clone + Drop>(
    rt: &R,
    words: &[String],
    status: u8,
    line: &[u8],
) {
    if words.is_empty() && is_some_argument_no_text(rt) {
        let _ = rt.eprint(NO_TEXT);
        return;
    }
    if asks_for_version(words)
        && let Some(line) = line_of_build(rt, rt.alloc())
    {
        let _ = rt.eprint(line.as_str());
        return;
    }
    if let Ok(text) = explanation(rt, words, status, line) {
        let _ = rt.eprint(text.as_str());
    }
}

/// Whether the words ask for a debugger session.
fn ask_for_session(words: &[String]) -> bool {
    match words {
        [command, _] => command.as_str() == "debug",
        [command, _, option, _] => command.as_str() == "debug" && option.as_str() == "--wild",
        _ => false,
    }
}

/// Does what the words ask for, and writes the explanation to standard error. Standard output and the status do not
/// depend on the explanation. It is a separate function, apart from the code of calls that are not explained.
#[inline(never)]
pub(crate) fn run<R: Env + Files + Print + Eprint + Input + AllocGlobal + Clone + Drop>(
    rt: &R,
    words: &[String],
) -> io::Result<u8> {
    if ask_for_session(words) && is_terminal(rt, STANDARD_INPUT) {
        let _ = rt.eprint(COMMANDS);
    }
    let is_shown = is_terminal(rt, STANDARD_OUTPUT);
    let mut watched = Watched::new(rt, io::writer(rt), form_of_words(words), is_shown);
    let Ok(out) = GatheringSink::new(rt.alloc(), &mut watched) else {
        return Ok(NO_MEMORY);
    };
    let (status, line) = answer(rt, words, LastLine::new(out))?;
    if status == NOT_WRITTEN {
        say_unwritten(rt, watched.reason());
        return Ok(status);
    }
    // The bytes of an object do not end with a line feed, so an explanation would not begin on a new line.
    if watched.has_shown_object() && is_terminal(rt, STANDARD_ERROR) {
        let _ = rt.eprint("\n");
    }
    say(rt, words, status, line.as_bytes());
    Ok(status)
}
