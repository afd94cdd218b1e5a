//! The program: the tool with the system's files, standard input and standard output.
//!
//! The program's words are its arguments, and `ft_tool::whole` does what they ask for: its contract says what it writes
//! and returns, the last flush included. Arguments that are not UTF-8 are not a command, so `whole` then gets no words.
//! Output is buffered and written in large pieces. A call that is refused, is cut short or detects a fault is explained
//! on standard error.
#![tactic(auto)]

ghost use Rattle.std.specs.Prelude.{◌≡◌, []};

mod build;
mod explained;
mod looks;
mod streams;
mod watched;

use ft_edge::{FolderShelf, GatheringSink, Gathers, StdinSource};
use std::io::Write;
use std::process::ExitCode;
use std::rt::{Env, Files};
use std::{env, io};

/// The status of a call whose output could not be written.
const NOT_WRITTEN: u8 = 4;

/// The status of a call that ran out of memory.
const NO_MEMORY: u8 = 5;

/// The program's arguments, without its own name.
fn words<R: Env + AllocGlobal>(rt: &R) -> io::Result<Vec<String>> {
    let mut words = Vec::new(rt.alloc());
    for word in env::args(rt)?.skip(1) {
        words.push(word)?;
    }
    Ok(words)
}

/// Does what the words ask for, with the system's files and standard input, and flushes the output.
/// `ft_tool::whole` promises what was written.
fn answer<R: Files + Input + AllocGlobal + Clone + Drop, W: Write + Drop, K: Gathers<W>>(
    rt: &R,
    words: &[String],
    out: K,
) -> io::Result<(u8, K::Kept)>
    requires { K.bytes out ≡ [] }
{
    let mut shelf = FolderShelf::new(rt.clone()?, rt.alloc());
    let mut script = StdinSource::new(rt.clone()?);
    let (status, _, kept) = ft_tool::whole(rt.alloc(), words, &mut shelf, &mut script, out);
    Ok((status, kept))
}

fn run<R: Env + Files + Print + Eprint + Input + AllocGlobal + Clone + Drop>(
    rt: &R,
) -> io::Result<u8> {
    let words = match words(rt) {
        Ok(words) => words,
        Err(error) if error.kind() == io::ErrorKind::InvalidData => Vec::new(rt.alloc()),
        Err(error) => return Err(error),
    };
    if explained::is_wanted(rt) {
        return explained::run(rt, words.as_slice());
    }
    let Ok(out) = GatheringSink::new(rt.alloc(), io::writer(rt)) else {
        return Ok(NO_MEMORY);
    };
    let (status, ()) = answer(rt, words.as_slice(), out)?;
    Ok(status)
}

fn main(rt: HostRuntime) -> ExitCode {
    match run(&rt) {
        Ok(status) => ExitCode::from(status),
        Err(_) => ExitCode::from(NO_MEMORY),
    }
}
