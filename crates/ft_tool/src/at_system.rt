//! The tool with the system's files, standard input and a buffered writer.
ghost use Rattle.std.specs.Prelude.{◌≡◌, ◌≢◌, ◌⊎◌, ℕ, List, [], ◌++◌, map, string_bytes, Some};
ghost use Rattle.ft_command.specs.Commands.{Asks, Usage};
ghost use Rattle.ft_edge.specs.FolderFailures.{folder_log};
ghost use Rattle.ft_edge.specs.Loads.{Files as Contents};
ghost use Rattle.ft_edge.specs.Heard.{Agree};
ghost use Rattle.ft_edge.specs.Recording.{accepted};
ghost use Rattle.ft_edge.specs.StdinTakes.{stdin_log};
ghost use Rattle.ft_edge.specs.Takes.{MayBeLeft};
ghost use Rattle.ft_tool.specs.Answers.{IsAnswer, Concludes, BreaksOff, FailedToLoad, FailedToTake};
ghost use Rattle.ft_tool.specs.Known.{joined, revealing};
ghost use Rattle.ft_tool.specs.Programs.{Writes, WritesFront};

use crate::tool;
use ft_edge::{FolderShelf, Gathers, Recorded, Sink, StdinSource};
use std::alloc::Global;
use std::io::Write;
use std::rt::Files;

/// The status of a call whose output could not be written.
const NOT_WRITTEN: u8 = 4;

/// Carries out a command line with the system's files and standard input. Whatever the files are, if they have the
/// bytes that this call's reads returned, and whatever the script is, if it begins with what its reads returned and
/// ends where one found the end: the status is the answer's, and exactly its pieces were put.
fn program<R: Files, S: Input, K: Sink>(
    alloc: Global,
    words: &[String],
    shelf: &mut FolderShelf<R>,
    script: &mut StdinSource<S>,
    out: &mut K,
) -> u8
    requires script { script.old.reads ≡ [] }
    ensures headline { result ≢ 3 → result ≢ 4 → result ≢ 5 →
        (files : Contents) → Agree shelf.new.heard files → (rest : List ℕ) → MayBeLeft script.new.reads rest →
        Concludes (IsAnswer (map string_bytes words.now) (Some files) (Some (joined script.new.reads ++ rest))) result
        (K.log out.old) (K.log out.new) }
    ensures usage { result ≡ 2 → Asks (map string_bytes words.now) Usage }
    ensures load_failure { result ≡ 3 → (files : Contents) → Agree shelf.new.heard files →
        FailedToLoad (map string_bytes words.now) (revealing (Some files) (folder_log shelf.old))
        (revealing (Some files) (folder_log shelf.new))
        ⊎ FailedToTake (map string_bytes words.now) (Some files) (stdin_log script.old) (stdin_log script.new) }
    ensures write_failure { result ≡ 4 →
        (files : Contents) → Agree shelf.new.heard files → (rest : List ℕ) → MayBeLeft script.new.reads rest →
        BreaksOff (IsAnswer (map string_bytes words.now) (Some files) (Some (joined script.new.reads ++ rest)))
        (K.log out.old) (K.log out.new) }
    ensures load_failure_puts_nothing { result ≡ 3 → K.log out.new ≡ K.log out.old }
    ensures no_memory_puts_nothing { result ≡ 5 → K.log out.new ≡ K.log out.old }
{
    tool(alloc, words, shelf, script, out)
}

/// Carries out a command line, and flushes the output. Whatever the files are, if they have the bytes that this call's
/// reads returned, and whatever the script is, if it begins with what its reads returned and ends where one found the
/// end: the status is the answer's, and the write calls accepted exactly its text. It returns the status, the writer,
/// and what the sink kept.
pub fn whole<R: Files, S: Input, W: Write + Drop, K: Gathers<W>>(
    alloc: Global,
    words: &[String],
    shelf: &mut FolderShelf<R>,
    script: &mut StdinSource<S>,
    out: K,
) -> (u8, Recorded<W>, K::Kept)
    requires script { script.old.reads ≡ [] }
    requires out { K.bytes out ≡ [] }
    ensures headline { result.0 ≢ 3 → result.0 ≢ 4 → result.0 ≢ 5 →
        (files : Contents) → Agree shelf.new.heard files → (rest : List ℕ) → MayBeLeft script.new.reads rest →
        Writes (IsAnswer (map string_bytes words.now) (Some files) (Some (joined script.new.reads ++ rest))) result.0
        (accepted result.1) }
    ensures usage { result.0 ≡ 2 → Asks (map string_bytes words.now) Usage }

    // A load of one of the command's files or a take of its script failed.
    ensures load_failure { result.0 ≡ 3 → (files : Contents) → Agree shelf.new.heard files →
        FailedToLoad (map string_bytes words.now) (revealing (Some files) (folder_log shelf.old))
        (revealing (Some files) (folder_log shelf.new))
        ⊎ FailedToTake (map string_bytes words.now) (Some files) (stdin_log script.old) (stdin_log script.new) }

    // A write failed, and none followed: the write calls accepted a prefix of the answer's text.
    ensures write_failure { result.0 ≡ 4 →
        (files : Contents) → Agree shelf.new.heard files → (rest : List ℕ) → MayBeLeft script.new.reads rest →
        WritesFront (IsAnswer (map string_bytes words.now) (Some files) (Some (joined script.new.reads ++ rest)))
        (accepted result.1) }

    // A file or the script could not be read, or memory ran out: no byte was written.
    ensures load_failure_writes_nothing { result.0 ≡ 3 → accepted result.1 ≡ [] }
    ensures no_memory_writes_nothing { result.0 ≡ 5 → accepted result.1 ≡ [] }
{
    let mut sink = out;
    let status = program(alloc, words, shelf, script, &mut sink);
    let (gathered, kept) = sink.into_sink();
    if status == NOT_WRITTEN {
        return (status, gathered.discard(), kept);
    }
    match gathered.finish() {
        (Ok(()), writer) => (status, writer, kept),
        (Err(_), writer) => (NOT_WRITTEN, writer, kept),
    }
}
