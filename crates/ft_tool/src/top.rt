//! The tool's entry point.
ghost use Rattle.std.specs.Prelude.{◌≡◌, ◌≢◌, ◌⊎◌, [], map, string_bytes, IsTrue};
ghost use Rattle.ft_edge.specs.Logs.{NoLoadFails};
ghost use Rattle.ft_tool.specs.Calls.{HasMade, is_early, Loads, TakesFrom};
ghost use Rattle.ft_tool.specs.Known.{ForFiles, ForScript, revealing};
ghost use Rattle.ft_tool.specs.Does.{Does, FailsTaking, TakesFor};
ghost use Rattle.ft_command.specs.Asked.{asked};
ghost use Rattle.ft_command.specs.Commands.{Asks, Usage, HasFewSteps, HasTurns};
ghost use Rattle.ft_tool.specs.Answers.{IsAnswer, Concludes, BreaksOff, FailedToLoad, FailedToTake, is_status};
ghost use Rattle.ft_tool.specs.Endings.{Unwritten, part_end, Ends, ends_early};

use crate::assemble::AssembleCommand;
use crate::campaign::campaign_file;
use crate::check::CheckCommand;
use crate::compile::CompileCommand;
use crate::debug::debug_file;
use crate::demo::demonstrate;
use crate::disassemble::DisassembleCommand;
use crate::ending::{Ending, put_usage};
use crate::exec::ExecCommand;
use crate::link::link_file;
use crate::mean::MeanCommand;
use crate::over_file::over_file;
use crate::over_object::over_object;
use crate::recover::RecoverCommand;
use crate::run::RunCommand;
use crate::schedule::ScheduleCommand;
use crate::survey::survey_file;
use crate::trial::TrialCommand;
use crate::upgrade::UpgradeCommand;
use ft_command::{Command, command_of};
use ft_edge::{Shelf, Sink, Source};
use std::alloc::Global;

/// Executes a command. Only `debug` reads the script.
fn obey<F: Shelf, I: Source, K: Sink>(
    alloc: Global,
    command: Command,
    shelf: &mut F,
    script: &mut I,
    out: &mut K,
) -> Ending
    requires few_steps { HasFewSteps (asked command) }
    requires turns { HasTurns (asked command) }
    ensures does { ForFiles (F.log shelf.old).files (F.agrees shelf.new) (λ told.
        ForScript (I.log script.old).left (I.heard script.old) (I.heard script.new) (I.may_be_left script.new) (λ left.
        Does (asked command.entry) result left
        (K.log out.old) (K.log out.new) (revealing told (F.log shelf.old)) (revealing told (F.log shelf.new))
        (FailsTaking (asked command.entry) told
        (I.log script.old) (I.log script.new)))) }
    ensures script { ForFiles (F.log shelf.old).files (F.agrees shelf.new) (λ told. TakesFor (asked command.entry) told
        (I.log script.old) (I.log script.new) ⊎ (script.new ≡ script.old)) }
    ensures script_failures { result ≢ Ending.LoadFailed → (I.log script.new).failures ≡ (I.log script.old).failures }
{
    match command {
        Command::Usage => put_usage(out),
        Command::Check(object) => over_object(alloc, CheckCommand { object }, shelf, out),
        Command::Run(run) => over_object(alloc, RunCommand { run }, shelf, out),
        Command::Trial(run) => over_object(alloc, TrialCommand { run }, shelf, out),
        Command::Recover(run) => over_object(alloc, RecoverCommand { run }, shelf, out),
        Command::Campaign(asked) => campaign_file(alloc, &asked, shelf, out),
        Command::Survey(asked) => survey_file(alloc, &asked, shelf, out),
        Command::Compile(source) => over_file(alloc, &CompileCommand { source }, shelf, out),
        Command::Exec(asked) => over_file(alloc, &ExecCommand { asked }, shelf, out),
        Command::Mean(asked) => over_file(alloc, &MeanCommand { asked }, shelf, out),
        Command::Debug(asked) => debug_file(alloc, &asked, shelf, script, out),
        Command::Demo(turns) => demonstrate(alloc, turns, out),
        Command::Upgrade(object) => over_file(alloc, &UpgradeCommand { object }, shelf, out),
        Command::Assemble(text) => over_file(alloc, &AssembleCommand { text }, shelf, out),
        Command::Disassemble(object) => {
            over_object(alloc, DisassembleCommand { object }, shelf, out)
        }
        Command::Schedule(object) => over_object(alloc, ScheduleCommand { object }, shelf, out),
        Command::Link(name) => link_file(alloc, name, shelf, out),
    }
}

/// Does what the words ask for.
fn carry_out<F: Shelf, I: Source, K: Sink>(
    alloc: Global,
    words: &[String],
    shelf: &mut F,
    script: &mut I,
    out: &mut K,
) -> Ending
    ensures ends { ForFiles (F.log shelf.old).files (F.agrees shelf.new) (λ told.
        ForScript (I.log script.old).left (I.heard script.old) (I.heard script.new) (I.may_be_left script.new) (λ left.
        Ends result (IsAnswer (map string_bytes words.now) told left)
        (K.log out.old) (K.log out.new)
        (FailedToLoad (map string_bytes words.now) (revealing told (F.log shelf.old)) (revealing told (F.log shelf.new))
        ⊎ FailedToTake (map string_bytes words.now) told
        (I.log script.old) (I.log script.new)))) }
    ensures usage { result ≡ Ending.Usage → Asks (map string_bytes words.now) Usage }
    ensures failures { part_end result ≢ Unwritten → (K.log out.new).failures ≡ (K.log out.old).failures }
    ensures load_failures { result ≢ Ending.LoadFailed → NoLoadFails
        (F.log shelf.old) (F.log shelf.new) }
    ensures script { ForFiles (F.log shelf.old).files (F.agrees shelf.new) (λ told. TakesFrom (map string_bytes words.now) told
        (I.log script.old) (I.log script.new) ⊎ (script.new ≡ script.old)) }
    ensures loads { ForFiles (F.log shelf.old).files (F.agrees shelf.new) (λ told.
        Loads (map string_bytes words.now) (IsTrue (ends_early result))
        (revealing told (F.log shelf.old)) (revealing told (F.log shelf.new))
        ⊎ ((result ≡ Ending.NoMemory) × HasMade [] (F.log shelf.old).asked (F.log shelf.new).asked)) }
    ensures script_failures { result ≢ Ending.LoadFailed → (I.log script.new).failures ≡ (I.log script.old).failures }
{
    match command_of(alloc, words) {
        Ok(command) => obey(alloc, command, shelf, script, out),
        Err(_) => Ending::NoMemory,
    }
}

/// Carries out a command line with the files of a shelf, and returns the exit status. Only `debug` reads the script.
pub fn tool<F: Shelf, I: Source, K: Sink>(
    alloc: Global,
    words: &[String],
    shelf: &mut F,
    script: &mut I,
    out: &mut K,
) -> u8
    ensures status { IsTrue (is_status result) }

    // The answer of the command that the words ask for was written, each piece with one put, and the result is its
    // status. So a source is compiled if and only if its text is a program. Its object is accepted, and the run commits
    // what the program means and ends if and only if the meaning ends. After any number of steps, the run of an
    // accepted object under its plan has the outputs and the status of the run without the strike, or it is detected
    // and its outputs are a prefix of those. A recovery writes the whole output of the run without the strike. The
    // object linked from accepted modules is accepted and runs as they do.
    ensures headline { result ≢ 3 → result ≢ 4 → result ≢ 5 →
        ForFiles (F.log shelf.old).files (F.agrees shelf.new) (λ told.
        ForScript (I.log script.old).left (I.heard script.old) (I.heard script.new) (I.may_be_left script.new) (λ left.
        Concludes (IsAnswer (map string_bytes words.now) told left) result
        (K.log out.old) (K.log out.new))) }
    ensures usage { result ≡ 2 → Asks (map string_bytes words.now) Usage }

    // A load of one of the command's files or a take of its script failed, and nothing was written.
    ensures load_failure { result ≡ 3 → ForFiles (F.log shelf.old).files (F.agrees shelf.new) (λ told.
        FailedToLoad (map string_bytes words.now) (revealing told (F.log shelf.old)) (revealing told (F.log shelf.new))
        ⊎ FailedToTake (map string_bytes words.now) told
        (I.log script.old) (I.log script.new)) }
    ensures load_failure_puts_nothing { result ≡ 3 → K.log out.new ≡ K.log out.old }

    // A put failed and was the last: all earlier pieces were written, and a prefix of the piece whose put failed. The
    // count of failed puts rose or is 2^64 - 1.
    ensures write_failure { result ≡ 4 →
        ForFiles (F.log shelf.old).files (F.agrees shelf.new) (λ told.
        ForScript (I.log script.old).left (I.heard script.old) (I.heard script.new) (I.may_be_left script.new) (λ left.
        BreaksOff (IsAnswer (map string_bytes words.now) told left)
        (K.log out.old) (K.log out.new))) }

    // Nothing was written. This status is meant to report that memory ran out.
    ensures no_memory_puts_nothing { result ≡ 5 → K.log out.new ≡ K.log out.old }

    // The count of failed puts is unchanged with any status but 4.
    ensures write_failures { result ≢ 4 → (K.log out.new).failures ≡ (K.log out.old).failures }

    // The counts of failed loads and takes are unchanged with any status but 3. The script is read only in a session on
    // an object, at most 1,048,577 bytes of it, and never again after its end or a failure. Only the files that the
    // request names are loaded, in its order and each up to its limit; a fault list or a module is loaded exactly
    // when the command gets to it, except that a fault list with the object's name is not loaded again. With statuses
    // 3 and 5, loads of fault lists and modules may be missing; with status 5, all loads may be.
    ensures load_failures { result ≢ 3 → NoLoadFails (F.log shelf.old) (F.log shelf.new) }
    ensures script { ForFiles (F.log shelf.old).files (F.agrees shelf.new) (λ told. TakesFrom (map string_bytes words.now) told
        (I.log script.old) (I.log script.new) ⊎ (script.new ≡ script.old)) }
    ensures loads { ForFiles (F.log shelf.old).files (F.agrees shelf.new) (λ told.
        Loads (map string_bytes words.now) (IsTrue (is_early result))
        (revealing told (F.log shelf.old)) (revealing told (F.log shelf.new))
        ⊎ ((result ≡ 5) × HasMade [] (F.log shelf.old).asked (F.log shelf.new).asked)) }
    ensures script_failures { result ≢ 3 → (I.log script.new).failures ≡ (I.log script.old).failures }
{
    match carry_out(alloc, words, shelf, script, out) {
        Ending::Done => 0,
        Ending::Detected => 1,
        Ending::Usage => 2,
        Ending::LoadFailed => 3,
        Ending::WriteFailed => 4,
        Ending::NoMemory => 5,
        Ending::SourceRefused => 6,
        Ending::ObjectRefused => 7,
        Ending::NotAccepted => 8,
        Ending::OutOfSteps => 9,
        Ending::Corrupt => 10,
        Ending::ListRefused => 11,
        Ending::TextRefused => 12,
        Ending::LinkRefused => 13,
    }
}
