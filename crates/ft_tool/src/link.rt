//! The command `link`.
ghost use Rattle.std.specs.Prelude.{◌≡◌, ◌≢◌, ◌≤◌, [], ◌∷◌, All, IsAscii, IsTrue, length, OnOk, IfErr};
ghost use Rattle.ft_command.specs.Commands.{Links};
ghost use Rattle.ft_types.specs.Spellable.{IsSpellable};
ghost use Rattle.ft_link_map.specs.Sound.{IsSound};
ghost use Rattle.ft_edge.specs.Logs.{LoadFails, NoLoadFails};
ghost use Rattle.ft_tool.specs.Answers.{FailsIn};
ghost use Rattle.ft_tool.specs.Calls.{HasMade, LoadsLink, object_load};
ghost use Rattle.ft_tool.specs.Endings.{Ends, ends_early};
ghost use Rattle.ft_tool.specs.Links.{EndsAtObject, IsMap, LinksAdded, LinksFiles, LinksFile, LinksText};
ghost use Rattle.ft_tool.specs.LinkTurns.{AddsObject, AddsFile, EndsWithFile, FailsInTurn, HasAdded, MakesInTurn, MakesOfText};
ghost use Rattle.ft_tool.specs.Known.{ForFiles, revealing};
ghost use Rattle.ft_edge.specs.Loads.{Files};
ghost use Rattle.ft_tool.specs.Told.{OfFiles};

use crate::ending::{Ending, put_object, refuse_check, refuse_object};
use crate::load::{MAP_LIMIT, load_bytes, load_object};
use crate::unlinked::{put_link_line, refuse_map, refuse_modules};
use ft_checker::check_uncounted;
use ft_edge::{Load, LoadFault, Shelf, Sink};
use ft_link_map::{LinkMap, read_map};
use ft_linker::Linker;
use ft_types::{Program, Table};
use std::alloc::Global;

/// The name of a module's file as a string.
fn name_of(file: &Table<u8>) -> &str
    requires { IsAscii file.now }
    ensures { result.now ≡ file.now }
{
    let Ok(name) = str::from_utf8(file.as_slice()) else {
        unreachable!()
    };
    name
}

/// Checks an object and adds it to the linker, or ends the link.
fn add_object<P: Program, K: Sink>(
    alloc: Global,
    program: &P,
    linker: &mut Linker,
    out: &mut K,
) -> Result<(), Ending>
    requires { IsSpellable (P.object program.now) }
    ensures ok { OnOk result (AddsObject linker.old (P.object program.now) linker.new) }
    ensures untouched { OnOk result (out.new ≡ out.old) }
    ensures ends { IfErr result (λ e. Ends e (EndsAtObject linker.old (P.object program.now))
        (K.log out.old) (K.log out.new) ⊥) }
{
    match check_uncounted(alloc, program) {
        Ok(checked) => match linker.add(&checked) {
            Ok(()) => Ok(()),
            Err(error) => Err(refuse_modules(error, out)),
        },
        Err(error) => Err(refuse_check(error, out)),
    }
}

/// Loads an object, checks it and adds it to the linker, or ends the link.
fn add_file<F: Shelf, K: Sink>(
    alloc: Global,
    name: &str,
    linker: &mut Linker,
    shelf: &mut F,
    out: &mut K,
) -> Result<(), Ending>
    ensures ok { OnOk result (ForFiles (F.log shelf.old).files (F.agrees shelf.new) (λ told.
        AddsFile told name.now linker.old linker.new)) }
    ensures untouched { OnOk result (out.new ≡ out.old) }
    ensures ends { IfErr result (λ e. ForFiles (F.log shelf.old).files (F.agrees shelf.new) (λ told.
        Ends e (EndsWithFile told linker.old name.now)
        (K.log out.old) (K.log out.new)
        (LoadFails name.now (F.log shelf.old) (F.log shelf.new)))) }
    ensures earlier { (files : Files) → F.agrees shelf.new files → F.agrees shelf.old files }
    ensures files { (F.log shelf.new).files ≡ (F.log shelf.old).files }
    ensures load_failures { result ≢ Err Ending.LoadFailed → NoLoadFails
        (F.log shelf.old) (F.log shelf.new) }
    ensures made { HasMade (object_load name.now ∷ []) (F.log shelf.old).asked (F.log shelf.new).asked }
{
    let mut bytes = Vec::new(alloc);
    match load_object(name, shelf, &mut bytes) {
        Ok(view) => add_object(alloc, &view, linker, out),
        Err(fault) => Err(refuse_object(fault, out)),
    }
}

/// Adds the modules of a map to the linker in order, or ends the link.
fn add_files<F: Shelf, K: Sink>(
    alloc: Global,
    linkage: &LinkMap,
    linker: &mut Linker,
    shelf: &mut F,
    out: &mut K,
) -> Result<(), Ending>
    requires none { linker.old ≡ [] }
    requires names { All IsAscii linkage.now.files }
    ensures ok { OnOk result (ForFiles (F.log shelf.old).files (F.agrees shelf.new) (λ told.
        HasAdded told linkage.now linker.new [] (F.log shelf.old).asked (F.log shelf.new).asked)) }
    ensures untouched { OnOk result (out.new ≡ out.old) }
    ensures ends { IfErr result (λ e. ForFiles (F.log shelf.old).files (F.agrees shelf.new) (λ told.
        Ends e (LinksFiles told linkage.now [] linkage.now.files)
        (K.log out.old) (K.log out.new)
        (FailsInTurn linkage.now (revealing told (F.log shelf.old)) (revealing told (F.log shelf.new))))) }
    ensures earlier { (files : Files) → F.agrees shelf.new files → F.agrees shelf.old files }
    ensures load_failures { result ≢ Err Ending.LoadFailed → NoLoadFails
        (F.log shelf.old) (F.log shelf.new) }
    ensures made { IfErr result (λ e. ForFiles (F.log shelf.old).files (F.agrees shelf.new) (λ told.
        MakesInTurn told linkage.now (ends_early e) (F.log shelf.old).asked (F.log shelf.new).asked)) }
{
    let files = linkage.files.as_slice();
    for file in files {
        match add_file(alloc, name_of(file), linker, shelf, out) {
            Ok(()) => {}
            Err(ending) => return Err(ending),
        }
    }
    Ok(())
}

/// Links the modules that were added, and writes the object.
fn put_linked<K: Sink>(alloc: Global, linker: Linker, linkage: &LinkMap, out: &mut K) -> Ending
    requires sound { IsSound linkage.now }
    requires modules { length linker ≡ length linkage.now.files }
    ensures { Ends result (LinksAdded linkage.now linker)
        (K.log out.old) (K.log out.new) ⊥ }
{
    match linker.finish(linkage) {
        Ok(object) => put_object(alloc, &object, out),
        Err(error) => refuse_modules(error, out),
    }
}

/// Links the modules of a map, and writes the object.
fn link_files<F: Shelf, K: Sink>(
    alloc: Global,
    linkage: &LinkMap,
    shelf: &mut F,
    out: &mut K,
) -> Ending
    requires sound { IsSound linkage.now }
    requires names { All IsAscii linkage.now.files }
    ensures ends { ForFiles (F.log shelf.old).files (F.agrees shelf.new) (λ told.
        Ends result (LinksFiles told linkage.now [] linkage.now.files)
        (K.log out.old) (K.log out.new)
        (FailsInTurn linkage.now (revealing told (F.log shelf.old)) (revealing told (F.log shelf.new)))) }
    ensures earlier { (files : Files) → F.agrees shelf.new files → F.agrees shelf.old files }
    ensures load_failures { result ≢ Ending.LoadFailed → NoLoadFails
        (F.log shelf.old) (F.log shelf.new) }
    ensures made { ForFiles (F.log shelf.old).files (F.agrees shelf.new) (λ told.
        MakesInTurn told linkage.now (ends_early result) (F.log shelf.old).asked (F.log shelf.new).asked) }
{
    let Ok(mut linker) = Linker::new(alloc) else {
        return Ending::NoMemory;
    };
    match add_files(alloc, linkage, &mut linker, shelf, out) {
        Ok(()) => put_linked(alloc, linker, linkage, out),
        Err(ending) => ending,
    }
}

/// Reads a link map, links its modules and writes the object.
fn link_text<F: Shelf, K: Sink>(alloc: Global, text: &[u8], shelf: &mut F, out: &mut K) -> Ending
    requires { length text.now ≤ 65536 }
    ensures ends { ForFiles (F.log shelf.old).files (F.agrees shelf.new) (λ told. Ends result (LinksText told text.now)
        (K.log out.old) (K.log out.new)
        ((linkage : LinkMap) × (IsMap text.now linkage × FailsInTurn linkage
        (revealing told (F.log shelf.old)) (revealing told (F.log shelf.new))))) }
    ensures earlier { (files : Files) → F.agrees shelf.new files → F.agrees shelf.old files }
    ensures load_failures { result ≢ Ending.LoadFailed → NoLoadFails
        (F.log shelf.old) (F.log shelf.new) }
    ensures made { ForFiles (F.log shelf.old).files (F.agrees shelf.new) (λ told.
        MakesOfText told text.now (ends_early result) (F.log shelf.old).asked (F.log shelf.new).asked) }
{
    match read_map(alloc, text) {
        Ok(linkage) => link_files(alloc, &linkage, shelf, out),
        Err(error) => refuse_map(error, out),
    }
}

/// Loads a link map, links its modules and writes the object.
pub(crate) fn link_file<F: Shelf, K: Sink>(
    alloc: Global,
    name: &str,
    shelf: &mut F,
    out: &mut K,
) -> Ending
    ensures ends { ForFiles (F.log shelf.old).files (F.agrees shelf.new) (λ told. Ends result (LinksFile told name.now)
        (K.log out.old) (K.log out.new)
        (OfFiles told (λ files. FailsIn (Links name.now) files
        (revealing told (F.log shelf.old)) (revealing told (F.log shelf.new))))) }
    ensures load_failures { result ≢ Ending.LoadFailed → NoLoadFails
        (F.log shelf.old) (F.log shelf.new) }
    ensures made { ForFiles (F.log shelf.old).files (F.agrees shelf.new) (λ told.
        LoadsLink told name.now (IsTrue (ends_early result)) (F.log shelf.old).asked (F.log shelf.new).asked) }
{
    let mut text = Vec::new(alloc);
    match load_bytes(name, MAP_LIMIT, shelf, &mut text) {
        Ok(Load::Whole) => link_text(alloc, text.as_slice(), shelf, out),
        Ok(Load::TooLong) => put_link_line(11, 65_536, out),
        Err(LoadFault::Failed) => Ending::LoadFailed,
        Err(LoadFault::NoMemory) => Ending::NoMemory,
    }
}
