//! Links modules into the caller's buffer.
ghost use Rattle.std.specs.Prelude.{◌≡◌, ◌≢◌, ◌≤◌, ◌⊎◌, [], length, IfErr, IfOk, OnOk};
ghost use Rattle.std.specs.Option.{option_map};
ghost use Rattle.ft_types.specs.Spellable.{IsSpellable};
ghost use Rattle.ft_link_map.specs.Sound.{IsSound};
ghost use Rattle.ft_linker.specs.Linking.{refusal_of};
ghost use Rattle.ft_embed.specs.Links.{AddsAll, AddsObject, EndsAtModule, EndsAtObject, EndsInTurn, IsAddedTo, IsLinkedAll, IsLinkedOf, IsUnlinked, IsUnlinkedBy, bytes_of};
ghost use Rattle.ft_embed.specs.Texts.{Given};
ghost use Rattle.ft_embed.specs.Verdicts.{nothing as nothing_told};

use crate::handing::{Written, hand_over, none_written, not_written};
use crate::refused::{nothing, told_error};
use crate::unlinked::{
    Module, Unlinked, bad_map, no_room, refuse_map, refuse_module, refuse_modules,
};
use ft_checker::check_uncounted;
use ft_link_map::{LinkMap, read_map};
use ft_linker::Linker;
use ft_object::encode;
use ft_types::Program;
use ft_view::View;
use std::alloc::Global;

/// The maximum size of a link map in bytes.
const MAP_LIMIT: usize = 65_536;

/// The bytes of the first module with this name.
fn bytes_of<'a>(given: &[Module<'a>], name: &[u8]) -> Option<&'a [u8]>
    ensures { option_map (λ b. b.now) result ≡ bytes_of given.now name.now }
{
    for module in given {
        if module.name == name {
            return Some(module.bytes);
        }
    }
    None
}

/// Checks an object and adds it to the linker.
fn add_object<P: Program>(
    alloc: Global,
    program: &P,
    linker: &mut Linker,
    number: u32,
) -> Result<(), Unlinked>
    requires spellable { IsSpellable (P.object program.now) }
    requires number { number ≡ length linker.old }
    ensures ok { OnOk result (AddsObject linker.old (P.object program.now) linker.new) }
    ensures err { IfErr result (λ u. u.status ≢ 5 → EndsAtObject linker.old (P.object program.now) u) }
    ensures some { IfErr result (λ u. (u.status ≢ 0) × (u.status ≢ 15)) }
    ensures unrefused { IfErr result (λ u. u.status ≡ 5 → u.why ≡ nothing_told) }
{
    match check_uncounted(alloc, program) {
        Ok(checked) => match linker.add(&checked) {
            Ok(()) => Ok(()),
            Err(error) => Err(refuse_modules(error)),
        },
        Err(error) => Err(refuse_module(error, number)),
    }
}

/// Finds the module with this name, checks its object and adds it to the linker.
fn add_module(
    alloc: Global,
    given: &[Module],
    name: &[u8],
    linker: &mut Linker,
    number: u32,
) -> Result<(), Unlinked>
    requires { number ≡ length linker.old }
    ensures ok { OnOk result (IsAddedTo given.now linker.old name.now linker.new) }
    ensures err { IfErr result (λ u. u.status ≢ 5 → EndsAtModule given.now linker.old name.now u) }
    ensures some { IfErr result (λ u. (u.status ≢ 0) × (u.status ≢ 15)) }
    ensures unrefused { IfErr result (λ u. u.status ≡ 5 → u.why ≡ nothing_told) }
{
    let Some(bytes) = bytes_of(given, name) else {
        return Err(Unlinked {
            status: 20,
            module: number,
            why: nothing(),
        });
    };
    match View::over(bytes) {
        Ok(view) => add_object(alloc, &view, linker, number),
        Err(error) => Err(Unlinked {
            status: 7,
            module: number,
            why: told_error(error),
        }),
    }
}

/// Adds the modules of a map to the linker in order.
fn add_modules(
    alloc: Global,
    given: &[Module],
    linkage: &LinkMap,
    linker: &mut Linker,
) -> Result<(), Unlinked>
    requires none { linker.old ≡ [] }
    requires few { length linkage.now.files ≤ 64 }
    ensures ok { OnOk result (AddsAll given.now [] linkage.now.files linker.new) }
    ensures long { OnOk result (length linker.new ≡ length linkage.now.files) }
    ensures err { IfErr result (λ u. u.status ≢ 5 → EndsInTurn given.now [] linkage.now.files u) }
    ensures some { IfErr result (λ u. (u.status ≢ 0) × (u.status ≢ 15)) }
    ensures unrefused { IfErr result (λ u. u.status ≡ 5 → u.why ≡ nothing_told) }
{
    let files = linkage.files.as_slice();
    let mut number = 0;
    for file in files {
        match add_module(alloc, given, file.as_slice(), linker, number) {
            Ok(()) => {}
            Err(unlinked) => return Err(unlinked),
        }
        number += 1;
    }
    Ok(())
}

/// Links the modules that were added, and returns the bytes of the object.
fn link_added(alloc: Global, linker: Linker, linkage: &LinkMap) -> Result<Vec<u8>, Unlinked>
    requires sound { IsSound linkage.now }
    requires modules { length linker ≡ length linkage.now.files }
    ensures ok { IfOk result (λ bytes. IsLinkedAll linkage.now linker bytes.items) }
    ensures err { IfErr result (λ u. u.status ≢ 5 → IsUnlinkedBy (refusal_of linkage.now linker) u) }
    ensures some { IfErr result (λ u. (u.status ≢ 0) × (u.status ≢ 15)) }
    ensures unrefused { IfErr result (λ u. u.status ≡ 5 → u.why ≡ nothing_told) }
{
    match linker.finish(linkage) {
        Ok(object) => match encode(alloc, &object) {
            Ok(bytes) => Ok(bytes),
            Err(_) => Err(no_room()),
        },
        Err(error) => Err(refuse_modules(error)),
    }
}

/// Links modules as the map in a text says, and returns the bytes of the object.
fn link_bytes(alloc: Global, text: &[u8], given: &[Module]) -> Result<Vec<u8>, Unlinked>
    ensures ok { IfOk result (λ bytes. IsLinkedOf given.now text.now bytes.items) }
    ensures err { IfErr result (λ u. u.status ≢ 5 → IsUnlinked given.now text.now u) }
    ensures some { IfErr result (λ u. (u.status ≢ 0) × (u.status ≢ 15)) }
    ensures unrefused { IfErr result (λ u. u.status ≡ 5 → u.why ≡ nothing_told) }
{
    if text.len() > MAP_LIMIT {
        return Err(bad_map(11, 65_536));
    }
    let linkage = match read_map(alloc, text) {
        Ok(linkage) => linkage,
        Err(error) => return Err(refuse_map(error)),
    };
    let Ok(mut linker) = Linker::new(alloc) else {
        return Err(no_room());
    };
    match add_modules(alloc, given, &linkage, &mut linker) {
        Ok(()) => link_added(alloc, linker, &linkage),
        Err(unlinked) => Err(unlinked),
    }
}

/// The result of a link: what was written, and the number of the module that is refused, if any.
#[derive(Clone, Copy)]
pub struct LinkAnswer {
    pub written: Written,
    pub module: u32,
}

/// Links modules as a link map says, and writes the object in version 2 of the format. The map names the file of each
/// module, and the first module in the array with that name is used. The status is 0 on success; 15 if the bytes do not
/// fit; 13 if the map is refused or the modules cannot be linked; 7 or 8 if the bytes of a module are refused; 20 if
/// the map gives a name that no module has; or 5 if memory runs out.
pub fn link_into(alloc: Global, text: &[u8], given: &[Module], out: &mut [u8]) -> LinkAnswer
    ensures linked { (result.written.status ≡ 0) ⊎ (result.written.status ≡ 15) → Given (IsLinkedOf given.now text.now) out.old out.new result.written.made result.written.status }
    ensures unlinked { result.written.status ≢ 0 → result.written.status ≢ 5 → result.written.status ≢ 15
        → IsUnlinked given.now text.now (record { status = result.written.status; «module» = result.«module»; why = result.written.why }) }
    ensures kept { result.written.status ≢ 0 → out.new ≡ out.old }
    ensures unmade { result.written.status ≢ 0 → result.written.status ≢ 15 → result.written.made ≡ 0 }
    ensures unrefused { (result.written.status ≡ 0) ⊎ (result.written.status ≡ 5) ⊎ (result.written.status ≡ 15) → result.written.why ≡ nothing_told }
{
    match link_bytes(alloc, text, given) {
        Ok(bytes) => LinkAnswer {
            written: hand_over(bytes.as_slice(), out),
            module: 0,
        },
        Err(unlinked) => LinkAnswer {
            written: not_written(unlinked.status, unlinked.why),
            module: unlinked.module,
        },
    }
}
