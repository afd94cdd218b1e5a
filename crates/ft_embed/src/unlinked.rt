//! The modules of a link, and why they cannot be linked.
ghost use Rattle.std.specs.Prelude.{◌≡◌, ◌≢◌, List, ℕ, Option};
ghost use Rattle.ft_typing.specs.Accepted.{Refusal};
ghost use Rattle.ft_checker.specs.Judges.{IsRefusalOf as IsCheckRefusalOf};
ghost use Rattle.ft_link_map.specs.MapAnswers.{Answer, IsRefusal};
ghost use Rattle.ft_modules.specs.LinkRefusals.{LinkRefusal};
ghost use Rattle.ft_linker.specs.LinkErrors.{IsRefusalOf};
ghost use Rattle.ft_embed.specs.Links.{IsUnaccepted, IsUnlinkedBy, SaidUnlinked, bad_map, told_link};
ghost use Rattle.ft_embed.specs.Verdicts.{nothing as nothing_told};

use crate::checking::refuse;
use crate::refused::{Refused, nothing};
use ft_checker::CheckError;
use ft_link_map::MapError;
use ft_linker::LinkError;

/// A module of a link: the name of its file in the map, and the bytes of its object.
#[repr(C)]
#[derive(Clone, Copy)]
pub struct Module<'a> {
    pub name: &'a [u8],
    pub bytes: &'a [u8],
}

/// Why modules cannot be linked: a status; the number of the module that the refusal is about, counted from 0 in the
/// order of the map, or 0 if the refusal is about a line; and the refusal.
#[derive(Clone, Copy)]
pub struct Unlinked {
    pub status: u32,
    pub module: u32,
    pub why: Refused,
}

/// A refusal of a link with one number.
fn told_link(number: u32, place: u64) -> Refused
    ensures { result ≡ told_link number place }
{
    Refused {
        part: 7,
        number,
        place,
        index: 0,
    }
}

/// The result if memory ran out.
pub(crate) fn no_room() -> Unlinked
    ensures status { result.status ≡ 5 }
    ensures unrefused { result.why ≡ nothing_told }
{
    Unlinked {
        status: 5,
        module: 0,
        why: nothing(),
    }
}

/// The result for a map that is refused with this number and this place.
pub(crate) fn bad_map(number: u32, place: u64) -> Unlinked
    ensures { result ≡ bad_map number place }
{
    Unlinked {
        status: 13,
        module: 0,
        why: told_link(number, place),
    }
}

/// The result for a map that is refused, given the error.
pub(crate) fn refuse_map(error: MapError) -> Unlinked
    ensures told { (said : Answer) → IsRefusal error said → result.status ≢ 5 → SaidUnlinked said result }
    ensures some { (result.status ≢ 0) × (result.status ≢ 15) }
    ensures unrefused { result.status ≡ 5 → result.why ≡ nothing_told }
{
    match error {
        MapError::Line { line } => bad_map(1, line as u64),
        MapError::Twice { line } => bad_map(2, line as u64),
        MapError::NoMemory => no_room(),
    }
}

/// The result for modules that cannot be linked, with this refusal.
fn link_refused(module: u32, why: Refused) -> Unlinked
    ensures { result ≡ record { status = 13; «module» = «module»; why = why } }
{
    Unlinked {
        status: 13,
        module,
        why,
    }
}

/// The result for modules that cannot be linked, given the error.
pub(crate) fn refuse_modules(error: LinkError) -> Unlinked
    ensures told { (x : Option LinkRefusal) → IsRefusalOf x error → result.status ≢ 5 → IsUnlinkedBy x result }
    ensures some { (result.status ≢ 0) × (result.status ≢ 15) }
    ensures unrefused { result.status ≡ 5 → result.why ≡ nothing_told }
{
    match error {
        LinkError::Cells { module } => link_refused(module, told_link(3, module as u64)),
        LinkError::Rows { module } => link_refused(module, told_link(4, module as u64)),
        LinkError::Code {
            module,
            block,
            index,
        } => link_refused(
            module,
            Refused {
                part: 7,
                number: 5,
                place: block as u64,
                index: index as u64,
            },
        ),
        LinkError::TooBig { module } => link_refused(module, told_link(6, module as u64)),
        LinkError::Block { line } => link_refused(0, told_link(7, line as u64)),
        LinkError::Stub { line } => link_refused(0, told_link(8, line as u64)),
        LinkError::Missing { line } => link_refused(0, told_link(9, line as u64)),
        LinkError::Types { line } => link_refused(0, told_link(10, line as u64)),
        LinkError::NoMemory => no_room(),
    }
}

/// The result for a module that is not accepted, or if memory ran out.
#[tactic(auto, using(crate::proofs::LinkTurns::some_status))]
pub(crate) fn refuse_module(error: CheckError, module: u32) -> Unlinked
    ensures told { (x : Option Refusal) → IsCheckRefusalOf x error → result.status ≢ 5 → IsUnaccepted x «module» result }
    ensures some { (result.status ≢ 0) × (result.status ≢ 15) }
    ensures unrefused { result.status ≡ 5 → result.why ≡ nothing_told }
{
    let verdict = refuse(error);
    Unlinked {
        status: verdict.status,
        module,
        why: verdict.why,
    }
}
