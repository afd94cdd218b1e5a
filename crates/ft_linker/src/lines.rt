//! Tests of a map's lines against the modules.
ghost use Rattle.std.specs.Prelude.{◌≡◌, ◌<◌, length, Some, IfSome, IfNone, None, IfErr, OnOk, true};
ghost use Rattle.ft_types.specs.Spellable.{IsSpellable};
ghost use Rattle.ft_types.specs.Objects.{block_instrs};
ghost use Rattle.ft_modules.specs.Links.{export_of};
ghost use Rattle.ft_modules.specs.LinkRefusals.{first_without, has_block, is_halt, is_stub, lower_line};

use crate::blocks::block_range;
use crate::cells::same_name;
use ft_isa::Instr;
use ft_link_map::Ask;
use ft_types::{Object, Table};

/// Whether the block of an export or import exists.
#[tactic(auto, using(crate::proofs::JoinedBlocks::has_block_there, crate::proofs::JoinedBlocks::has_no_block))]
fn has_block(objects: &[Object], ask: &Ask) -> bool
    ensures { result ≡ has_block objects.now ask.now.module ask.now.block }
{
    let m = ask.module as usize;
    if m < objects.len() {
        (ask.block as usize) < objects[m].blocks.len()
    } else {
        false
    }
}

/// The line of the first export or import whose block does not exist.
pub fn first_without(objects: &[Object], asks: &[Ask]) -> Option<u32>
    ensures { result ≡ first_without objects.now asks.now }
{
    for n in 0..asks.len() {
        let ask = &asks[n];
        if !has_block(objects, ask) {
            return Some(ask.line);
        }
    }
    None
}

/// The lower of two line numbers.
pub fn lower_line(a: Option<u32>, b: Option<u32>) -> Option<u32>
    ensures { result ≡ lower_line a b }
{
    match (a, b) {
        (Some(a), Some(b)) => Some(a.min(b)),
        (Some(a), None) => Some(a),
        (None, b) => b,
    }
}

/// Whether an instruction is `halt`.
fn is_halt(instr: Instr) -> bool
    ensures { result ≡ is_halt instr }
{
    match instr {
        Instr::Halt => true,
        _ => false,
    }
}

/// Whether block `b` consists of the single instruction `halt`.
pub fn is_stub(object: &Object, b: u32) -> bool
    requires spelled { IsSpellable object.now }
    requires there { b < length object.now.blocks }
    ensures { result ≡ is_stub (block_instrs object.now b) }
{
    let (first, past) = block_range(object, b);
    let is_one = past - first == 1;
    if !is_one {
        return false;
    }
    let instr = *object.instrs.at(first as usize);
    is_halt(instr)
}

/// The export of a name.
pub fn find_export<'a>(exports: &'a [Ask], name: &Table<u8>) -> Option<&'a Ask>
    ensures found { IfSome result (λ e. export_of exports.now name.now ≡ Some e.now) }
    ensures none { IfNone result (export_of exports.now name.now ≡ None) }
{
    for n in 0..exports.len() {
        let export = &exports[n];
        if same_name(&export.name, name) {
            return Some(export);
        }
    }
    None
}
