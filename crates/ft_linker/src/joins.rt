//! Joins imports with the exports of their names, and finds what that changes.
ghost use Rattle.std.specs.Prelude.{◌≡◌, ◌<◌, ◌++◌, [], All, IfOk, OnOk, Some, find, length, map, slice_get};
ghost use Rattle.std.specs.List.{cons_option};
ghost use Rattle.std.specs.Option.{option_map};
ghost use Rattle.ft_types.specs.declared.object.Object.{Object as Module};
ghost use Rattle.ft_modules.specs.Linkable.{HasBlock};
ghost use Rattle.ft_modules.specs.Linked.{change_of, entry_by, laid, nothing_before};
ghost use Rattle.ft_modules.specs.Links.{export_of, link_by, links};
ghost use Rattle.ft_linker.specs.Changes.{Holds};
ghost use Rattle.ft_linker.specs.Tables.{CanBeLaid, start_part};

use crate::changes::{Changes, Target};
use crate::lines::find_export;
use ft_link_map::{Ask, LinkMap};
use ft_modules::Before;
use ft_types::{Block, Object};
use std::alloc::{AllocError, Global};

/// An imported block and the exported block that replaces it, each given by its module and its number in that module.
#[derive(Clone, Copy)]
pub struct Join {
    pub module_of: u32,
    pub block: u32,
    pub to_module: u32,
    pub to_block: u32,
}

ghost use Rattle.ft_linker.specs.Joins.{HasBoth, address_in, code_type_in, is_from, link_as, number_in};

/// Joins an import with the export of its name and adds it, if there is such an export.
fn push_join(joins: &mut Vec<Join>, linkage: &LinkMap, import: &Ask) -> Result<(), AllocError>
    ensures { OnOk result (map link_as joins.new.items ≡ map link_as joins.old.items ++ cons_option (link_by import.now (export_of linkage.now.exports import.now.name)) []) }
{
    match find_export(linkage.exports.as_slice(), &import.name) {
        Some(export) => {
            joins.push(Join {
                module_of: import.module,
                block: import.block,
                to_module: export.module,
                to_block: export.block,
            })?;
            Ok(())
        }
        None => Ok(()),
    }
}

/// The imports of a map that have an export of their name, each joined with it.
pub fn joined(alloc: Global, linkage: &LinkMap) -> Result<Vec<Join>, AllocError>
    ensures { IfOk result (λ v. map link_as v.items ≡ links linkage.now) }
{
    let mut joins = Vec::with_capacity(alloc, linkage.imports.len())?;
    for n in 0..linkage.imports.len() {
        let import = linkage.imports.at(n);
        push_join(&mut joins, linkage, import)?;
    }
    Ok(joins)
}

/// The totals before module `m`.
pub fn start_of(starts: &[Before], m: u32) -> Before
    requires { m < length starts.now }
    ensures { slice_get starts.now m ≡ Some result }
{
    starts[m as usize]
}

/// Block `b` of module `m`.
pub fn block_of(objects: &[Object], m: u32, b: u32) -> Block
    requires { HasBlock objects.now m b }
    ensures { (o : Module) → slice_get objects.now m ≡ Some o → slice_get o.blocks b ≡ Some result }
{
    let object = &objects[m as usize];
    *object.blocks.at(b as usize)
}

/// The code address of a block in the linked object.
fn address(objects: &[Object], starts: &[Before], m: u32, b: u32) -> u64
    requires can { CanBeLaid objects.now }
    requires starts { starts.now ≡ laid start_part nothing_before objects.now }
    requires there { HasBlock objects.now m b }
    ensures { result ≡ address_in objects.now m b }
{
    let start = start_of(starts, m);
    let block = block_of(objects, m, b);
    let at = start.instrs + block.start;
    1 + at as u64
}

/// The code type of a block in the linked object.
fn code_type(objects: &[Object], starts: &[Before], m: u32, b: u32) -> u16
    requires can { CanBeLaid objects.now }
    requires starts { starts.now ≡ laid start_part nothing_before objects.now }
    requires there { HasBlock objects.now m b }
    ensures { result ≡ code_type_in objects.now m b }
{
    let start = start_of(starts, m);
    let block = block_of(objects, m, b);
    let at = start.types + block.code_type;
    at as u16
}

/// The number of a block in the linked object.
fn number(objects: &[Object], starts: &[Before], m: u32, b: u32) -> u32
    requires can { CanBeLaid objects.now }
    requires starts { starts.now ≡ laid start_part nothing_before objects.now }
    requires there { HasBlock objects.now m b }
    ensures { result ≡ number_in objects.now m b }
{
    let start = start_of(starts, m);
    let at = start.blocks + b;
    at
}

/// The changes of addresses that the joins make.
pub fn changes_of(
    alloc: Global,
    objects: &[Object],
    starts: &[Before],
    joins: &[Join],
) -> Result<Changes, AllocError>
    requires can { CanBeLaid objects.now }
    requires starts { starts.now ≡ laid start_part nothing_before objects.now }
    requires there { All (HasBoth objects.now) joins.now }
    ensures { IfOk result (λ h. Holds h (map (change_of objects.now) (map link_as joins.now))) }
{
    let mut changes = Changes::new(alloc);
    for i in (0..joins.len()).rev() {
        let join = joins[i];
        let from = address(objects, starts, join.module_of, join.block);
        let to = address(objects, starts, join.to_module, join.to_block);
        let kind = code_type(objects, starts, join.to_module, join.to_block);
        let target = Target {
            address: to,
            code_type: kind,
        };
        changes.send(from, target)?;
    }
    Ok(changes)
}

/// Whether a join is from this block of the first module.
fn is_from(join: Join, entry: u32) -> bool
    ensures { result ≡ is_from entry (link_as join) }
{
    join.module_of == 0 && join.block == entry
}

/// The join of this block of the first module.
fn find_join(joins: &[Join], entry: u32) -> Option<Join>
    ensures { option_map link_as result ≡ find (is_from entry) (map link_as joins.now) }
{
    for i in 0..joins.len() {
        let join = joins[i];
        if is_from(join, entry) {
            return Some(join);
        }
    }
    None
}

/// The entry block of the first module.
fn first_entry(objects: &[Object]) -> u32
    requires { 0 < length objects.now }
    ensures { (first : Module) → slice_get objects.now 0 ≡ Some first → result ≡ first.entry }
{
    let object = &objects[0];
    object.entry
}

/// The entry of the linked object.
pub fn entry_of(objects: &[Object], starts: &[Before], joins: &[Join]) -> u32
    requires can { CanBeLaid objects.now }
    requires starts { starts.now ≡ laid start_part nothing_before objects.now }
    requires there { All (HasBoth objects.now) joins.now }
    requires some { 0 < length objects.now }
    ensures { (first : Module) → slice_get objects.now 0 ≡ Some first → result ≡ entry_by objects.now first.entry (find (is_from first.entry) (map link_as joins.now)) }
{
    let entry = first_entry(objects);
    match find_join(joins, entry) {
        Some(join) => number(objects, starts, join.to_module, join.to_block),
        None => entry,
    }
}
