//! Tests of a module when it is added, and of the blocks that the map's lines name.
ghost use Rattle.std.specs.Prelude.{◌≡◌, ◌<◌, ◌^◌, ◌&&◌, [], ◌∷◌, ◌++◌, IfErr, None, OnOk, length};
ghost use Rattle.std.specs.List.{list_all};
ghost use Rattle.std.specs.Option.{option_map};
ghost use Rattle.ft_types.specs.Spellable.{IsSpellable};
ghost use Rattle.ft_modules.specs.LinkRefusals.{NoBlock, are_few, first_without, is_plain_cell, lower_line, same_cells};
ghost use Rattle.ft_linker.specs.LinkErrors.{IsRefusalOf};
ghost use Rattle.ft_linker.specs.Linking.{added_refusal, cells_of};

use crate::blocks::first_fault;
use crate::cells::{are_plain_cells, have_plain_rows, same_cells};
use crate::lines::{first_without, lower_line};
use crate::link_error::LinkError;
use ft_link_map::LinkMap;
use ft_types::{Cell, Object, Table};

/// The cells that an object must have to be added to these objects.
fn first_cells<'a>(objects: &'a [Object], object: &'a Object) -> &'a Table<Cell>
    ensures { result.now ≡ cells_of objects.now object.now }
{
    if objects.len() == 0 {
        &object.cells
    } else {
        &objects[0].cells
    }
}

/// Whether an object has the same cells as the objects before it, and all these cells have base `int`.
fn has_cells(objects: &[Object], object: &Object) -> bool
    ensures { result ≡ (same_cells object.now.cells (cells_of objects.now object.now) && list_all is_plain_cell object.now.cells) }
{
    same_cells(&object.cells, first_cells(objects, object))
        && are_plain_cells(object.cells.as_slice())
}

/// Tests an object before it is added to these objects: its cells, its rows, the walk through its blocks, and the
/// totals.
pub fn check_module(objects: &[Object], object: &Object, few: bool) -> Result<(), LinkError>
    requires spelled { IsSpellable object.now }
    requires counted { length objects.now < 2 ^ 32 }
    requires few { few ≡ are_few (objects.now ++ object.now ∷ []) }
    ensures unrefused { OnOk result (added_refusal objects.now object.now ≡ None) }
    ensures refused { IfErr result (λ e. IsRefusalOf (added_refusal objects.now object.now) e) }
{
    let module = objects.len() as u32;
    if !has_cells(objects, object) {
        return Err(LinkError::Cells { module });
    }
    if !have_plain_rows(object.types.as_slice()) {
        return Err(LinkError::Rows { module });
    }
    if let Some((block, index)) = first_fault(object) {
        return Err(LinkError::Code {
            module,
            block,
            index,
        });
    }
    if !few {
        return Err(LinkError::TooBig { module });
    }
    Ok(())
}

/// Tests that the blocks of all exports and imports exist.
pub fn check_lines(objects: &[Object], linkage: &LinkMap) -> Result<(), LinkError>
    ensures unrefused { OnOk result (lower_line (first_without objects.now linkage.now.exports) (first_without objects.now linkage.now.imports) ≡ None) }
    ensures refused { IfErr result (λ e. IsRefusalOf (option_map NoBlock (lower_line (first_without objects.now linkage.now.exports) (first_without objects.now linkage.now.imports))) e) }
{
    let exports = first_without(objects, linkage.exports.as_slice());
    let imports = first_without(objects, linkage.imports.as_slice());
    match lower_line(exports, imports) {
        Some(line) => Err(LinkError::Block { line }),
        None => Ok(()),
    }
}
