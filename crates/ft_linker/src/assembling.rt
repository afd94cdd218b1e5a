//! Assembles the linked object from the laid tables.
ghost use Rattle.std.specs.Prelude.{◌≡◌, ◌<◌, ◌∷◌, All, IfOk, Some, length, map, slice_get};
ghost use Rattle.std.specs.Prelude.{List};
ghost use Rattle.ft_types.specs.declared.object.Object.{Object as Module};
ghost use Rattle.ft_modules.specs.Linked.{linked};
ghost use Rattle.ft_modules.specs.Links.{links};
ghost use Rattle.ft_linker.specs.Tables.{AreLaid, CanBeLaid};
ghost use Rattle.ft_linker.specs.Joins.{HasBoth, link_as};
ghost use Rattle.ft_linker.specs.declared.joins.Join.{Join};

use crate::joins::{changes_of, entry_of, joined};
use crate::laying::Laid;
use ft_link_map::LinkMap;
use ft_types::{Cell, Object, Table, copy_cells};
use std::alloc::{AllocError, Global};

/// A copy of the first object's cells.
fn first_cells(alloc: Global, objects: &[Object]) -> Result<Table<Cell>, AllocError>
    requires can { CanBeLaid objects.now }
    requires some { 0 < length objects.now }
    ensures { IfOk result (λ t. (first : Module) → slice_get objects.now 0 ≡ Some first → t ≡ first.cells) }
{
    match copy_cells(alloc, &objects[0]) {
        Ok(cells) => Ok(cells),
        Err(_) => Err(AllocError),
    }
}

/// The linked object of modules that have been laid.
pub fn put_together(
    alloc: Global,
    objects: &[Object],
    linkage: &LinkMap,
    laid: Laid,
) -> Result<Object, AllocError>
    requires can { CanBeLaid objects.now }
    requires some { 0 < length objects.now }
    requires tables { AreLaid objects.now laid }
    requires joins { (js : List Join) → map link_as js ≡ links linkage.now → All (HasBoth objects.now) js }
    ensures { IfOk result (λ o. (first : Module) (others : List Module) → objects.now ≡ first ∷ others → o ≡ linked linkage.now first others) }
{
    let Laid {
        starts,
        nodes,
        types,
        blocks,
        mut instrs,
        substs,
    } = laid;
    let joins = joined(alloc, linkage)?;
    let starts = starts.as_slice();
    let links = joins.as_slice();
    let changes = changes_of(alloc, objects, starts, links)?;
    changes.change(instrs.as_mut_slice());
    let entry = entry_of(objects, starts, links);
    let cells = first_cells(alloc, objects)?;
    Ok(Object {
        cells,
        nodes: Table::from_vec(nodes),
        types: Table::from_vec(types),
        blocks: Table::from_vec(blocks),
        instrs: Table::from_vec(instrs),
        substs: Table::from_vec(substs),
        entry,
    })
}
