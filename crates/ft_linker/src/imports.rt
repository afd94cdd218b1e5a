//! Tests of imports against the exports of their names.
ghost use Rattle.std.specs.Prelude.{◌≡◌, All, IfErr, None, OnOk, slice_get};
ghost use Rattle.ft_modules.specs.Linkable.{HasBlock};
ghost use Rattle.ft_modules.specs.Links.{type_in};
ghost use Rattle.ft_modules.specs.LinkRefusals.{import_refusal, imports_refusal, like_in};
ghost use Rattle.ft_link_map.specs.declared.link_map.Ask.{Ask as Named};
ghost use Rattle.ft_linker.specs.LinkErrors.{IsRefusalOf};
ghost use Rattle.ft_linker.specs.Joins.{AreReady};

use crate::joins::{block_of, start_of};
use crate::laying::Laid;
use crate::lines::{find_export, is_stub};
use crate::link_error::LinkError;
use crate::types::{Numbered, same_types};
use ft_link_map::Ask;
use ft_types::{Object, Table};

/// Whether the code types of an imported and an exported block agree.
fn like_blocks(objects: &[Object], laid: &Laid, numbers: &[u32], import: &Ask, export: &Ask) -> bool
    requires ready { AreReady objects.now laid.now numbers.now }
    requires from { HasBlock objects.now import.now.module import.now.block }
    requires to { HasBlock objects.now export.now.module export.now.block }
    ensures { result ≡ like_in (slice_get objects.now import.now.module) (type_in objects.now import.now.module import.now.block) (slice_get objects.now export.now.module) (type_in objects.now export.now.module export.now.block) }
{
    let starts = laid.starts.as_slice();
    let from = start_of(starts, import.module);
    let to = start_of(starts, export.module);
    let one = block_of(objects, import.module, import.block);
    let other = block_of(objects, export.module, export.block);
    let m = import.module as usize;
    let a = &objects[m];
    let n = export.module as usize;
    let b = &objects[n];
    let a = Numbered {
        object: a,
        first: from.nodes,
    };
    let b = Numbered {
        object: b,
        first: to.nodes,
    };
    same_types(numbers, a, one.code_type, b, other.code_type)
}

/// Tests an import: the block is a stub, its name is exported, and the two code types agree.
fn check_import(
    objects: &[Object],
    laid: &Laid,
    numbers: &[u32],
    exports: &Table<Ask>,
    import: &Ask,
) -> Result<(), LinkError>
    requires ready { AreReady objects.now laid.now numbers.now }
    requires exports { All (λ (e : Named). HasBlock objects.now e.module e.block) exports.now }
    requires import { HasBlock objects.now import.now.module import.now.block }
    ensures unrefused { OnOk result (import_refusal objects.now exports.now import.now ≡ None) }
    ensures refused { IfErr result (λ e. IsRefusalOf (import_refusal objects.now exports.now import.now) e) }
{
    let line = import.line;
    let m = import.module as usize;
    let object = &objects[m];
    if !is_stub(object, import.block) {
        return Err(LinkError::Stub { line });
    }
    match find_export(exports.as_slice(), &import.name) {
        Some(export) => {
            if !like_blocks(objects, laid, numbers, import, export) {
                return Err(LinkError::Types { line });
            }
            Ok(())
        }
        None => Err(LinkError::Missing { line }),
    }
}

/// Tests the imports in order.
pub fn check_imports(
    objects: &[Object],
    laid: &Laid,
    numbers: &[u32],
    exports: &Table<Ask>,
    imports: &Table<Ask>,
) -> Result<(), LinkError>
    requires ready { AreReady objects.now laid.now numbers.now }
    requires exports { All (λ (e : Named). HasBlock objects.now e.module e.block) exports.now }
    requires imports { All (λ (i : Named). HasBlock objects.now i.module i.block) imports.now }
    ensures unrefused { OnOk result (imports_refusal objects.now exports.now imports.now ≡ None) }
    ensures refused { IfErr result (λ e. IsRefusalOf (imports_refusal objects.now exports.now imports.now) e) }
{
    for n in 0..imports.len() {
        match check_import(objects, laid, numbers, exports, imports.at(n)) {
            Ok(()) => {}
            Err(error) => return Err(error),
        }
    }
    Ok(())
}
