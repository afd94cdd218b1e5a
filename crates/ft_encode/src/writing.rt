//! Writing objects.
ghost use Rattle.std.specs.Prelude.{◌≡◌, ◌<◌, ◌^◌, ◌++◌, ℕ, [], List, None, length, sum_by, IfOk, OnOk};
ghost use Rattle.std.specs.List.{flat_map};
ghost use Rattle.ft_types.specs.declared.object.Object.{Object};
ghost use Rattle.ft_types.specs.Objects.{name_of, regs_of, queue_of};
ghost use Rattle.ft_types.specs.Spellable.{IsSpellable};
ghost use Rattle.ft_format.specs.Layout.{spelled, cell_layout, type_layout};
ghost use Rattle.ft_format.specs.Broken.{broken, object_of, total};
ghost use Rattle.ft_format.specs.Fits.{HasCounts};
ghost use Rattle.ft_format.specs.Rows.{cell_rows, type_rows, header_row, spelling};
ghost use Rattle.ft_format.specs.Fields.{header_numbers};
ghost use Rattle.ft_format.specs.Format.{Spells};
ghost use Rattle.ft_format.specs.declared.version.Version.{Version};
ghost use Rattle.ft_format.specs.declared.version.Version.TheVariants.{Second};
ghost use Rattle.ft_format.specs.Puts.{Puts};
ghost use Rattle.ft_encode.specs.Written.{reg_bytes, pair_bytes};

use crate::record::{base_code, base_type, write_all, write_rows};
use ft_format::{CellRow, Header, TypeRow, Version};
use ft_isa::NoMemory;
use ft_types::{Cell, CodeType, Object};
use std::alloc::Global;

/// How many register rows the code types have in all.
fn count_regs(types: &[CodeType]) -> u32
    requires { sum_by (λ t. length (regs_of t)) types.now < 2 ^ 32 }
    ensures { result ≡ sum_by (λ t. length (regs_of t)) types.now }
{
    let mut count: u32 = 0;
    for code_type in types {
        count += code_type.regs.len() as u32;
    }
    count
}

/// How many queue rows the code types have in all.
fn count_queue(types: &[CodeType]) -> u32
    requires { sum_by (λ t. length (queue_of t)) types.now < 2 ^ 32 }
    ensures { result ≡ sum_by (λ t. length (queue_of t)) types.now }
{
    let mut count: u32 = 0;
    for code_type in types {
        count += code_type.queue.len() as u32;
    }
    count
}

/// How many bytes the names of the cells have in all.
fn count_names(cells: &[Cell]) -> u32
    requires { sum_by (λ c. length (name_of c)) cells.now < 2 ^ 32 }
    ensures { result ≡ sum_by (λ c. length (name_of c)) cells.now }
{
    let mut count: u32 = 0;
    for cell in cells {
        count += cell.name.len() as u32;
    }
    count
}

/// The header of an object, in version 2.
fn header_of(object: &Object) -> Header
    requires { HasCounts object.now }
    ensures { header_numbers result ≡ header_row Second object.now }
{
    Header {
        magic: Version::Second.magic(),
        cells: object.cells.len() as u32,
        nodes: object.nodes.len() as u32,
        types: object.types.len() as u32,
        regs: count_regs(object.types.as_slice()),
        queue: count_queue(object.types.as_slice()),
        blocks: object.blocks.len() as u32,
        instrs: object.instrs.len() as u32,
        substs: object.substs.len() as u32,
        names: count_names(object.cells.as_slice()),
        entry: object.entry,
    }
}

/// Appends the records of cells.
fn write_cells(cells: &[Cell], out: &mut Vec<u8>) -> Result<(), NoMemory>
    requires { sum_by (λ c. length (name_of c)) cells.now < 2 ^ 32 }
    ensures { OnOk result (Puts out.old.items out.new.items (spelled cell_layout (cell_rows 0 cells.now))) }
{
    let mut past: u32 = 0;
    for cell in cells {
        past += cell.name.len() as u32;
        let row = CellRow {
            past,
            refs: cell.basic.refs,
            base: base_code(cell.basic.base),
            code_type: base_type(cell.basic.base),
            init: cell.init,
        };
        row.write(out)?;
    }
    Ok(())
}

/// Appends the records of code types.
fn write_types(types: &[CodeType], out: &mut Vec<u8>) -> Result<(), NoMemory>
    requires regs { sum_by (λ t. length (regs_of t)) types.now < 2 ^ 32 }
    requires queue { sum_by (λ t. length (queue_of t)) types.now < 2 ^ 32 }
    ensures { OnOk result (Puts out.old.items out.new.items (spelled type_layout (type_rows 0 0 types.now))) }
{
    let mut regs: u32 = 0;
    let mut queue: u32 = 0;
    for code_type in types {
        regs += code_type.regs.len() as u32;
        queue += code_type.queue.len() as u32;
        let row = TypeRow {
            regs,
            queue,
            memory: code_type.memory,
            ints: code_type.ints,
            pad0: 0,
            pad1: 0,
            pad2: 0,
        };
        row.write(out)?;
    }
    Ok(())
}

/// Appends the register rows of code types.
fn write_regs(types: &[CodeType], out: &mut Vec<u8>) -> Result<(), NoMemory>
    ensures { OnOk result (Puts out.old.items out.new.items (flat_map (λ t. flat_map reg_bytes (regs_of t)) types.now)) }
{
    for code_type in types {
        write_all(code_type.regs.as_slice(), out)?;
    }
    Ok(())
}

/// Appends the queue rows of code types.
fn write_queue(types: &[CodeType], out: &mut Vec<u8>) -> Result<(), NoMemory>
    ensures { OnOk result (Puts out.old.items out.new.items (flat_map (λ t. flat_map pair_bytes (queue_of t)) types.now)) }
{
    for code_type in types {
        write_all(code_type.queue.as_slice(), out)?;
    }
    Ok(())
}

/// Appends the names of cells.
fn write_names(cells: &[Cell], out: &mut Vec<u8>) -> Result<(), NoMemory>
    ensures { OnOk result (Puts out.old.items out.new.items (flat_map name_of cells.now)) }
{
    for cell in cells {
        out.extend_from_slice(cell.name.as_slice())?;
    }
    Ok(())
}

/// The size in bytes of an object whose header has these counts.
fn size_of(header: Header) -> usize
    ensures { result ≡ total header }
{
    let cells = 48 + 16 * header.cells as usize;
    let nodes = cells + 16 * header.nodes as usize;
    let types = nodes + 16 * header.types as usize;
    let rows = types + 12 * header.regs as usize + 8 * header.queue as usize;
    let code = rows + 8 * header.blocks as usize + 16 * header.instrs as usize;
    code + 4 * header.substs as usize + header.names as usize
}

/// Writes an object's tables in the version 2 layout, whether or not they obey the rules of the format.
pub fn spell(alloc: Global, object: &Object) -> Result<Vec<u8>, NoMemory>
    requires { HasCounts object.now }
    ensures { IfOk result (λ bytes. bytes.items ≡ spelling Second object.now) }
{
    let header = header_of(object);
    let mut out = Vec::with_capacity(alloc, size_of(header))?;
    header.write(&mut out)?;
    write_cells(object.cells.as_slice(), &mut out)?;
    write_all(object.nodes.as_slice(), &mut out)?;
    write_types(object.types.as_slice(), &mut out)?;
    write_regs(object.types.as_slice(), &mut out)?;
    write_queue(object.types.as_slice(), &mut out)?;
    write_all(object.blocks.as_slice(), &mut out)?;
    write_all(object.instrs.as_slice(), &mut out)?;
    write_rows(object.substs.as_slice(), &mut out)?;
    write_names(object.cells.as_slice(), &mut out)?;
    Ok(out)
}

/// Writes the version 2 spelling of an object that obeys the rules of the format.
pub fn encode(alloc: Global, object: &Object) -> Result<Vec<u8>, NoMemory>
    requires { IsSpellable object.now }
    // The result is the object's spelling.
    ensures spelled { IfOk result (λ bytes. bytes.items ≡ spelling Second object.now) }
    // It breaks no rule, and decoding it gives the object back.
    ensures unbroken { IfOk result (λ bytes. broken bytes.items ≡ None) }
    ensures back { IfOk result (λ bytes. Spells bytes.items Second object.now × (object_of bytes.items ≡ object.now)) }
    // No other version 2 bytes spell the object.
    ensures one { IfOk result (λ bytes. (other : List ℕ) → Spells other Second object.now → other ≡ bytes.items) }
    // It is not a prefix of another spelling.
    ensures apart { IfOk result (λ bytes. (rest : List ℕ) (v : Version) (other : Object) → Spells (bytes.items ++ rest) v other → rest ≡ []) }
{
    spell(alloc, object)
}
