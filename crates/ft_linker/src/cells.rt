//! Compares cells, and tests for types with base `int`.
ghost use Rattle.std.specs.Prelude.{◌≡◌};
ghost use Rattle.std.specs.List.{list_all};
ghost use Rattle.ft_modules.specs.Links.{same_name};
ghost use Rattle.ft_modules.specs.LinkRefusals.{has_plain_rows, is_int, is_plain_cell, is_plain_row, same_cell, same_cells};

use ft_isa::Base;
use ft_types::{Cell, CodeType, RegType, Table};
use ft_typing::same_basic;

/// Whether two names are equal.
pub fn same_name(a: &Table<u8>, b: &Table<u8>) -> bool
    ensures { result ≡ same_name a.now b.now }
{
    if a.len() != b.len() {
        return false;
    }
    for k in 0..a.len() {
        let x = *a.at(k);
        let y = *b.at(k);
        if x != y {
            return false;
        }
    }
    true
}

/// Whether two cells are equal.
fn same_cell(a: &Cell, b: &Cell) -> bool
    ensures { result ≡ same_cell a.now b.now }
{
    same_name(&a.name, &b.name) && same_basic(a.basic, b.basic) && a.init == b.init
}

/// Whether two lists of cells are equal.
pub fn same_cells(a: &Table<Cell>, b: &Table<Cell>) -> bool
    ensures { result ≡ same_cells a.now b.now }
{
    if a.len() != b.len() {
        return false;
    }
    for k in 0..a.len() {
        let x = a.at(k);
        let y = b.at(k);
        if !same_cell(x, y) {
            return false;
        }
    }
    true
}

/// Whether a base is `int`.
fn is_int(base: Base) -> bool
    ensures { result ≡ is_int base }
{
    match base {
        Base::Int => true,
        Base::Code(_) => false,
    }
}

/// Whether the bases of all cells are `int`.
pub fn are_plain_cells(cells: &[Cell]) -> bool
    ensures { result ≡ list_all is_plain_cell cells.now }
{
    cells.iter().all(|cell| is_int(cell.basic.base))
}

/// Whether the bases of all register rows are `int`.
fn are_plain_rows(rows: &[RegType]) -> bool
    ensures { result ≡ list_all is_plain_row rows.now }
{
    rows.iter().all(|row| is_int(row.basic.base))
}

/// Whether the bases of all register rows of these code types are `int`.
pub fn have_plain_rows(types: &[CodeType]) -> bool
    ensures { result ≡ list_all has_plain_rows types.now }
{
    types
        .iter()
        .all(|code_type| are_plain_rows(code_type.regs.as_slice()))
}
