//! The cells of a compiled object.
ghost use Rattle.std.specs.Prelude.{◌≡◌, length, map, IfOk};
ghost use Rattle.std.specs.List.{zip};
ghost use Rattle.ft_compile.specs.Emitted.{cell_from};

use ft_isa::INT;
use ft_types::{Cell, Table};
use std::alloc::{AllocError, Global};

/// A cell of type `int` with this name and initial word.
fn cell_of(name: Vec<u8>, init: u64) -> Cell
    ensures { result ≡ cell_from (name.items, init) }
{
    Cell {
        name: Table::from_vec(name),
        basic: INT,
        init,
    }
}

/// The cells of type `int` with these names and as many initial words.
pub fn cells_of(alloc: Global, names: Vec<Vec<u8>>, inits: &[u64]) -> Result<Vec<Cell>, AllocError>
    requires { length names.items ≡ length inits.now }
    ensures { IfOk result (λ v. v.items ≡ map cell_from (zip (map (λ n. n.items) names.items) inits.now)) }
{
    let mut cells = Vec::with_capacity(alloc, names.len())?;
    let mut k = 0;
    for name in names {
        cells.push(cell_of(name, inits[k]))?;
        k += 1;
    }
    Ok(cells)
}
