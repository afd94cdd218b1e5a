//! The names of cells, as they are written.
ghost use Rattle.std.specs.Prelude.{◌≡◌, length, map, Some, IfOk};
ghost use Rattle.ft_scope.specs.CellNames.{cell_name, joined_names};
ghost use Rattle.ft_scope.specs.ProgramOf.{program_of};

use crate::prog::Prog;
use ft_isa::NoMemory;
use itoa::Buffer;
use std::alloc::{AllocError, Global};

/// A name followed by a place in square brackets.
fn with_place(mut name: Vec<u8>, place: u32) -> Result<Vec<u8>, AllocError>
    ensures { IfOk result (λ v. v.items ≡ cell_name name.items (Some place)) }
{
    let mut digits = Buffer::new();
    name.extend_from_slice(b"[")?;
    name.extend_from_slice(digits.format(place).as_bytes())?;
    name.extend_from_slice(b"]")?;
    Ok(name)
}

/// The name of a cell: the declared name, followed by its place in square brackets if the cell belongs to an array.
pub fn cell_name(alloc: Global, text: &[u8], place: Option<u32>) -> Result<Vec<u8>, AllocError>
    ensures { IfOk result (λ v. v.items ≡ cell_name text.now place) }
{
    let name = Vec::from_slice(alloc, text)?;
    match place {
        None => Ok(name),
        Some(place) => with_place(name, place),
    }
}

/// The names of cells with these declared names and places, one place for each name.
fn joined_names(
    alloc: Global,
    texts: &[&[u8]],
    places: &[Option<u32>],
) -> Result<Vec<Vec<u8>>, AllocError>
    requires { length texts.now ≡ length places.now }
    ensures { IfOk result (λ v. map (λ n. n.items) v.items ≡ joined_names (map (λ r. r.now) texts.now) places.now) }
{
    let mut names = Vec::with_capacity(alloc, texts.len())?;
    for k in 0..texts.len() {
        names.push(cell_name(alloc, texts[k], places[k])?)?;
    }
    Ok(names)
}

impl Prog<'_> {
    /// The cells' names in order: the declared name, followed by its place in square brackets if the cell belongs to an
    /// array. The only error is `NoMemory`.
    pub fn cell_names(&self, alloc: Global) -> Result<Vec<Vec<u8>>, NoMemory>
        ensures { IfOk result (λ v. map (λ n. n.items) v.items ≡ (program_of self.now).names) }
    {
        let names = joined_names(alloc, &self.names, &self.places)?;
        Ok(names)
    }
}
