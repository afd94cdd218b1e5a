//! The cells that declarations make, and the lengths of arrays.
ghost use Rattle.std.specs.Prelude.{◌≡◌, ℕ, ◌++◌, ◌<◌, ◌^◌, List, [], ◌∷◌, None, Some, IfOk, IfErr, OnOk};
ghost use Rattle.ft_syntax.specs.Syntax.{Declared, array, Named, declared, declared_list};
ghost use Rattle.ft_syntax.specs.declared.source_error.SourceError.TheVariants as errors;
ghost use Rattle.ft_scope.specs.Scope.{wrong_length};
ghost use Rattle.ft_scope.specs.Made.{Made};

use ft_syntax::{Decl, SourceError};
use std::alloc::Global;

/// The maximum number of cells of an array.
const LENGTH_LIMIT: u64 = 1_024;

/// The place of a declaration's length, if it is 0 or above 1,024.
fn wrong(d: &Decl<'_>) -> Option<usize>
    ensures { result ≡ wrong_length (declared d.now ∷ []) }
{
    match d {
        Decl::Array {
            name: _,
            length,
            length_at,
            init: _,
        } => {
            let is_length = 0 < *length && *length <= LENGTH_LIMIT;
            if is_length { None } else { Some(*length_at) }
        }
        _ => None,
    }
}

/// The place of the first length of an array that is 0 or above 1,024.
pub fn first_wrong_length(decls: &[Decl<'_>]) -> Option<usize>
    ensures { result ≡ wrong_length (declared_list decls.now) }
{
    for d in decls {
        if let Some(at) = wrong(d) {
            return Some(at);
        }
    }
    None
}

/// Cells in order: their declared names, their places in arrays, and their initial words.
#[derive(Drop)]
pub struct Cells<'a> {
    pub names: Vec<&'a [u8]>,
    pub places: Vec<Option<u32>>,
    pub inits: Vec<u64>,
}

impl<'a> Cells<'a> {
    ghost use Rattle.ft_scope.specs.Made.{Made};

    /// Adds a cell.
    fn cell(&mut self, name: &'a [u8], place: Option<u32>, init: u64) -> Result<(), SourceError>
        ensures names { OnOk result (self.new.names.items ≡ self.old.names.items ++ name.entry ∷ []) }
        ensures places { OnOk result (self.new.places.items ≡ self.old.places.items ++ place ∷ []) }
        ensures inits { OnOk result (self.new.inits.items ≡ self.old.inits.items ++ init ∷ []) }
        ensures err { IfErr result (λ e. e ≡ errors.NoMemory) }
    {
        let Ok(()) = self.names.push(name) else {
            return Err(SourceError::NoMemory);
        };
        let Ok(()) = self.places.push(place) else {
            return Err(SourceError::NoMemory);
        };
        let Ok(()) = self.inits.push(init) else {
            return Err(SourceError::NoMemory);
        };
        Ok(())
    }

    /// Adds the cells of an array.
    fn array(&mut self, name: &'a [u8], length: u32, init: u64) -> Result<(), SourceError>
        ensures ok { OnOk result ((ds : List Declared) (n : Named) (at : ℕ) → n.text ≡ name.entry.now → Made self.old ds → Made self.new (ds ++ array n length at init ∷ [])) }
        ensures err { IfErr result (λ e. e ≡ errors.NoMemory) }
    {
        for place in 0..length {
            if let Err(e) = self.cell(name, Some(place), init) {
                return Err(e);
            }
        }
        Ok(())
    }

    /// Adds the cells of a declaration.
    fn declare(&mut self, d: &Decl<'a>) -> Result<(), SourceError>
        requires { wrong_length (declared d.now ∷ []) ≡ None }
        ensures ok { OnOk result ((ds : List Declared) → Made self.old ds → Made self.new (ds ++ declared d.now ∷ [])) }
        ensures err { IfErr result (λ e. e ≡ errors.NoMemory) }
    {
        match d {
            Decl::Cell { name, init } => self.cell(name.text, None, *init),
            Decl::Var { name: _ } => Ok(()),
            Decl::Array {
                name,
                length,
                length_at: _,
                init,
            } => self.array(name.text, *length as u32, *init),
        }
    }
}

/// The cells of declarations.
pub fn made_cells<'a>(alloc: Global, decls: &[Decl<'a>]) -> Result<Cells<'a>, SourceError>
    requires { wrong_length (declared_list decls.now) ≡ None }
    ensures ok { IfOk result (λ c. Made c (declared_list decls.now)) }
    ensures err { IfErr result (λ e. e ≡ errors.NoMemory) }
{
    let mut cells = Cells {
        names: Vec::new(alloc),
        places: Vec::new(alloc),
        inits: Vec::new(alloc),
    };
    for d in decls {
        if let Err(e) = cells.declare(d) {
            return Err(e);
        }
    }
    Ok(cells)
}
