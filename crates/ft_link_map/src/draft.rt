//! The map as read so far, and how the next line fits it.
ghost use Rattle.std.specs.Prelude.{◌≡◌, ◌≤◌, ◌++◌, ◌∷◌, [], length, IfOk, OnOk};
ghost use Rattle.ft_link_map.specs.declared.link_map.LinkMap as maps;
ghost use Rattle.ft_link_map.specs.MapLines.{Module, Export, Import};
ghost use Rattle.ft_link_map.specs.MapAnswers.{no_lines};
ghost use Rattle.ft_link_map.specs.Reads.{line_of};
ghost use Rattle.ft_link_map.specs.Held.{turn_of, Holds, Takes, TellsModule, Ends};

use crate::blocks::Blocks;
use crate::entry::Entry;
use crate::link_map::{Ask, LinkMap};
use crate::names::Names;
use ft_types::Table;
use std::alloc::{AllocError, Global};

/// The maximum number of modules in a map.
const MODULE_LIMIT: usize = 64;

/// How a line fits the lines so far.
#[derive(Clone, Copy)]
pub(crate) enum Turn {
    /// It continues them.
    On,
    /// It continues them, but repeats what one of them says.
    Again,
    /// It is misplaced.
    Stuck,
}

/// What the lines so far say: the map, the exported names, and the exported and imported blocks.
#[derive(Drop)]
pub(crate) struct Draft<'t> {
    files: Vec<Table<u8>>,
    exports: Vec<Ask>,
    imports: Vec<Ask>,
    names: Names<'t>,
    exported: Blocks,
    imported: Blocks,
}

/// The effect of a correctly placed line, by whether it repeats an earlier one.
fn turn_of(again: bool) -> Turn
    ensures { result ≡ turn_of again }
{
    if again { Turn::Again } else { Turn::On }
}

/// A copy of a text.
fn copy_text(alloc: Global, text: &[u8]) -> Result<Table<u8>, AllocError>
    ensures { IfOk result (λ copy. copy ≡ text.now) }
{
    let copy = Vec::from_slice(alloc, text)?;
    Ok(Table::from_vec(copy))
}

/// Appends an export or import.
fn push_ask(
    alloc: Global,
    asks: &mut Vec<Ask>,
    module: u32,
    block: u32,
    text: &[u8],
    line: u32,
) -> Result<(), AllocError>
    ensures { OnOk result (asks.new.items ≡ asks.old.items ++ record { «module» = «module»; block = block; name = text.now; line = line } ∷ []) }
{
    let name = copy_text(alloc, text)?;
    asks.push(Ask {
        module,
        block,
        name,
        line,
    })?;
    Ok(())
}

impl<'t> Draft<'t> {
    /// The draft before the first line.
    pub(crate) fn new(alloc: Global) -> Draft<'t>
        ensures { Holds result no_lines }
    {
        Draft {
            files: Vec::new(alloc),
            exports: Vec::new(alloc),
            imports: Vec::new(alloc),
            names: Names::new(alloc),
            exported: Blocks::new(alloc),
            imported: Blocks::new(alloc),
        }
    }

    /// The number of the last module; `None` if there is none.
    fn last_module(&self) -> Option<u32>
        requires { length self.now.files.items ≤ 64 }
        ensures { (m : maps.LinkMap) → Holds self.now m → TellsModule result m }
    {
        let count = self.files.len();
        if count == 0 {
            return None;
        }
        Some((count - 1) as u32)
    }

    /// Adds a module.
    fn add_module(&mut self, alloc: Global, number: u32, file: &[u8]) -> Result<Turn, AllocError>
        ensures { (m : maps.LinkMap) → Holds self.old m → IfOk result (λ turn. Takes turn self.new m number (Module file.now)) }
    {
        if self.files.len() >= MODULE_LIMIT {
            return Ok(Turn::Stuck);
        }
        let file = copy_text(alloc, file)?;
        self.files.push(file)?;
        Ok(Turn::On)
    }

    /// Adds an export.
    fn add_export(
        &mut self,
        alloc: Global,
        number: u32,
        name: &'t [u8],
        block: u32,
    ) -> Result<Turn, AllocError>
        requires { length self.old.files.items ≤ 64 }
        ensures { (m : maps.LinkMap) → Holds self.old m → IfOk result (λ turn. Takes turn self.new m number (Export name.entry.now block)) }
    {
        let Some(module) = self.last_module() else {
            return Ok(Turn::Stuck);
        };
        let imported = self.imported.has(module, block);
        let known = self.names.note(name)?;
        self.exported.note(module, block)?;
        push_ask(alloc, &mut self.exports, module, block, name, number)?;
        Ok(turn_of(known || imported))
    }

    /// Adds an import.
    fn add_import(
        &mut self,
        alloc: Global,
        number: u32,
        name: &[u8],
        block: u32,
    ) -> Result<Turn, AllocError>
        requires { length self.old.files.items ≤ 64 }
        ensures { (m : maps.LinkMap) → Holds self.old m → IfOk result (λ turn. Takes turn self.new m number (Import name.now block)) }
    {
        let Some(module) = self.last_module() else {
            return Ok(Turn::Stuck);
        };
        let exported = self.exported.has(module, block);
        let known = self.imported.note(module, block)?;
        push_ask(alloc, &mut self.imports, module, block, name, number)?;
        Ok(turn_of(exported || known))
    }

    /// Adds a line, given its number.
    pub(crate) fn take(
        &mut self,
        alloc: Global,
        number: u32,
        entry: Entry<'t>,
    ) -> Result<Turn, AllocError>
        requires { length self.old.files.items ≤ 64 }
        ensures { (m : maps.LinkMap) → Holds self.old m → IfOk result (λ turn. Takes turn self.new m number (line_of entry.entry)) }
    {
        match entry {
            Entry::Module(file) => self.add_module(alloc, number, file),
            Entry::Export { name, block } => self.add_export(alloc, number, name, block),
            Entry::Import { name, block } => self.add_import(alloc, number, name, block),
            Entry::Bad => Ok(Turn::Stuck),
        }
    }

    /// The map; `None` if it has no module.
    pub(crate) fn finish(self) -> Option<LinkMap>
        ensures { (m : maps.LinkMap) → Holds self.entry m → Ends result m }
    {
        if self.files.is_empty() {
            return None;
        }
        let Draft {
            files,
            exports,
            imports,
            names: _,
            exported: _,
            imported: _,
        } = self;
        Some(LinkMap {
            files: Table::from_vec(files),
            exports: Table::from_vec(exports),
            imports: Table::from_vec(imports),
        })
    }
}
