//! The table of declared names.
ghost use Rattle.std.specs.Prelude.{◌≡◌, ◌<◌, ◌^◌, ◌-◌, ◌++◌, ℕ, List, [], ◌∷◌, Some, None, cond, length, IfOk, OnOk, IfErr, min};
ghost use Rattle.std.specs.Str.{bytes_eq};
ghost use Rattle.ft_syntax.specs.Syntax.{Declared, cell, var, array, named, declared, declared_list};
ghost use Rattle.ft_scope.specs.Scope.{repeated, declared_name};
ghost use Rattle.ft_scope.specs.Held.{Holds, look, DeclareFails, TwiceFails};

use crate::slot::Slot;
use ft_syntax::{Decl, SourceError, Spot};
use std::alloc::Global;
use std::collections::BTreeMap;

/// The declared names with what they refer to, how many cells there are, and how many variables. The number of cells
/// saturates at 2^64 - 1. The names are kept in order, so no choice of names makes a look-up slow.
#[derive(Drop)]
pub struct Names<'a> {
    pub slots: BTreeMap<&'a [u8], Slot>,
    pub cells: u64,
    pub vars: usize,
}

/// The slot of the variable with this number, capped at 255: no program within the limits uses a larger one.
fn variable(number: usize) -> Slot
    ensures { result ≡ Slot.Var (min number 255) }
{
    Slot::Var(u8::try_from(number).unwrap_or(u8::MAX))
}

/// A number of cells, capped at 2^32 - 1: no program within the limits uses a larger one.
fn narrow(number: u64) -> u32
    ensures { result ≡ min number (2 ^ 32 - 1) }
{
    u32::try_from(number).unwrap_or(u32::MAX)
}

impl<'a> Names<'a> {
    /// An empty table.
    #[tactic(auto, unfolding(crate::specs::Held::look))]
    pub fn new(alloc: Global) -> Names<'a>
        ensures { Holds result [] }
    {
        Names {
            slots: BTreeMap::new(alloc),
            cells: 0,
            vars: 0,
        }
    }

    /// What a name refers to.
    #[tactic(auto, unfolding(crate::specs::Held::look))]
    pub fn find(&self, text: &[u8]) -> Option<Slot>
        ensures { result ≡ look self.now text.now }
    {
        self.slots.get(text).copied()
    }

    /// Notes what a name refers to, or refuses the name if it was declared before.
    fn name(&mut self, name: Spot<'a>, slot: Slot) -> Result<(), SourceError>
        ensures fresh { OnOk result (look self.old name.entry.text.now ≡ None) }
        ensures noted { OnOk result ((text : List ℕ) → look self.new text ≡ cond (bytes_eq name.entry.text.now text) (Some slot) (look self.old text)) }
        ensures cells { OnOk result (self.new.cells ≡ self.old.cells) }
        ensures vars { OnOk result (self.new.vars ≡ self.old.vars) }
        ensures err { IfErr result (λ e. DeclareFails e name.entry.at (look self.old name.entry.text.now)) }
    {
        match self.slots.insert(name.text, slot) {
            Ok(None) => Ok(()),
            Ok(Some(_)) => Err(SourceError::Twice { at: name.at }),
            Err(_) => Err(SourceError::NoMemory),
        }
    }

    /// Notes a cell.
    fn cell(&mut self, name: Spot<'a>) -> Result<(), SourceError>
        ensures ok { OnOk result ((ds : List Declared) (w : ℕ) → Holds self.old ds → Holds self.new (ds ++ cell (named name.entry) w ∷ [])) }
        ensures fresh { OnOk result (look self.old name.entry.text.now ≡ None) }
        ensures err { IfErr result (λ e. DeclareFails e name.entry.at (look self.old name.entry.text.now)) }
    {
        self.name(name, Slot::Cell(narrow(self.cells)))?;
        self.cells = self.cells.saturating_add(1);
        Ok(())
    }

    /// Notes an array.
    fn array(&mut self, name: Spot<'a>, length: u64) -> Result<(), SourceError>
        ensures ok { OnOk result ((ds : List Declared) (at w : ℕ) → Holds self.old ds → Holds self.new (ds ++ array (named name.entry) length at w ∷ [])) }
        ensures fresh { OnOk result (look self.old name.entry.text.now ≡ None) }
        ensures err { IfErr result (λ e. DeclareFails e name.entry.at (look self.old name.entry.text.now)) }
    {
        let run = Slot::Run {
            first: narrow(self.cells),
            length: narrow(length),
        };
        self.name(name, run)?;
        self.cells = self.cells.saturating_add(length);
        Ok(())
    }

    /// Notes a variable.
    fn variable(&mut self, name: Spot<'a>) -> Result<(), SourceError>
        requires { self.old.vars < 2 ^ 32 }
        ensures ok { OnOk result ((ds : List Declared) → Holds self.old ds → Holds self.new (ds ++ var (named name.entry) ∷ [])) }
        ensures fresh { OnOk result (look self.old name.entry.text.now ≡ None) }
        ensures err { IfErr result (λ e. DeclareFails e name.entry.at (look self.old name.entry.text.now)) }
    {
        self.name(name, variable(self.vars))?;
        self.vars += 1;
        Ok(())
    }

    /// Notes a declaration.
    fn declare(&mut self, d: &Decl<'a>) -> Result<(), SourceError>
        requires variables { self.old.vars < 2 ^ 32 }
        ensures ok { OnOk result ((ds : List Declared) → Holds self.old ds → Holds self.new (ds ++ declared d.now ∷ [])) }
        ensures fresh { OnOk result (look self.old (declared_name (declared d.now)).text ≡ None) }
        ensures err { IfErr result (λ e. DeclareFails e (declared_name (declared d.now)).at (look self.old (declared_name (declared d.now)).text)) }
    {
        match d {
            Decl::Cell { name, init: _ } => self.cell(*name),
            Decl::Var { name } => self.variable(*name),
            Decl::Array {
                name,
                length,
                length_at: _,
                init: _,
            } => self.array(*name, *length),
        }
    }
}

/// The table of the declared names, or a refusal at the first name that was declared before.
pub fn declared_names<'a>(alloc: Global, decls: &[Decl<'a>]) -> Result<Names<'a>, SourceError>
    requires { length decls.now < 2 ^ 32 }
    ensures ok { IfOk result (λ n. Holds n (declared_list decls.now)) }
    ensures fresh { OnOk result (repeated [] (declared_list decls.now) ≡ None) }
    ensures err { IfErr result (λ e. TwiceFails e (repeated [] (declared_list decls.now))) }
{
    let mut names = Names::new(alloc);
    for d in decls {
        if let Err(e) = names.declare(d) {
            return Err(e);
        }
    }
    Ok(names)
}
