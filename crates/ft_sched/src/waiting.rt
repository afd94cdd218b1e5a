//! Trailing instructions that wait.
ghost use Rattle.std.specs.Prelude.{◌≡◌, ◌<◌, ◌==◌, ◌||◌, ◌∷◌, ◌++◌, [], length, OnOk};
ghost use Rattle.std.specs.List.{list_any};
ghost use Rattle.ft_exchange.specs.Exchange.{is_blue_store};
ghost use Rattle.ft_sched.specs.Registers.{number_of, writes, meets};
ghost use Rattle.ft_sched.specs.Waiting.{conflicts};

use crate::last_places::LastPlaces;
use ft_isa::{Instr, Reg};
use std::alloc::{AllocError, Global};
use std::marker::Model;

/// The instructions that wait after the written ones, oldest first. Those that no longer wait stay in the list, before
/// the front, so that places never change. An instruction waits if its place, counted from 1, is above the front.
#[derive(Drop)]
pub struct Waiting {
    instrs: Vec<Instr>,
    front: usize,
    written: LastPlaces,
    touched: LastPlaces,
    blue_store: usize,
}

impl Model for Waiting {
    ghost use Rattle.std.specs.Prelude.{List, drop};
    ghost use Rattle.ft_isa.specs.declared.instr.Instr.{Instr};
    ghost use Rattle.ft_isa.specs.contracts.instr.Instr as instr;
    ghost use Rattle.std.specs.Coded.{coded_list};
    ghost use Rattle.ft_sched.specs.Waiting.{IsKept};

    ghost Value = { List Instr };

    ghost coded = { coded_list instr.the_row.coded };

    ghost view = { λ w. drop w.front w.instrs.items };

    ghost invariant = { λ w. IsKept w.instrs.items w.front w.written w.touched w.blue_store };
}

/// Whether any of three tests passes.
fn any_of(first: bool, second: bool, third: bool) -> bool
    ensures { result ≡ ((first || second) || third) }
{
    first || second || third
}

impl Waiting {
    /// Nothing waits.
    pub fn new(alloc: Global) -> Waiting
        ensures { result ≡ [] }
    {
        Waiting {
            instrs: Vec::new(alloc),
            front: 0,
            written: LastPlaces::new(),
            touched: LastPlaces::new(),
            blue_store: 0,
        }
    }

    /// Whether nothing waits.
    pub fn is_empty(&self) -> bool
        ensures { result ≡ (length self.now == 0) }
    {
        self.front == self.instrs.len()
    }

    /// Adds a waiting instruction.
    pub fn push(&mut self, instr: Instr) -> Result<(), AllocError>
        ensures { OnOk result (self.new ≡ self.old ++ instr ∷ []) }
    {
        let register = instr.written();
        let first = instr.first_read();
        let second = instr.second_read();
        let stores = instr.is_blue_store();
        self.instrs.push(instr)?;
        let place = self.instrs.len();
        self.written.mark(register, place);
        self.touched.mark(register, place);
        self.touched.mark(first, place);
        self.touched.mark(second, place);
        if stores {
            self.blue_store = place;
        }
        Ok(())
    }

    /// Removes the oldest waiting instruction and returns it.
    pub fn take(&mut self) -> Instr
        requires { 0 < length self.old }
        ensures { self.old ≡ result ∷ self.new }
    {
        let instr = self.instrs[self.front];
        self.front += 1;
        instr
    }

    /// Whether a waiting instruction writes this register, if one is given.
    fn is_written(&self, register: Option<Reg>) -> bool
        ensures { result ≡ list_any (writes (number_of register)) self.now }
    {
        self.front < self.written.at(register)
    }

    /// Whether a waiting instruction reads or writes this register, if one is given.
    fn is_touched(&self, register: Option<Reg>) -> bool
        ensures { result ≡ list_any (meets (number_of register)) self.now }
    {
        self.front < self.touched.at(register)
    }

    /// Whether a blue store waits.
    pub fn has_blue_store(&self) -> bool
        ensures { result ≡ list_any is_blue_store self.now }
    {
        self.front < self.blue_store
    }

    /// Whether a waiting instruction writes a register that this one reads or writes, or reads one that this one
    /// writes.
    pub fn has_conflict(&self, instr: &Instr) -> bool
        ensures { result ≡ list_any (conflicts instr.now) self.now }
    {
        let first = self.is_written(instr.first_read());
        let second = self.is_written(instr.second_read());
        let either = self.is_touched(instr.written());
        any_of(first, second, either)
    }
}
