//! The machine: its state, and queries on it.
ghost use Rattle.std.specs.Prelude.{◌≡◌, ◌≢◌, ℕ, ◌≤◌, ◌<◌, IfOk, IsTrue, Some, length, true, Decides};
ghost use Rattle.ft_isa.specs.declared.output.Output as outputs;
ghost use Rattle.ft_semantics.specs.Step.{step};
ghost use Rattle.ft_semantics.specs.Strike.{is_there, struck_state};
ghost use Rattle.ft_machine.specs.Answers.{Takes};
ghost use Rattle.ft_machine.specs.Advances.{Advances};
ghost use Rattle.ft_machine.specs.Goes.{Goes, goes_on as outlet_goes_on};
ghost use Rattle.ft_machine.specs.Spans.{span};
ghost use Rattle.ft_isa.specs.Words.{cell_address};
ghost use Rattle.ft_types.specs.Spellable.{IsSpellable};
ghost use Rattle.ft_semantics.specs.State.{start, held, cell_at, is_cell, HasCells};

use crate::cells::{cell_at, copy_cells, same_cells};
use crate::first::first_cells;
use crate::outlet::Outlet;
use crate::processor::Processor;
use crate::stepped::{Advance, Gone, Pause, Stepped};
use crate::wild::WildLeft;
use ft_isa::{Colour, Coloured, FIRST_CELL, Instr, NoMemory, Reg, Site};
use ft_queue::StoreQueue;
use ft_semantics::Status;
use ft_types::Program;
use std::alloc::Global;
use std::marker::Model;

/// A machine of 64 registers, the destination register d, two program counters, a store queue and cells. Contracts see
/// it as a `State` of `ft_semantics`.
#[derive(Drop)]
pub struct Machine {
    processor: Processor,
    queue: StoreQueue,
    words: Vec<u64>,
}

impl Model for Machine {
    ghost use Rattle.std.specs.FinMap as map;
    ghost use Rattle.std.specs.Ordering.{nat_cmp};
    ghost use Rattle.ft_semantics.specs.State.{State};
    ghost use Rattle.ft_isa.specs.contracts.colour.Coloured as coloured;
    ghost use Rattle.std.specs.Coded.{codes, coded_ℕ};

    ghost Value = { State };

    ghost coded = { Prim.hlevel (codes, map.code {R = nat_cmp} coded_ℕ coloured.the_row.coded, map.code {R = nat_cmp} coded_ℕ coded_ℕ) };

    ghost use Rattle.ft_machine.specs.Processors.{state_over};

    ghost view = { λ m. state_over m.processor m.queue m.words.items };
}

impl Machine {
    /// The machine before the first step of a program.
    pub fn new<P: Program>(alloc: Global, program: &P) -> Result<Machine, NoMemory>
        requires { IsSpellable (P.object program.now) }
        ensures start { IfOk result (λ m. m ≡ start (P.object program.now)) }
        ensures cells { IfOk result (λ m. HasCells (length (P.object program.now).cells) m) }
    {
        let words = first_cells(alloc, program)?;
        let queue = StoreQueue::new(alloc)?;
        Ok(Machine {
            processor: Processor::new(program),
            queue,
            words,
        })
    }

    /// Copies another machine's state, without allocating. Both have the same cells.
    pub fn copy_from(&mut self, other: &Machine)
        requires { (a : ℕ) → is_cell self.old.cells a ≡ is_cell other.now.cells a }
        ensures { self.new ≡ other.now }
    {
        self.processor.copy_from(&other.processor);
        self.queue.copy_from(&other.queue);
        copy_cells(self.words.as_mut_slice(), other.words.as_slice());
    }

    /// Whether another machine is in the same state. It does not allocate.
    pub fn same_as(&self, other: &Machine) -> bool
        ensures { Decides result (self.now ≡ other.now) }
    {
        if !self.processor.same_as(&other.processor) {
            return false;
        }
        if !self.queue.same_as(&other.queue) {
            return false;
        }
        same_cells(self.words.as_slice(), other.words.as_slice())
    }

    /// What a register holds.
    #[inline(always)]
    pub fn reg(&self, r: Reg) -> Coloured
        ensures { result ≡ held self.now.registers r.number }
    {
        self.processor.file.registers.get(r)
    }

    /// The destination register.
    pub fn d(&self) -> u64
        ensures { result ≡ self.now.d }
    {
        self.processor.file.d
    }

    /// The program counter of a colour.
    pub fn pc(&self, c: Colour) -> u64
        ensures green { c ≡ Colour.Green → result ≡ self.now.pc_green }
        ensures blue { c ≡ Colour.Blue → result ≡ self.now.pc_blue }
    {
        match c {
            Colour::Green => self.processor.pc_green,
            Colour::Blue => self.processor.pc_blue,
        }
    }

    /// The stores that wait for their blue counterparts.
    pub fn queue(&self) -> &StoreQueue
        ensures { result.now ≡ self.now.queue }
    {
        &self.queue
    }

    /// The word of cell `k`.
    pub fn cell(&self, k: u32) -> u64
        requires { IsTrue (is_cell self.now.cells (cell_address k)) }
        ensures { cell_at self.now.cells (cell_address k) ≡ Some result }
    {
        match cell_at(self.words.as_slice(), FIRST_CELL + k as u64) {
            Some(word) => word,
            None => unreachable!(),
        }
    }

    /// The fetched instruction, if there is one.
    pub fn fetched(&self) -> Option<Instr>
        ensures { result ≡ self.now.fetched }
    {
        self.processor.fetched
    }

    /// The machine's status.
    pub fn status(&self) -> Status
        ensures { result ≡ self.now.status }
    {
        self.processor.status
    }

    /// Takes one step. A stopped machine does not change, and returns the same result again.
    pub fn step<P: Program>(&mut self, program: &P, wild: &mut WildLeft) -> Stepped
        requires { IsSpellable (P.object program.now) }
        ensures takes { Takes (step (P.object program.now) self.old wild.old) self.new wild.new result }

        // The cells keep their addresses, and a pair that is committed goes to one of them.
        ensures cells { (n : ℕ) → HasCells n self.old → HasCells n self.new }
        ensures commits { (output : outputs.Output) → result ≡ Stepped.Commit output → is_cell self.old.cells output.addr ≡ true }
    {
        self.processor
            .step(&mut self.queue, self.words.as_mut_slice(), program, wild)
    }

    /// Strikes a site: the word there becomes `value`, and its colour does not change. Returns `false` exactly when the
    /// machine has stopped or the site does not exist, and then changes nothing.
    pub fn strike(&mut self, site: Site, value: u64) -> bool
        ensures there { result ≡ is_there self.old site }
        ensures struck { self.new ≡ struck_state self.old site value }
        ensures cells { (n : ℕ) → HasCells n self.old → HasCells n self.new }
    {
        self.processor.strike(&mut self.queue, site, value)
    }

    /// Takes at most `most` steps of a running machine, passes each output to an outlet, and ends early if the machine
    /// stops or the outlet does not go on.
    #[inline(always)]
    pub fn go<P: Program, T: Outlet>(
        &mut self,
        program: &P,
        wild: &mut WildLeft,
        most: u64,
        outlet: &mut T,
    ) -> Gone
        requires spellable { IsSpellable (P.object program.now) }
        requires running { self.old.status ≡ Status.Running }
        requires may { (output : outputs.Output) → is_cell self.old.cells output.addr ≡ true → T.may outlet.old output }
        ensures goes { Goes T.Outlet (P.object program.now) self.old wild.old outlet.old self.new wild.new outlet.new result.taken result.pause }
        ensures heard { T.heard outlet.old (span (P.object program.now) result.taken self.old wild.old).outputs (outlet_goes_on result.pause) outlet.new }
        ensures few { result.taken ≤ most }
        ensures some { 0 < most → 0 < result.taken }
        ensures all { result.pause ≡ Pause.Running → result.taken ≡ most }
        ensures early { result.pause ≢ Pause.Running → 0 < result.taken }
    {
        self.processor.go(
            &mut self.queue,
            self.words.as_mut_slice(),
            program,
            wild,
            most,
            outlet,
        )
    }

    /// Takes at most `most` steps of a running machine, and stops at the first that is not quiet.
    #[inline(always)]
    pub fn advance<P: Program>(&mut self, program: &P, wild: &mut WildLeft, most: u64) -> Advance
        requires spellable { IsSpellable (P.object program.now) }
        requires running { self.old.status ≡ Status.Running }
        ensures advances { Advances (P.object program.now) self.old wild.old self.new wild.new most result.taken result.last }
        ensures few { result.taken ≤ most }
        ensures some { 0 < most → 0 < result.taken }

        // The cells keep their addresses, and a pair that is committed goes to one of them.
        ensures cells { (n : ℕ) → HasCells n self.old → HasCells n self.new }
        ensures commits { (output : outputs.Output) → result.last ≡ Stepped.Commit output → is_cell self.old.cells output.addr ≡ true }
    {
        self.processor.advance(
            &mut self.queue,
            self.words.as_mut_slice(),
            program,
            wild,
            most,
        )
    }
}
