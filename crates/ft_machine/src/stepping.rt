//! What a machine does: strikes, single steps, and steps in a row. The words of the cells are an argument: they may
//! belong to a machine, or to the caller.
ghost use Rattle.std.specs.Prelude.{◌≡◌, ◌≢◌, ℕ, ◌≤◌, ◌<◌, IsTrue, true, None, IfSome, is_some};
ghost use Rattle.ft_isa.specs.Pending.{Pending};
ghost use Rattle.ft_types.specs.Objects.{instr_at};
ghost use Rattle.ft_types.specs.Spellable.{IsSpellable};
ghost use Rattle.ft_semantics.specs.State.{Cells, is_cell, HasCells};
ghost use Rattle.ft_machine.specs.Arrays.{cells_of};
ghost use Rattle.ft_machine.specs.Processors.{state_over, state_with};
ghost use Rattle.ft_semantics.specs.Step.{step, advance, detected, goes_on};
ghost use Rattle.ft_semantics.specs.Strike.{is_there, struck_state};
ghost use Rattle.ft_machine.specs.Answers.{Takes, TakesQuietly};
ghost use Rattle.ft_machine.specs.Advances.{Advances};
ghost use Rattle.ft_machine.specs.Goes.{Goes, PassesOn, goes_on as outlet_goes_on};
ghost use Rattle.ft_machine.specs.Spans.{span};
ghost use Rattle.ft_machine.specs.Effects.{doing, followed, told_effect, bank_of};
ghost use Rattle.ft_machine.specs.Lengths.{HasNoEmptyRun};
ghost use Rattle.ft_isa.specs.declared.output.Output as outputs;

use crate::bank::Effect;
use crate::first_output::FirstOutput;
use crate::outlet::Outlet;
use crate::processor::Processor;
use crate::stepped::{Advance, Gone, Pause, Stepped, runs_on};
use crate::stretch::do_instructions;
use crate::wild::WildLeft;
use ft_isa::{Coloured, Instr, Site};
use ft_queue::PendingStores;
use ft_semantics::Status;
use ft_types::Program;

impl Processor {
    /// Strikes a site: the word there becomes `value`, and its colour does not change. Returns `false` exactly when the
    /// machine has stopped or the site does not exist, and then changes nothing.
    pub fn strike<Q: PendingStores>(&mut self, queue: &mut Q, site: Site, value: u64) -> bool
        ensures there { (cells : Cells) → result ≡ is_there (state_with self.old (Q.pending queue.old) cells) site }
        ensures struck { (cells : Cells) → state_with self.new (Q.pending queue.new) cells
            ≡ struck_state (state_with self.old (Q.pending queue.old) cells) site value }
    {
        match self.status {
            Status::Running => self.put_word(queue, site, value),
            Status::Done => false,
            Status::Detected => false,
        }
    }

    /// Puts a word at a site of a running machine, if the site exists.
    fn put_word<Q: PendingStores>(&mut self, queue: &mut Q, site: Site, value: u64) -> bool
        requires { self.old.status ≡ Status.Running }
        ensures there { (cells : Cells) → result ≡ is_there (state_with self.old (Q.pending queue.old) cells) site }
        ensures struck { (cells : Cells) → state_with self.new (Q.pending queue.new) cells
            ≡ struck_state (state_with self.old (Q.pending queue.old) cells) site value }
    {
        match site {
            Site::R(r) => {
                let colour = self.file.registers.get(r).colour;
                self.file.registers.put(
                    r,
                    Coloured {
                        colour,
                        word: value,
                    },
                );
                true
            }
            Site::D => {
                self.file.d = value;
                true
            }
            Site::PcG => {
                self.pc_green = value;
                true
            }
            Site::PcB => {
                self.pc_blue = value;
                true
            }
            Site::QAddr(i) => queue.strike_addr(i, value),
            Site::QVal(i) => queue.strike_value(i, value),
        }
    }

    /// Takes one step. A stopped machine does not change, and returns the same result again.
    pub fn step<Q: PendingStores, P: Program>(
        &mut self,
        queue: &mut Q,
        cells: &mut [u64],
        program: &P,
        wild: &mut WildLeft,
    ) -> Stepped
        requires { IsSpellable (P.object program.now) }
        ensures takes { Takes (step (P.object program.now) (state_over self.old (Q.pending queue.old) cells.old) wild.old)
            (state_over self.new (Q.pending queue.new) cells.new) wild.new result }

        // The cells keep their addresses, and a pair that is committed goes to one of them.
        ensures cells { (n : ℕ) → HasCells n (state_over self.old (Q.pending queue.old) cells.old) →
            HasCells n (state_over self.new (Q.pending queue.new) cells.new) }
        ensures commits { (output : outputs.Output) → result ≡ Stepped.Commit output → is_cell (cells_of cells.old) output.addr ≡ true }
    {
        match self.status {
            Status::Running => self.fetch_or_execute(queue, cells, program, wild),
            Status::Done => Stepped::Done,
            Status::Detected => Stepped::Detected,
        }
    }

    /// Fetches an instruction, or executes the one that is fetched.
    #[inline(never)]
    fn fetch_or_execute<Q: PendingStores, P: Program>(
        &mut self,
        queue: &mut Q,
        cells: &mut [u64],
        program: &P,
        wild: &mut WildLeft,
    ) -> Stepped
        requires spellable { IsSpellable (P.object program.now) }
        requires running { self.old.status ≡ Status.Running }
        ensures { Takes (advance (P.object program.now) self.old.fetched (state_over self.old (Q.pending queue.old) cells.old) wild.old)
            (state_over self.new (Q.pending queue.new) cells.new) wild.new result }
    {
        match self.fetched {
            None => self.fetch(program),
            Some(instr) => {
                let effect = self.file.execute(queue, cells, instr, wild);
                self.follow(effect)
            }
        }
    }

    fn fetch<P: Program>(&mut self, program: &P) -> Stepped
        requires spellable { IsSpellable (P.object program.now) }
        requires running { self.old.status ≡ Status.Running }
        ensures { (queue : Pending) (cells : Cells) →
            TakesQuietly (advance (P.object program.now) None (state_with self.old queue cells)) (state_with self.new queue cells) result }
    {
        if self.pc_green != self.pc_blue {
            return self.detect();
        }
        match instr_at(program, self.pc_green) {
            Some(instr) => {
                self.fetched = Some(instr);
                Stepped::Quiet
            }
            None => self.detect(),
        }
    }

    /// Completes the step of an instruction with this effect.
    #[inline(always)]
    fn follow(&mut self, effect: Effect) -> Stepped
        requires running { self.old.status ≡ Status.Running }
        ensures state { (queue : Pending) (cells : Cells) → state_with self.new queue cells
            ≡ followed effect (bank_of (state_with self.old queue cells)) self.old.pc_green self.old.pc_blue self.old.fetched }
        ensures answer { result ≡ told_effect effect }
    {
        match effect {
            Effect::On => {
                self.go_on();
                Stepped::Quiet
            }
            Effect::To(target) => {
                self.pc_green = target;
                self.pc_blue = target;
                self.fetched = None;
                Stepped::Quiet
            }
            Effect::Commit(output) => {
                self.go_on();
                Stepped::Commit(output)
            }
            Effect::Done => {
                self.status = Status::Done;
                Stepped::Done
            }
            Effect::Detected => {
                self.status = Status::Detected;
                Stepped::Detected
            }
        }
    }

    /// Stops because a fault was noticed.
    fn detect(&mut self) -> Stepped
        ensures { (queue : Pending) (cells : Cells) →
            TakesQuietly (detected (state_with self.old queue cells)) (state_with self.new queue cells) result }
    {
        self.status = Status::Detected;
        Stepped::Detected
    }

    /// Both counters grow by 1, and nothing is fetched.
    fn go_on(&mut self)
        ensures { (queue : Pending) (cells : Cells) → state_with self.new queue cells ≡ goes_on (state_with self.old queue cells) }
    {
        self.pc_green = self.pc_green.wrapping_add(1);
        self.pc_blue = self.pc_blue.wrapping_add(1);
        self.fetched = None;
    }

    /// Takes at most `most` steps of a running machine, passes each output to an outlet, and ends early if the machine
    /// stops or the outlet does not go on.
    #[inline(always)]
    pub fn go<Q: PendingStores, P: Program, T: Outlet>(
        &mut self,
        queue: &mut Q,
        cells: &mut [u64],
        program: &P,
        wild: &mut WildLeft,
        most: u64,
        outlet: &mut T,
    ) -> Gone
        requires spellable { IsSpellable (P.object program.now) }
        requires running { self.old.status ≡ Status.Running }
        requires may { (output : outputs.Output) → is_cell (cells_of cells.old) output.addr ≡ true → T.may outlet.old output }
        ensures goes { Goes T.Outlet (P.object program.now) (state_over self.old (Q.pending queue.old) cells.old) wild.old outlet.old
            (state_over self.new (Q.pending queue.new) cells.new) wild.new outlet.new result.taken result.pause }
        ensures heard { T.heard outlet.old
            (span (P.object program.now) result.taken (state_over self.old (Q.pending queue.old) cells.old) wild.old).outputs
            (outlet_goes_on result.pause) outlet.new }
        ensures few { result.taken ≤ most }
        ensures some { 0 < most → 0 < result.taken }
        ensures all { result.pause ≡ Pause.Running → result.taken ≡ most }
        ensures early { result.pause ≢ Pause.Running → 0 < result.taken }
    {
        let mut taken = 0;
        while taken < most {
            let next = self.go_some(queue, cells, program, wild, most - taken, outlet);
            taken += next.taken;
            if !runs_on(next.pause) {
                return Gone {
                    taken,
                    pause: next.pause,
                };
            }
        }
        Gone {
            taken,
            pause: Pause::Running,
        }
    }

    /// Takes some steps: whole instructions if the machine is ready for them, otherwise one step.
    #[inline(always)]
    fn go_some<Q: PendingStores, P: Program, T: Outlet>(
        &mut self,
        queue: &mut Q,
        cells: &mut [u64],
        program: &P,
        wild: &mut WildLeft,
        most: u64,
        outlet: &mut T,
    ) -> Gone
        requires spellable { IsSpellable (P.object program.now) }
        requires running { self.old.status ≡ Status.Running }
        requires may { (output : outputs.Output) → is_cell (cells_of cells.old) output.addr ≡ true → T.may outlet.old output }
        requires some { 0 < most }
        ensures some { 0 < result.taken }
        ensures few { result.taken ≤ most }
        ensures goes { Goes T.Outlet (P.object program.now) (state_over self.old (Q.pending queue.old) cells.old) wild.old outlet.old
            (state_over self.new (Q.pending queue.new) cells.new) wild.new outlet.new result.taken result.pause }
    {
        if most > 1 && self.is_ready() {
            return self.go_ready(queue, cells, program, wild, most, outlet);
        }
        let stepped = self.step(queue, cells, program, wild);
        Gone {
            taken: 1,
            pause: pass_on(stepped, outlet),
        }
    }

    /// Whether nothing is fetched and the counters are equal.
    fn is_ready(&self) -> bool
        requires { self.now.status ≡ Status.Running }
        ensures { (queue : Pending) (cells : Cells) → IsTrue result → state_with self.now queue cells
            ≡ doing (bank_of (state_with self.now queue cells)) self.now.pc_green self.now.pc_green None }
    {
        self.fetched.is_none() && self.pc_green == self.pc_blue
    }

    /// Takes whole instructions of a machine that is ready for one, each in two steps.
    #[inline(always)]
    fn go_ready<Q: PendingStores, P: Program, T: Outlet>(
        &mut self,
        queue: &mut Q,
        cells: &mut [u64],
        program: &P,
        wild: &mut WildLeft,
        most: u64,
        outlet: &mut T,
    ) -> Gone
        requires spellable { IsSpellable (P.object program.now) }
        requires ready { (state_over self.old (Q.pending queue.old) cells.old)
            ≡ doing (bank_of (state_over self.old (Q.pending queue.old) cells.old)) self.old.pc_green self.old.pc_green None }
        requires may { (output : outputs.Output) → is_cell (cells_of cells.old) output.addr ≡ true → T.may outlet.old output }
        requires some { 1 < most }
        ensures some { 0 < result.taken }
        ensures few { result.taken ≤ most }
        ensures goes { Goes T.Outlet (P.object program.now) (state_over self.old (Q.pending queue.old) cells.old) wild.old outlet.old
            (state_over self.new (Q.pending queue.new) cells.new) wild.new outlet.new result.taken result.pause }
    {
        let stretch = do_instructions(
            &mut self.file,
            queue,
            cells,
            program,
            self.pc_green,
            most,
            wild,
            outlet,
        );
        self.pc_green = stretch.pc;
        self.pc_blue = stretch.pc;
        match stretch.pause {
            Pause::Running => {}
            Pause::Refused => {}
            Pause::Done => {
                self.fetched = instr_at(program, stretch.pc);
                self.status = Status::Done;
            }
            Pause::Detected => {
                self.fetched = instr_at(program, stretch.pc);
                self.status = Status::Detected;
            }
        }
        Gone {
            taken: stretch.taken,
            pause: stretch.pause,
        }
    }

    /// Takes at most `most` steps of a running machine, and stops at the first that is not quiet.
    #[inline(always)]
    pub fn advance<Q: PendingStores, P: Program>(
        &mut self,
        queue: &mut Q,
        cells: &mut [u64],
        program: &P,
        wild: &mut WildLeft,
        most: u64,
    ) -> Advance
        requires spellable { IsSpellable (P.object program.now) }
        requires running { self.old.status ≡ Status.Running }
        ensures advances { Advances (P.object program.now) (state_over self.old (Q.pending queue.old) cells.old) wild.old
            (state_over self.new (Q.pending queue.new) cells.new) wild.new most result.taken result.last }
        ensures few { result.taken ≤ most }
        ensures some { 0 < most → 0 < result.taken }

        // The cells keep their addresses, and a pair that is committed goes to one of them.
        ensures cells { (n : ℕ) → HasCells n (state_over self.old (Q.pending queue.old) cells.old) →
            HasCells n (state_over self.new (Q.pending queue.new) cells.new) }
        ensures commits { (output : outputs.Output) → result.last ≡ Stepped.Commit output → is_cell (cells_of cells.old) output.addr
            ≡ true }
    {
        let mut first = FirstOutput { output: None };
        let gone = self.go(queue, cells, program, wild, most, &mut first);
        Advance {
            taken: gone.taken,
            last: first.last(gone.pause),
        }
    }
}

/// Passes the output of a step to an outlet, if it has one.
#[inline(always)]
fn pass_on<T: Outlet>(stepped: Stepped, outlet: &mut T) -> Pause
    requires { (output : outputs.Output) → stepped ≡ Stepped.Commit output → T.may outlet.old output }
    ensures { PassesOn T.Outlet stepped outlet.old outlet.new result }
{
    match stepped {
        Stepped::Quiet => Pause::Running,
        Stepped::Commit(output) => {
            if outlet.take(output) {
                Pause::Running
            } else {
                Pause::Refused
            }
        }
        Stepped::Done => Pause::Done,
        Stepped::Detected => Pause::Detected,
    }
}

/// The instruction at a code address, if one is there.
#[tactic(auto, using(ft_types::proofs::Counted::spellable_counted))]
pub(crate) fn instr_at<P: Program>(program: &P, pc: u64) -> Option<Instr>
    requires { IsSpellable (P.object program.now) }
    ensures found { result ≡ instr_at (P.object program.now) pc }
    ensures length { IfSome result HasNoEmptyRun }
{
    if pc == 0 || pc > program.counts().instrs as u64 {
        return None;
    }
    Some(program.instr((pc - 1) as u32))
}

/// Whether an instruction is at a code address.
pub fn has_instr<P: Program>(program: &P, pc: u64) -> bool
    requires { IsSpellable (P.object program.now) }
    ensures { result ≡ is_some (instr_at (P.object program.now) pc) }
{
    instr_at(program, pc).is_some()
}
