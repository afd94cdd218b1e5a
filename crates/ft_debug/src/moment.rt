//! Moments of a session.
ghost use Rattle.std.specs.Prelude.{◌≡◌, ◌+◌, ◌^◌, ◌<◌, ℕ, true, IfOk, length};
ghost use Rattle.ft_types.specs.Spellable.{IsSpellable};
ghost use Rattle.ft_semantics.specs.State.{start, is_cell, HasCells};
ghost use Rattle.ft_semantics.specs.Step.{step};
ghost use Rattle.ft_machine.specs.Answers.{Takes};
ghost use Rattle.ft_isa.specs.declared.output.Output as outputs;

use ft_isa::{NoMemory, Wild};
use ft_machine::{Machine, Stepped, WildLeft};
use ft_types::Program;
use std::alloc::Global;

/// A state of the machine, the remaining answers to wild loads, and the number of steps that led there.
#[derive(Drop)]
pub struct Moment<'w> {
    pub machine: Machine,
    pub wild: WildLeft<'w>,
    pub position: u64,
}

impl<'w> Moment<'w> {
    /// The moment before the first step.
    pub fn new<P: Program>(
        alloc: Global,
        program: &P,
        wild: &'w [Wild],
    ) -> Result<Moment<'w>, NoMemory>
        requires { IsSpellable (P.object program.now) }
        ensures machine { IfOk result (λ m. m.machine ≡ start (P.object program.now)) }
        ensures wild { IfOk result (λ m. m.wild ≡ wild.now) }
        ensures position { IfOk result (λ m. m.position ≡ 0) }
        ensures cells { IfOk result (λ m. HasCells (length (P.object program.now).cells) m.machine) }
    {
        let machine = Machine::new(alloc, program)?;
        Ok(Moment {
            machine,
            wild: WildLeft::new(wild),
            position: 0,
        })
    }

    /// Takes one step.
    pub fn step<P: Program>(&mut self, program: &P) -> Stepped
        requires spellable { IsSpellable (P.object program.now) }
        requires room { self.old.position < 2 ^ 63 }
        ensures takes { Takes (step (P.object program.now) self.old.machine self.old.wild) self.new.machine self.new.wild result }
        ensures position { self.new.position ≡ self.old.position + 1 }
        ensures cells { (n : ℕ) → HasCells n self.old.machine → HasCells n self.new.machine }
        ensures commits { (output : outputs.Output) → result ≡ Stepped.Commit output → is_cell self.old.machine.cells output.addr ≡ true }
    {
        self.position += 1;
        self.machine.step(program, &mut self.wild)
    }

    /// Copies another moment of the same program, without allocating.
    pub fn copy_from(&mut self, other: &Moment<'w>)
        requires { (a : ℕ) → is_cell self.old.machine.cells a ≡ is_cell other.now.machine.cells a }
        ensures { self.new ≡ other.now }
    {
        self.machine.copy_from(&other.machine);
        self.wild.copy_from(&other.wild);
        self.position = other.position;
    }
}
