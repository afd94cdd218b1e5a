//! A hart: the registers and the program counter, and the steps that it takes.
ghost use Rattle.std.specs.Prelude.{◌≡◌, ◌<◌, ℕ, List, Option};
ghost use Rattle.ft_riscv.specs.Memory.{word_at, code_at};
ghost use Rattle.ft_riscv.specs.Table.{decoded};
ghost use Rattle.ft_riscv.specs.Results.{result_of, immediate_result, shift_result, upper_result};
ghost use Rattle.ft_riscv.specs.Step.{register, with_register, stepping, quiet, traps, goes_on, jumps, writes, is_aligned, links, load, store, lands, branch, execute, step, stored, went};

use crate::instr::{Condition, Instr};
use crate::memory::{code_at, load, store};
use crate::reg::Reg;
use crate::results::{holds, immediate_result, result_of, shift_result, upper_result};
use crate::table::decode;

/// The registers `x1` to `x31`, and the program counter.
#[derive(Clone, Copy, Debug, PartialEq, Eq)]
pub struct Hart {
    pub registers: [u64; 31],
    pub pc: u64,
}

/// What an instruction does besides changing the hart.
#[derive(Clone, Copy, Debug, PartialEq, Eq)]
pub enum Effect {
    Nothing,
    /// A word is stored.
    Stores { address: u64, value: u64 },
    /// The instruction is none, has no word of memory at its address, or would go on at an address that is not a multiple of 4: the
    /// hart is left as it was.
    Traps,
}

/// Whether an instruction may be at an address: only at a multiple of 4.
fn is_aligned(address: u64) -> bool
    ensures { result ≡ is_aligned address }
{
    address % 4 == 0
}

impl Hart {
    /// The word of a register.
    pub fn register(&self, r: Reg) -> u64
        ensures { result ≡ register self.now r }
    {
        let n = r.number() as usize;
        if n == 0 { 0 } else { self.registers[n - 1] }
    }

    /// Puts a word into a register; `x0` stays 0.
    fn set(&mut self, r: Reg, value: u64)
        ensures { self.new ≡ with_register r value self.old }
    {
        let n = r.number() as usize;
        if n != 0 {
            self.registers[n - 1] = value;
        }
    }

    /// Executes an instruction over memory that begins at `base`; a word that it stores is not stored yet.
    pub fn execute(&mut self, instr: Instr, base: u64, words: &[u64]) -> Effect
        ensures { stepping self.new result ≡ execute instr (word_at base words.now) self.old }
    {
        match instr {
            Instr::Operate {
                operation,
                rd,
                rs1,
                rs2,
            } => self.writes(
                rd,
                result_of(operation, self.register(rs1), self.register(rs2)),
            ),
            Instr::OperateImmediate {
                operation,
                rd,
                rs1,
                value,
            } => self.writes(rd, immediate_result(operation, self.register(rs1), value)),
            Instr::ShiftBy {
                operation,
                rd,
                rs1,
                amount,
            } => self.writes(rd, shift_result(operation, self.register(rs1), amount)),
            Instr::Upper {
                operation,
                rd,
                value,
            } => self.writes(rd, upper_result(operation, self.pc, value)),
            Instr::Load { rd, rs1, offset } => {
                let address = self.register(rs1).wrapping_add(offset);
                self.loads(rd, load(base, words, address))
            },
            Instr::Store { rs1, rs2, offset } => {
                let address = self.register(rs1).wrapping_add(offset);
                let value = self.register(rs2);
                self.stores(address, value, load(base, words, address))
            },
            Instr::Branch {
                condition,
                rs1,
                rs2,
                offset,
            } => {
                let taken = holds(condition, self.register(rs1), self.register(rs2));
                self.branches(taken, offset)
            },
            Instr::Jump { rd, offset } => self.links(rd, self.pc.wrapping_add(offset)),
            Instr::JumpRegister { rd, rs1, offset } => {
                let address = self.register(rs1).wrapping_add(offset);
                self.links(rd, address - address % 2)
            },
        }
    }

    /// Writes a register, and goes on.
    fn writes(&mut self, rd: Reg, value: u64) -> Effect
        ensures { stepping self.new result ≡ writes rd value self.old }
    {
        self.set(rd, value);
        self.pc = self.pc.wrapping_add(4);
        Effect::Nothing
    }

    /// Writes the address after the instruction, and goes on at an address; traps if no instruction may be there.
    fn links(&mut self, rd: Reg, address: u64) -> Effect
        ensures { stepping self.new result ≡ links rd address self.old }
    {
        if !is_aligned(address) {
            return Effect::Traps;
        }
        self.set(rd, self.pc.wrapping_add(4));
        self.pc = address;
        Effect::Nothing
    }

    /// Loads what was found.
    fn loads(&mut self, rd: Reg, found: Option<u64>) -> Effect
        ensures { stepping self.new result ≡ load rd found self.old }
    {
        match found {
            Some(value) => self.writes(rd, value),
            None => Effect::Traps,
        }
    }

    /// Stores a word where one was found.
    fn stores(&mut self, address: u64, value: u64, found: Option<u64>) -> Effect
        ensures { stepping self.new result ≡ store address value found self.old }
    {
        match found {
            Some(_) => {
                self.pc = self.pc.wrapping_add(4);
                Effect::Stores { address, value }
            },
            None => Effect::Traps,
        }
    }

    /// Goes on at the target of a branch that is taken; traps if no instruction may be there.
    fn lands(&mut self, target: u64) -> Effect
        ensures { stepping self.new result ≡ lands target self.old }
    {
        if !is_aligned(target) {
            return Effect::Traps;
        }
        self.pc = target;
        Effect::Nothing
    }

    /// Goes on at the target of a branch if it is taken, and behind the branch if not.
    fn branches(&mut self, taken: bool, offset: u64) -> Effect
        ensures { stepping self.new result ≡ branch taken offset self.old }
    {
        if taken {
            return self.lands(self.pc.wrapping_add(offset));
        }
        self.pc = self.pc.wrapping_add(4);
        Effect::Nothing
    }

    /// Takes a step: `code` begins at `start`, memory at `base`. Returns whether it did not trap.
    pub fn step(&mut self, start: u64, code: &[u32], base: u64, words: &mut [u64]) -> bool
        ensures hart { self.new ≡ (step start code.now base words.old self.old).hart }
        ensures memory { words.new ≡ stored base words.old (step start code.now base words.old self.old).effect }
        ensures went { result ≡ went (step start code.now base words.old self.old).effect }
    {
        match self.attempt(start, code, base, words) {
            Effect::Nothing => true,
            Effect::Stores { address, value } => {
                store(base, words, address, value);
                true
            },
            Effect::Traps => false,
        }
    }

    /// Fetches, decodes and executes an instruction; a word that it stores is not stored yet.
    #[tactic(auto, unfolding(crate::specs::Step::step))]
    fn attempt(&mut self, start: u64, code: &[u32], base: u64, words: &[u64]) -> Effect
        ensures { stepping self.new result ≡ step start code.now base words.now self.old }
    {
        match code_at(start, code, self.pc) {
            None => Effect::Traps,
            Some(word) => match decode(word) {
                None => Effect::Traps,
                Some(instr) => self.execute(instr, base, words),
            },
        }
    }
}
