//! What instructions work on, and what each of them does to it.
ghost use Rattle.std.specs.Prelude.{◌≡◌, ◌<◌, ℕ, IsTrue, Option, ◌&&◌};
ghost use Rattle.ft_isa.specs.Words.{apply, cell_in_run};
ghost use Rattle.ft_isa.specs.Pending.{Pending, is_oldest};
ghost use Rattle.ft_isa.specs.declared.instr.Instr as instrs;
ghost use Rattle.ft_machine.specs.declared.bank.RegisterFile as files;
ghost use Rattle.ft_semantics.specs.State.{Cells, held, is_cell};
ghost use Rattle.ft_semantics.specs.Step.{execute, detected, writes, found, load, wild_load, store_green, store_blue, commit, jump_green, jump_blue, pass};
ghost use Rattle.ft_machine.specs.Effects.{Does, DoesQuietly, doing, went};
ghost use Rattle.ft_machine.specs.Banks.{bank_over, bank_with};
ghost use Rattle.ft_machine.specs.Arrays.{cells_of};
ghost use Rattle.ft_machine.specs.Lengths.{HasNoEmptyRun};

use crate::cells::{cell_at, has_cell, put_cell};
use crate::registers::Registers;
use crate::wild::WildLeft;
use ft_isa::{Colour, Coloured, FIRST_CELL, Instr, Op, Output, Reg, Subst, Wild, apply};
use ft_queue::PendingStores;

/// What an instruction did besides changing the bank.
#[derive(Clone, Copy, Debug, PartialEq, Eq)]
pub enum Effect {
    /// The machine goes on with the next instruction.
    On,
    /// The machine goes on at this code address.
    To(u64),
    /// The machine goes on, and this pair was committed.
    Commit(Output),
    /// The machine has executed `halt`.
    Done,
    /// A fault was noticed.
    Detected,
}

/// The registers and the destination register d. The store queue and the words of the cells are arguments of each method
/// that needs them: they may belong to a machine, or to the caller.
#[derive(Drop)]
pub struct RegisterFile {
    pub registers: Registers,
    pub d: u64,
}

impl RegisterFile {
    /// Executes an instruction.
    #[inline(always)]
    pub fn execute<Q: PendingStores>(
        &mut self,
        queue: &mut Q,
        cells: &mut [u64],
        instr: Instr,
        wild: &mut WildLeft,
    ) -> Effect
        requires { HasNoEmptyRun instr }
        ensures { Does (execute instr) (bank_over self.old (Q.pending queue.old) cells.old)
            (bank_over self.new (Q.pending queue.new) cells.new) result wild.old wild.new }
    {
        match instr {
            Instr::OpReg { op, rd, rs, rt } => {
                let other = self.word(rt);
                self.operate(op, rd, rs, other)
            }
            Instr::OpWord { op, rd, rs, value } => self.operate(op, rd, rs, value.word),
            Instr::Mov {
                rd,
                value,
                basic: _,
            } => self.write(rd, value),
            Instr::Ld { colour, rd, rs } => self.load(queue, cells, colour, rd, rs, wild),
            Instr::St {
                colour: Colour::Green,
                rd,
                rs,
            } => self.store_green(queue, rd, rs),
            Instr::St {
                colour: Colour::Blue,
                rd,
                rs,
            } => self.store_blue(queue, cells, rd, rs),
            Instr::JmpG { rd } => self.jump_green(rd),
            Instr::JmpB { rd, subst: _ } => self.jump_blue(rd),
            Instr::BzG { rz, rd } => self.branch_green(rz, rd),
            Instr::BzB { rz, rd, subst } => self.branch_blue(rz, rd, subst),
            Instr::Halt => Effect::Done,
            Instr::Idx {
                rd,
                rs,
                first,
                length,
            } => self.index(rd, rs, first, length),
        }
    }

    /// The word of a register.
    #[inline(always)]
    fn word(&self, r: Reg) -> u64
        ensures { result ≡ (held self.now.registers r.number).word }
    {
        self.registers.get(r).word
    }

    /// Puts a coloured word into a register, and goes on.
    #[inline(always)]
    fn put(&mut self, rd: Reg, value: Coloured)
        ensures { (queue : Pending) (cells : Cells) →
            DoesQuietly (writes rd value.colour value.word) (bank_with self.old queue cells) (bank_with self.new queue cells) Effect.On }
    {
        self.registers.put(rd, value);
    }

    /// Writes a register.
    #[inline(always)]
    fn write(&mut self, rd: Reg, value: Coloured) -> Effect
        ensures { (queue : Pending) (cells : Cells) →
            DoesQuietly (writes rd value.colour value.word) (bank_with self.old queue cells) (bank_with self.new queue cells) result }
    {
        self.put(rd, value);
        Effect::On
    }

    /// Writes the result of an operation, in the colour of its first source.
    #[inline(always)]
    fn operate(&mut self, op: Op, rd: Reg, rs: Reg, other: u64) -> Effect
        ensures { (queue : Pending) (cells : Cells) →
            DoesQuietly (writes rd (held self.old.registers rs.number).colour (apply op (held self.old.registers rs.number).word other))
            (bank_with self.old queue cells) (bank_with self.new queue cells) result }
    {
        let Coloured { colour, word } = self.registers.get(rs);
        let word = applied(op, word, other);
        self.write(rd, Coloured { colour, word })
    }

    /// Writes the address of the cell that a register selects in a run of cells, in the colour of that register.
    #[inline(always)]
    fn index(&mut self, rd: Reg, rs: Reg, first: u32, length: u32) -> Effect
        requires { 0 < length }
        ensures { (queue : Pending) (cells : Cells) → DoesQuietly
            (writes rd (held self.old.registers rs.number).colour (cell_in_run first length (held self.old.registers rs.number).word))
            (bank_with self.old queue cells) (bank_with self.new queue cells) result }
    {
        let Coloured { colour, word } = self.registers.get(rs);
        let word = cell_in_run(first, length, word);
        self.write(rd, Coloured { colour, word })
    }

    #[inline(always)]
    fn load<Q: PendingStores>(
        &mut self,
        queue: &Q,
        cells: &[u64],
        colour: Colour,
        rd: Reg,
        rs: Reg,
        wild: &mut WildLeft,
    ) -> Effect
        ensures { Does (λ s w. load colour rd (found colour s (held s.registers rs.number).word) s w)
            (bank_over self.old (Q.pending queue.now) cells.now) (bank_over self.new (Q.pending queue.now) cells.now)
            result wild.old wild.new }
    {
        if self.loads(queue, cells, colour, rd, rs, wild) {
            Effect::On
        } else {
            Effect::Detected
        }
    }

    /// Loads, and returns whether the machine goes on. It is a separate function because searching the pending
    /// stores and taking answers to wild loads require processor registers that the loop over instructions uses.
    #[inline(never)]
    fn loads<Q: PendingStores>(
        &mut self,
        queue: &Q,
        cells: &[u64],
        colour: Colour,
        rd: Reg,
        rs: Reg,
        wild: &mut WildLeft,
    ) -> bool
        ensures { Does (λ s w. load colour rd (found colour s (held s.registers rs.number).word) s w)
            (bank_over self.old (Q.pending queue.now) cells.now) (bank_over self.new (Q.pending queue.now) cells.now)
            (went result) wild.old wild.new }
    {
        let addr = self.word(rs);
        match found(queue, cells, colour, addr) {
            Some(word) => {
                self.put(rd, Coloured { colour, word });
                true
            }
            None => self.loads_wild(colour, rd, wild),
        }
    }

    #[inline(always)]
    fn loads_wild(&mut self, colour: Colour, rd: Reg, wild: &mut WildLeft) -> bool
        ensures { (queue : Pending) (cells : Cells) →
            Does (wild_load colour rd) (bank_with self.old queue cells) (bank_with self.new queue cells) (went result) wild.old wild.new }
    {
        match wild.next() {
            Wild::Word(word) => {
                self.put(rd, Coloured { colour, word });
                true
            }
            Wild::Stop => false,
        }
    }

    #[inline(always)]
    fn store_green<Q: PendingStores>(&self, queue: &mut Q, rd: Reg, rs: Reg) -> Effect
        ensures { (cells : Cells) →
            DoesQuietly (store_green (held self.now.registers rd.number).word (held self.now.registers rs.number).word)
            (bank_with self.now (Q.pending queue.old) cells) (bank_with self.now (Q.pending queue.new) cells) result }
    {
        let addr = self.word(rd);
        let value = self.word(rs);
        match queue.push(addr, value) {
            Ok(()) => Effect::On,
            Err(_) => Effect::Detected,
        }
    }

    #[inline(always)]
    fn store_blue<Q: PendingStores>(
        &self,
        queue: &mut Q,
        cells: &mut [u64],
        rd: Reg,
        rs: Reg,
    ) -> Effect
        ensures { DoesQuietly (store_blue (held self.now.registers rd.number).word (held self.now.registers rs.number).word)
            (bank_over self.now (Q.pending queue.old) cells.old) (bank_over self.now (Q.pending queue.new) cells.new) result }
    {
        let addr = self.word(rd);
        let value = self.word(rs);
        if commits(queue, cells, addr, value) {
            commit(queue, cells, addr, value);
            return Effect::Commit(Output { addr, value });
        }
        Effect::Detected
    }

    #[inline(always)]
    fn jump_green(&mut self, rd: Reg) -> Effect
        ensures { (queue : Pending) (cells : Cells) → DoesQuietly (jump_green (held self.old.registers rd.number).word)
            (bank_with self.old queue cells) (bank_with self.new queue cells) result }
    {
        if self.d != 0 {
            return Effect::Detected;
        }
        self.d = self.word(rd);
        Effect::On
    }

    #[inline(always)]
    fn jump_blue(&mut self, rd: Reg) -> Effect
        ensures { (queue : Pending) (cells : Cells) → DoesQuietly (jump_blue (held self.old.registers rd.number).word)
            (bank_with self.old queue cells) (bank_with self.new queue cells) result }
    {
        let target = self.word(rd);
        if self.d == 0 || self.d != target {
            return Effect::Detected;
        }
        self.d = 0;
        Effect::To(target)
    }

    /// A branch that is not taken.
    #[inline(always)]
    fn pass(&mut self) -> Effect
        ensures { (queue : Pending) (cells : Cells) →
            DoesQuietly pass (bank_with self.old queue cells) (bank_with self.new queue cells) result }
    {
        if self.d != 0 {
            return Effect::Detected;
        }
        Effect::On
    }

    #[inline(always)]
    fn branch_green(&mut self, rz: Reg, rd: Reg) -> Effect
        ensures { (queue : Pending) (cells : Cells) →
            DoesQuietly (execute (instrs.Instr.BzG rz rd)) (bank_with self.old queue cells) (bank_with self.new queue cells) result }
    {
        if self.word(rz) == 0 {
            self.jump_green(rd)
        } else {
            self.pass()
        }
    }

    #[inline(always)]
    fn branch_blue(&mut self, rz: Reg, rd: Reg, subst: Subst) -> Effect
        ensures { (queue : Pending) (cells : Cells) →
            DoesQuietly (execute (instrs.Instr.BzB rz rd subst)) (bank_with self.old queue cells) (bank_with self.new queue cells) result }
    {
        if self.word(rz) == 0 {
            self.jump_blue(rd)
        } else {
            self.pass()
        }
    }
}

/// What a load finds, apart from the answers to wild loads: a green load looks at the pending stores first.
#[inline(always)]
fn found<Q: PendingStores>(queue: &Q, cells: &[u64], colour: Colour, addr: u64) -> Option<u64>
    ensures { (file : files.RegisterFile) (g b : ℕ) (f : Option instrs.Instr) →
        result ≡ found colour (doing (bank_over file (Q.pending queue.now) cells.now) g b f) addr }
{
    match colour {
        Colour::Green => match queue.newest_at(addr) {
            Some(word) => Some(word),
            None => cell_at(cells, addr),
        },
        Colour::Blue => cell_at(cells, addr),
    }
}

/// The result of an operation on two words. Shifts are separate functions because their machine code needs a processor
/// register that the loop over instructions uses. Each arm names its operation, so that the compiled code branches only
/// once.
#[inline(always)]
fn applied(op: Op, a: u64, b: u64) -> u64
    ensures { result ≡ apply op a b }
{
    match op {
        Op::Add => apply(Op::Add, a, b),
        Op::Sub => apply(Op::Sub, a, b),
        Op::Mul => apply(Op::Mul, a, b),
        Op::Ltu => apply(Op::Ltu, a, b),
        Op::Eq => apply(Op::Eq, a, b),
        Op::And => apply(Op::And, a, b),
        Op::Or => apply(Op::Or, a, b),
        Op::Xor => apply(Op::Xor, a, b),
        Op::Shl => shifted_left(a, b),
        Op::Shr => shifted_right(a, b),
    }
}

/// The first word shifted left by the second.
#[inline(never)]
fn shifted_left(a: u64, b: u64) -> u64
    ensures { result ≡ apply Op.Shl a b }
{
    apply(Op::Shl, a, b)
}

/// The first word shifted right by the second.
#[inline(never)]
fn shifted_right(a: u64, b: u64) -> u64
    ensures { result ≡ apply Op.Shr a b }
{
    apply(Op::Shr, a, b)
}

/// The address of the cell that a word selects in a run of cells. It is a separate function, like the shifts, because a
/// division needs two processor registers.
#[inline(never)]
fn cell_in_run(first: u32, length: u32, word: u64) -> u64
    requires { 0 < length }
    ensures { result ≡ cell_in_run first length word }
{
    FIRST_CELL + (first as u64 + word % length as u64)
}

/// Whether the oldest entry is this pair, and its address is a cell's.
#[inline(never)]
fn commits<Q: PendingStores>(queue: &Q, cells: &[u64], addr: u64, value: u64) -> bool
    ensures { result ≡ (is_oldest (Q.pending queue.now) addr value && is_cell (cells_of cells.now) addr) }
{
    is_oldest(queue, addr, value) && has_cell(cells, addr)
}

/// Commits the oldest entry, which is this pair. This and the test before it are separate functions, like `loads`, so that
/// the cells take no processor registers in the loop over instructions.
#[inline(never)]
fn commit<Q: PendingStores>(queue: &mut Q, cells: &mut [u64], addr: u64, value: u64)
    requires { IsTrue (is_oldest (Q.pending queue.old) addr value && is_cell (cells_of cells.old) addr) }
    ensures { (file : files.RegisterFile) → DoesQuietly (commit addr value) (bank_over file (Q.pending queue.old) cells.old)
        (bank_over file (Q.pending queue.new) cells.new) (Effect.Commit (record { addr = addr; value = value })) }
{
    let _ = queue.pop_oldest();
    put_cell(cells, addr, value);
}

/// Whether the oldest entry is this pair.
#[inline(always)]
fn is_oldest<Q: PendingStores>(queue: &Q, addr: u64, value: u64) -> bool
    ensures { result ≡ is_oldest (Q.pending queue.now) addr value }
{
    match queue.get(0) {
        Some((a, v)) => a == addr && v == value,
        None => false,
    }
}
