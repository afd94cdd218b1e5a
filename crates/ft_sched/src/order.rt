//! The order of a schedule's instructions, built from left to right.
//!
//! Leading instructions keep their order, and so do trailing ones. So a trailing instruction waits until it is known
//! that no leading one passes it. A leading instruction stops behind the last one that it may not pass: everything that
//! waits up to that one is written, and then the leading instruction itself. Each instruction waits at most once, so
//! the work is proportional to the number of instructions.
ghost use Rattle.std.specs.Prelude.{◌≡◌, ◌+◌, ◌-◌, ◌<◌, ◌≤◌, ◌^◌, [], true, not, nat_lt, length, cond, OnOk};
ghost use Rattle.ft_exchange.specs.Exchange.{is_leading, is_fixed};
ghost use Rattle.ft_sched.specs.Waiting.{holds_back};
ghost use Rattle.ft_sched.specs.Arranged.{Lays, LaysFirst, LaysAll, GetsPlace};

use crate::waiting::Waiting;
use ft_isa::Instr;
use std::alloc::{AllocError, Global};

/// The instructions that have their final place, and those that wait after them. In the block being scheduled, `queued`
/// counts the pairs in the queue at its start and its green stores, and `committed` its blue stores.
#[derive(Drop)]
pub struct Order {
    laid: Vec<Instr>,
    waiting: Waiting,
    queued: usize,
    committed: usize,
    ghost queued_few: { queued ≤ 8 + length laid.items },
    ghost committed_few: { committed ≤ length laid.items },
}

/// A count, increased by 1 if the test holds.
fn with(count: usize, counts: bool) -> usize
    requires { count + 1 < 2 ^ 64 }
    ensures { result ≡ count + cond counts 1 0 }
{
    if counts { count + 1 } else { count }
}

impl Order {
    /// Nothing is written, and nothing waits.
    pub fn new(alloc: Global) -> Order
        ensures laid { result.laid.items ≡ [] }
        ensures waiting { result.waiting ≡ [] }
    {
        Order {
            laid: Vec::new(alloc),
            waiting: Waiting::new(alloc),
            queued: 0,
            committed: 0,
        }
    }

    /// The instructions in their order.
    pub fn into_laid(self) -> Vec<Instr>
        ensures { result.items ≡ self.laid.items }
    {
        self.laid
    }

    /// Begins a block with this many pairs in the queue.
    pub fn begin_block(&mut self, rows: u32)
        requires { rows ≤ 8 }
        ensures laid { self.new.laid.items ≡ self.old.laid.items }
        ensures waiting { self.new.waiting ≡ self.old.waiting }
        ensures queued { self.new.queued ≡ rows }
        ensures committed { self.new.committed ≡ 0 }
    {
        self.queued = rows as usize;
        self.committed = 0;
    }

    /// Writes an instruction.
    fn lay(&mut self, instr: Instr) -> Result<(), AllocError>
        ensures lays { OnOk result (Lays instr self.old.laid.items self.new.laid.items self.old.queued self.new.queued self.old.committed self.new.committed) }
        ensures waiting { OnOk result (self.new.waiting ≡ self.old.waiting) }
    {
        let queues = instr.is_green_store();
        let commits = instr.is_blue_store();
        self.laid.push(instr)?;
        self.queued = with(self.queued, queues);
        self.committed = with(self.committed, commits);
        Ok(())
    }

    /// Writes the oldest waiting instruction.
    fn lay_first(&mut self) -> Result<(), AllocError>
        requires { 0 < length self.old.waiting }
        ensures { OnOk result (LaysFirst self.old.laid.items self.new.laid.items self.old.waiting self.new.waiting self.old.queued self.new.queued self.old.committed self.new.committed) }
    {
        let first = self.waiting.take();
        self.lay(first)
    }

    /// Whether the static queue is full after the written instructions.
    fn is_full(&self) -> bool
        ensures { result ≡ not (nat_lt (self.now.queued - self.now.committed) 8) }
    {
        self.queued.saturating_sub(self.committed) >= 8
    }

    /// Whether an instruction must stay behind a waiting one.
    fn holds_back(&self, instr: &Instr) -> bool
        ensures { result ≡ holds_back (self.now.queued - self.now.committed) self.now.waiting instr.now }
    {
        if self.waiting.has_conflict(instr) {
            return true;
        }
        instr.is_green_store() && self.is_full() && self.waiting.has_blue_store()
    }

    /// Writes a leading instruction, behind the last waiting one that it may not pass.
    fn lead(&mut self, instr: Instr) -> Result<(), AllocError>
        requires { is_leading instr ≡ true }
        ensures { OnOk result (GetsPlace instr self.old.laid.items self.old.waiting self.old.queued self.old.committed self.new.laid.items self.new.waiting self.new.queued self.new.committed) }
    {
        while self.holds_back(&instr) {
            self.lay_first()?;
        }
        self.lay(instr)
    }

    /// Writes all waiting instructions.
    pub fn lay_all(&mut self) -> Result<(), AllocError>
        ensures waiting { OnOk result (self.new.waiting ≡ []) }
        ensures lays { OnOk result (LaysAll self.old.laid.items self.old.waiting self.old.queued self.old.committed self.new.laid.items self.new.queued self.new.committed) }
    {
        while !self.waiting.is_empty() {
            self.lay_first()?;
        }
        Ok(())
    }

    /// Writes a fixed instruction, after all waiting ones.
    fn fix(&mut self, instr: Instr) -> Result<(), AllocError>
        requires { is_fixed instr ≡ true }
        ensures { OnOk result (GetsPlace instr self.old.laid.items self.old.waiting self.old.queued self.old.committed self.new.laid.items self.new.waiting self.new.queued self.new.committed) }
    {
        self.lay_all()?;
        self.lay(instr)
    }

    /// Places the next instruction of the block: writes it or lets it wait.
    pub fn place(&mut self, instr: Instr) -> Result<(), AllocError>
        ensures { OnOk result (GetsPlace instr self.old.laid.items self.old.waiting self.old.queued self.old.committed self.new.laid.items self.new.waiting self.new.queued self.new.committed) }
    {
        if instr.is_leading() {
            return self.lead(instr);
        }
        if instr.is_fixed() {
            return self.fix(instr);
        }
        self.waiting.push(instr)
    }
}
