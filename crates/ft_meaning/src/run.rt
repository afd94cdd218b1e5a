//! A run of a program, which writes its outputs as they occur.
ghost use Rattle.std.specs.Prelude.{◌≡◌, ◌<◌, length, map, slice_index};
ghost use Rattle.ft_isa.specs.Words.{apply};
ghost use Rattle.ft_syntax.specs.Plain.{none, plain_expression, plain_statement, plain_list};
ghost use Rattle.ft_scope.specs.Size.{same_slot, SlotFits, RunFits, ExpressionFits, StatementsFit};
ghost use Rattle.ft_scope.specs.declared.slot.Slot.TheVariants.{Cell};
ghost use Rattle.ft_meaning.specs.Meaning.{indexed_cell, value, assigned, loops, run, Ended};
ghost use Rattle.ft_meaning.specs.Runs.{Keeps, Ready, RunsTo};

use crate::output_line::put_output;
use ft_edge::Sink;
use ft_isa::{Op, apply};
use ft_scope::Slot;
use ft_syntax::{Expr, Stmt};

/// Why a run stopped before its end.
#[derive(Clone, Copy)]
pub enum Stop {
    /// A loop's test was not 0, and no turn was left.
    Cut,
    /// A line could not be written.
    WriteFault,
}

/// The words of variables and cells, the turns left, and room for a line.
#[derive(Drop)]
pub struct Run {
    pub vars: Vec<u64>,
    pub cells: Vec<u64>,
    pub left: u64,
    pub line: Vec<u8>,
}

/// The cell of an array that a word selects, out of `cells` cells.
fn cell_at(array: Slot, word: u64, cells: usize) -> usize
    requires { RunFits cells array }
    ensures within { result < cells }
    ensures cell { result ≡ indexed_cell array word }
{
    match array {
        Slot::Run { first, length } => first as usize + (word % u64::from(length)) as usize,
        Slot::Cell(_) | Slot::Var(_) => unreachable!(),
    }
}

/// The word of the array cell that an index selects. This is a separate function so that evaluating names and literals
/// need not save processor registers.
#[inline(never)]
#[cycle(word)]
fn indexed_word(array: &Slot, index: &Expr<Slot>, vars: &[u64], cells: &[u64]) -> u64
    requires array { RunFits (length cells.now) array.now }
    requires index { ExpressionFits (length cells.now) (length vars.now) (plain_expression same_slot index.now) }
    ensures { result ≡ slice_index cells.now (indexed_cell array.now (value (plain_expression same_slot index.now) vars.now cells.now)) }
{
    let word = word_of(index, vars, cells);
    cells[cell_at(*array, word, cells.len())]
}

/// The word of an operation on two expressions. This is a separate function for the same reason as `indexed_word`.
#[inline(never)]
#[cycle(word)]
fn operation_word(op: Op, a: &Expr<Slot>, b: &Expr<Slot>, vars: &[u64], cells: &[u64]) -> u64
    requires a { ExpressionFits (length cells.now) (length vars.now) (plain_expression same_slot a.now) }
    requires b { ExpressionFits (length cells.now) (length vars.now) (plain_expression same_slot b.now) }
    ensures { result ≡ apply op (value (plain_expression same_slot a.now) vars.now cells.now) (value (plain_expression same_slot b.now) vars.now cells.now) }
{
    let x = word_of(a, vars, cells);
    let y = word_of(b, vars, cells);
    apply(op, x, y)
}

/// An expression's word, given the words of the variables and the cells.
#[cycle(word)]
fn word_of(e: &Expr<Slot>, vars: &[u64], cells: &[u64]) -> u64
    requires { ExpressionFits (length cells.now) (length vars.now) (plain_expression same_slot e.now) }
    ensures { result ≡ value (plain_expression same_slot e.now) vars.now cells.now }
{
    match e {
        Expr::Literal(word) => *word,
        Expr::Name(Slot::Var(x)) => vars[usize::from(*x)],
        Expr::Name(Slot::Cell(k)) => cells[*k as usize],
        Expr::Name(Slot::Run { .. }) => 0,
        Expr::At { name, index } => indexed_word(name, index, vars, cells),
        Expr::Op { op, a, b } => operation_word(*op, a, b, vars, cells),
    }
}

impl Run {
    /// An expression's word.
    fn word(&self, e: &Expr<Slot>) -> u64
        requires { ExpressionFits (length self.now.cells.items) (length self.now.vars.items) (plain_expression same_slot e.now) }
        ensures { result ≡ value (plain_expression same_slot e.now) self.now.vars.items self.now.cells.items }
    {
        word_of(e, &self.vars, &self.cells)
    }

    /// The cell of an array that an index selects.
    fn cell(&self, array: Slot, index: &Expr<Slot>) -> usize
        requires array { RunFits (length self.now.cells.items) array }
        requires index { ExpressionFits (length self.now.cells.items) (length self.now.vars.items) (plain_expression same_slot index.now) }
        ensures within { result < length self.now.cells.items }
        ensures cell { result ≡ indexed_cell array (value (plain_expression same_slot index.now) self.now.vars.items self.now.cells.items) }
    {
        cell_at(array, self.word(index), self.cells.len())
    }

    /// Assigns a word to a cell, and writes its line.
    fn assign_cell<K: Sink>(
        &mut self,
        names: &[Vec<u8>],
        k: usize,
        word: u64,
        out: &mut K,
    ) -> Result<(), Stop>
        requires fits { k < length self.old.cells.items }
        requires ready { Ready (map (λ n. n.items) names.now) self.old }
        ensures runs { RunsTo (λ s. Ended (assigned (Cell k) word s)) (map (λ n. n.items) names.now) self.old self.new (K.log out.old) (K.log out.new) result }
        ensures keeps { Keeps self.old self.new }
    {
        match put_output(&names[k], word, &mut self.line, out) {
            Ok(()) => {}
            Err(_) => return Err(Stop::WriteFault),
        }
        self.cells[k] = word;
        Ok(())
    }

    /// Assigns a word, and writes the line if it goes to a cell.
    fn assign<K: Sink>(
        &mut self,
        names: &[Vec<u8>],
        to: Slot,
        word: u64,
        out: &mut K,
    ) -> Result<(), Stop>
        requires fits { SlotFits (length self.old.cells.items) (length self.old.vars.items) to }
        requires ready { Ready (map (λ n. n.items) names.now) self.old }
        ensures runs { RunsTo (λ s. Ended (assigned to word s)) (map (λ n. n.items) names.now) self.old self.new (K.log out.old) (K.log out.new) result }
        ensures keeps { Keeps self.old self.new }
    {
        match to {
            Slot::Cell(k) => self.assign_cell(names, k as usize, word, out),
            Slot::Var(x) => {
                self.vars[usize::from(x)] = word;
                Ok(())
            }
            Slot::Run { .. } => Ok(()),
        }
    }

    /// Runs statements.
    #[cycle(run)]
    pub fn statements<K: Sink>(
        &mut self,
        names: &[Vec<u8>],
        all: &[Stmt<Slot>],
        out: &mut K,
    ) -> Result<(), Stop>
        requires fits { StatementsFit (length self.old.cells.items) (length self.old.vars.items) (plain_list same_slot all.now) }
        requires ready { Ready (map (λ n. n.items) names.now) self.old }
        ensures runs { RunsTo (run (plain_list same_slot all.now)) (map (λ n. n.items) names.now) self.old self.new (K.log out.old) (K.log out.new) result }
        ensures keeps { Keeps self.old self.new }
    {
        for s in all {
            if let Err(stop) = self.statement(names, s, out) {
                return Err(stop);
            }
        }
        Ok(())
    }

    /// Runs a statement.
    #[cycle(run)]
    fn statement<K: Sink>(
        &mut self,
        names: &[Vec<u8>],
        s: &Stmt<Slot>,
        out: &mut K,
    ) -> Result<(), Stop>
        requires fits { StatementsFit (length self.old.cells.items) (length self.old.vars.items) (plain_statement same_slot s.now none) }
        requires ready { Ready (map (λ n. n.items) names.now) self.old }
        ensures runs { RunsTo (run (plain_statement same_slot s.now none)) (map (λ n. n.items) names.now) self.old self.new (K.log out.old) (K.log out.new) result }
        ensures keeps { Keeps self.old self.new }
    {
        match s {
            Stmt::Assign { to, value } => {
                let word = self.word(value);
                self.assign(names, *to, word, out)
            }
            Stmt::AssignAt { to, index, value } => {
                let k = self.cell(*to, index);
                let word = self.word(value);
                self.assign_cell(names, k, word, out)
            }
            Stmt::While { test, body } => self.repeat(names, body, test, out),
            Stmt::If { test, yes, no } => {
                if self.word(test) != 0 {
                    self.statements(names, yes, out)
                } else {
                    self.statements(names, no, out)
                }
            }
        }
    }

    /// Runs a loop.
    #[cycle(run)]
    fn repeat<K: Sink>(
        &mut self,
        names: &[Vec<u8>],
        body: &[Stmt<Slot>],
        test: &Expr<Slot>,
        out: &mut K,
    ) -> Result<(), Stop>
        requires test { ExpressionFits (length self.old.cells.items) (length self.old.vars.items) (plain_expression same_slot test.now) }
        requires body { StatementsFit (length self.old.cells.items) (length self.old.vars.items) (plain_list same_slot body.now) }
        requires ready { Ready (map (λ n. n.items) names.now) self.old }
        ensures runs { RunsTo (loops self.old.left (plain_expression same_slot test.now) (run (plain_list same_slot body.now))) (map (λ n. n.items) names.now) self.old self.new (K.log out.old) (K.log out.new) result }
        ensures keeps { Keeps self.old self.new }
    {
        while self.word(test) != 0 {
            if self.left == 0 {
                return Err(Stop::Cut);
            }
            self.left -= 1;
            if let Err(stop) = self.statements(names, body, out) {
                return Err(stop);
            }
        }
        Ok(())
    }
}
