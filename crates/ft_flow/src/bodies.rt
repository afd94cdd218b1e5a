//! The blocks of a text.
ghost use Rattle.std.specs.Prelude.{◌≡◌, ◌≢◌, ◌≤◌, ◌<◌, ◌+◌, ◌-◌, ◌^◌, Ok, Err, length, map, IfOk, IfErr, OnOk};
ghost use Rattle.ft_text.specs.Lines.{lines_of};
ghost use Rattle.ft_flow.specs.Bodies.{at_start, begun, labels_of, read_steps, row_read, stepped};
ghost use Rattle.ft_flow.specs.LineWords.{line_words};
ghost use Rattle.ft_flow.specs.Heads.{said};
ghost use Rattle.ft_flow.specs.Named.{known_of};
ghost use Rattle.ft_flow.specs.Steps.{step_in};
ghost use Rattle.ft_flow.specs.declared.flow_error.FlowError.TheVariants as errors;
ghost use Rattle.ft_flow.specs.DeclaredAt.{so_far_at};
ghost use Rattle.ft_flow.specs.RowsAt.{row_at};

use crate::choosing::ends_block;
use crate::fields::{index_of, label_of};
use crate::flow_error::FlowError;
use crate::rows::{Row, next_row};
use crate::steps::Names;
use ft_lower::Step3;
use std::alloc::{AllocError, Global};

/// The names of the blocks, in order.
pub(crate) fn labels_of(alloc: Global, number: u32, text: &[u8]) -> Result<Vec<&[u8]>, AllocError>
    requires { number + length text.now < 2 ^ 32 }
    ensures { IfOk result (λ v. map (λ r. r.now) v.items ≡ labels_of (said number (lines_of text.now))) }
{
    let mut labels = Vec::new(alloc);
    let mut next = number;
    let mut rest = text;
    while let Some(row) = next_row(next, rest) {
        if let Some(label) = label_of(row.line) {
            labels.push(label)?;
        }
        next = row.next;
        rest = row.rest;
    }
    Ok(labels)
}

/// The steps so far and their lines, whether a block isn't ended, and how many blocks have begun.
#[derive(Drop)]
pub(crate) struct SoFar {
    pub steps: Vec<Step3>,
    pub lines: Vec<u32>,
    pub unended: bool,
    pub seen: u32,
}

impl SoFar {
    /// The state before the first block.
    fn new(alloc: Global) -> SoFar
        ensures { so_far_at result ≡ at_start }
    {
        SoFar {
            steps: Vec::new(alloc),
            lines: Vec::new(alloc),
            unended: false,
            seen: 0,
        }
    }

    /// Begins a block with this name.
    fn begin(&mut self, names: &Names<'_>, number: u32, label: &[u8]) -> Result<(), FlowError>
        requires { self.old.seen + 1 < 2 ^ 32 }
        ensures ok { OnOk result (begun (known_of names.now) number label.now (so_far_at self.old) ≡ Ok (so_far_at self.new)) }
        ensures seen { OnOk result (self.new.seen ≤ self.old.seen + 1) }
        ensures err { IfErr result (λ e. begun (known_of names.now) number label.now (so_far_at self.old) ≡ Err e) }
    {
        if self.unended {
            return Err(FlowError::Falls { line: number });
        }
        if index_of(&names.labels, label) != self.seen as usize {
            return Err(FlowError::Name { line: number });
        }
        self.unended = true;
        self.seen += 1;
        Ok(())
    }

    /// Adds the step of a line.
    fn step(&mut self, names: &Names<'_>, number: u32, line: &[u8]) -> Result<(), FlowError>
        ensures ok { OnOk result (stepped number (step_in (known_of names.now) (line_words line.now)) (so_far_at self.old)
            ≡ Ok (so_far_at self.new)) }
        ensures seen { OnOk result (self.new.seen ≡ self.old.seen) }
        ensures err { IfErr result (λ e. e ≢ errors.NoMemory →
            stepped number (step_in (known_of names.now) (line_words line.now)) (so_far_at self.old) ≡ Err e) }
    {
        let Some(step) = names.step_of(line) else {
            return Err(FlowError::Form { line: number });
        };
        if !self.unended {
            return Err(FlowError::Stray { line: number });
        }
        if self.steps.push(step).is_err() {
            return Err(FlowError::NoMemory);
        }
        if self.lines.push(number).is_err() {
            return Err(FlowError::NoMemory);
        }
        self.unended = !ends_block(step);
        Ok(())
    }

    /// Reads one more line.
    fn read(&mut self, names: &Names<'_>, row: Row<'_>) -> Result<(), FlowError>
        requires { self.old.seen + 1 < 2 ^ 32 }
        ensures ok { OnOk result (row_read (known_of names.now) (row_at row.entry) (so_far_at self.old) ≡ Ok (so_far_at self.new)) }
        ensures seen { OnOk result (self.new.seen ≤ self.old.seen + 1) }
        ensures err { IfErr result (λ e. e ≢ errors.NoMemory →
            row_read (known_of names.now) (row_at row.entry) (so_far_at self.old) ≡ Err e) }
    {
        match label_of(row.line) {
            Some(label) => self.begin(names, row.number, label),
            None => self.step(names, row.number, row.line),
        }
    }
}

/// Reads the blocks; `end` is the number of the line after the last.
pub(crate) fn read_steps(
    alloc: Global,
    names: &Names<'_>,
    number: u32,
    text: &[u8],
    end: u32,
) -> Result<SoFar, FlowError>
    requires { number + length text.now < 2 ^ 32 - 1 }
    ensures ok { IfOk result (λ b. read_steps (known_of names.now) end at_start (said number (lines_of text.now))
        ≡ Ok (so_far_at b)) }
    ensures err { IfErr result (λ e. e ≢ errors.NoMemory →
        read_steps (known_of names.now) end at_start (said number (lines_of text.now)) ≡ Err e) }
{
    let mut so_far = SoFar::new(alloc);
    let mut next = number;
    let mut rest = text;
    while let Some(row) = next_row(next, rest) {
        match so_far.read(names, row) {
            Ok(()) => {}
            Err(error) => return Err(error),
        }
        next = row.next;
        rest = row.rest;
    }
    if so_far.unended || so_far.seen == 0 {
        return Err(FlowError::Missing { line: end });
    }
    Ok(so_far)
}
