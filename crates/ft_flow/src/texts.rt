//! From a text to an object.
ghost use Rattle.std.specs.Prelude.{◌≡◌, ◌≢◌, ◌≤◌, ◌<◌, ◌+◌, ◌-◌, ◌^◌, [], Ok, Err, All, length, map, slice_index_or};
ghost use Rattle.std.specs.Prelude.{IfOk, IfErr, OnOk};
ghost use Rattle.ft_isa.specs.Words.{IsWord};
ghost use Rattle.ft_text.specs.Lines.{lines_of};
ghost use Rattle.ft_compile.specs.Cells.{AreCells};
ghost use Rattle.ft_compile.specs.FlowObjects.{StandsForFlow};
ghost use Rattle.ft_lower.specs.Cutting.{blocks_onto};
ghost use Rattle.ft_lower.specs.Well.{IsWell};
ghost use Rattle.ft_modules.specs.Linkable.{IsModule};
ghost use Rattle.ft_flow.specs.Faults.{ends};
ghost use Rattle.ft_flow.specs.DeclaredAt.{cells_at, declared_at};
ghost use Rattle.ft_flow.specs.Heads.{said};
ghost use Rattle.ft_flow.specs.Lawful.{IsLawful};
ghost use Rattle.ft_flow.specs.PartsAt.{parts_at};
ghost use Rattle.ft_flow.specs.Runs.{StandsForText};
ghost use Rattle.ft_flow.specs.Texts.{FlowText, blocks_in, judged, read_blocks, read_rows, read_text};
ghost use Rattle.ft_flow.specs.declared.flow_error.FlowError.TheVariants as errors;

use crate::bodies::{labels_of, read_steps};
use crate::cells::{Cells, Declared, read_cells};
use crate::choosing::{choose_spares, ends_block};
use crate::fault::{Frame, SparesError};
use crate::flow_error::FlowError;
use crate::heads::read_head;
use crate::limits::{LIMIT, MOST_CELLS, PAIRS};
use crate::steps::Names;
use ft_compile::compile_flow;
use ft_isa::NoMemory;
use ft_lower::{Flow, Step3};
use ft_text::read_line;
use ft_types::Object;
use std::alloc::Global;

/// The number of the line after the last.
fn line_after(text: &[u8]) -> u32
    requires { length text.now ≤ LIMIT }
    ensures { result ≡ length (lines_of text.now) + 1 }
{
    let mut number = 1;
    let mut left = text;
    while let Some((_, rest)) = read_line(left) {
        number += 1;
        left = rest;
    }
    number
}

/// What a text says.
#[derive(Drop)]
struct Parts {
    vars: u8,
    names: Vec<Vec<u8>>,
    inits: Vec<u64>,
    steps: Vec<Step3>,
    lines: Vec<u32>,
}

/// What the blocks after these declarations say; `end` is the number of the line after the last.
fn read_blocks(alloc: Global, vars: u8, read: Cells<'_>, end: u32) -> Result<Parts, FlowError>
    requires vars { vars < PAIRS }
    requires few { length read.declared.inits.items ≤ MOST_CELLS }
    requires room { read.next + length read.rest.now < 2 ^ 32 - 1 }
    requires lawful { IsLawful (declared_at read.declared) }
    ensures ok { IfOk result (λ p. read_blocks end vars (cells_at read.entry) ≡ Ok (parts_at p)) }
    ensures cells { IfOk result (λ p. All IsWord p.inits.items → AreCells (map (λ n. n.items) p.names.items) p.inits.items) }
    ensures vars { IfOk result (λ p. p.vars < PAIRS) }
    ensures few { IfOk result (λ p. length p.inits.items ≤ MOST_CELLS) }
    ensures err { IfErr result (λ e. e ≢ errors.NoMemory → read_blocks end vars (cells_at read.entry) ≡ Err e) }
{
    let Cells {
        declared,
        next,
        rest,
    } = read;
    let Ok(labels) = labels_of(alloc, next, rest) else {
        return Err(FlowError::NoMemory);
    };
    let Declared {
        names,
        firsts,
        lengths,
        cells,
        inits,
    } = declared;
    let names = Names {
        names,
        firsts,
        lengths,
        cells: inits.len() as u32,
        labels,
    };
    match read_steps(alloc, &names, next, rest, end) {
        Ok(so_far) => Ok(Parts {
            vars,
            names: cells,
            inits,
            steps: so_far.steps,
            lines: so_far.lines,
        }),
        Err(error) => Err(error),
    }
}

/// What the lines of a text say.
fn read_rows(alloc: Global, text: &[u8]) -> Result<Parts, FlowError>
    requires { length text.now ≤ LIMIT }
    ensures ok { IfOk result (λ p. read_rows (length (lines_of text.now) + 1) (said 1 (lines_of text.now)) ≡ Ok (parts_at p)) }
    ensures cells { IfOk result (λ p. All IsWord p.inits.items → AreCells (map (λ n. n.items) p.names.items) p.inits.items) }
    ensures vars { IfOk result (λ p. p.vars < PAIRS) }
    ensures few { IfOk result (λ p. length p.inits.items ≤ MOST_CELLS) }
    ensures err { IfErr result (λ e. e ≢ errors.NoMemory →
        read_rows (length (lines_of text.now) + 1) (said 1 (lines_of text.now)) ≡ Err e) }
{
    let end = line_after(text);
    let head = match read_head(text, end) {
        Ok(head) => head,
        Err(error) => return Err(error),
    };
    match read_cells(alloc, head.next, head.rest) {
        Ok(read) => read_blocks(alloc, head.vars, read, end),
        Err(error) => Err(error),
    }
}

/// How many blocks these steps end.
fn count_ends(steps: &[Step3]) -> usize
    ensures { result ≡ ends steps.now }
{
    let mut count = 0;
    for step in steps {
        if ends_block(*step) {
            count += 1;
        }
    }
    count
}

/// The line of a step; 0 if there is none.
fn line_of(lines: &[u32], at: usize) -> u32
    ensures { result ≡ slice_index_or lines.now at 0 }
{
    if at < lines.len() { lines[at] } else { 0 }
}

/// The steps of a text with their spares.
fn spares_of(alloc: Global, parts: &Parts) -> Result<Vec<Step3>, FlowError>
    requires vars { parts.now.vars < PAIRS }
    requires few { length parts.now.inits.items ≤ MOST_CELLS }
    ensures ok { OnOk result (judged (parts_at parts.now) ≡ Ok (parts_at parts.now)) }
    ensures spared { IfOk result (λ v. blocks_onto [] v.items ≡ blocks_in (parts_at parts.now)) }
    ensures well { IfOk result (λ v. IsWell parts.now.vars (length parts.now.inits.items) (blocks_onto [] v.items)) }
    ensures err { IfErr result (λ e. e ≢ errors.NoMemory → judged (parts_at parts.now) ≡ Err e) }
{
    let frame = Frame {
        vars: parts.vars,
        cells: parts.inits.len() as u32,
        blocks: count_ends(&parts.steps),
    };
    match choose_spares(alloc, frame, &parts.steps) {
        Ok(steps) => Ok(steps),
        Err(SparesError::Broken(fault)) => Err(FlowError::Step {
            line: line_of(&parts.lines, fault.at),
            rule: fault.rule,
        }),
        Err(SparesError::NoMemory) => Err(FlowError::NoMemory),
    }
}

/// The object of a flow over these cells.
fn object_of(
    alloc: Global,
    vars: u8,
    names: Vec<Vec<u8>>,
    inits: &[u64],
    steps: Vec<Step3>,
) -> Result<Object, NoMemory>
    requires vars { vars < PAIRS }
    requires few { length inits.now ≤ MOST_CELLS }
    requires cells { All IsWord inits.now → AreCells (map (λ n. n.items) names.items) inits.now }
    requires well { IsWell vars (length inits.now) (blocks_onto [] steps.items) }
    ensures stands { IfOk result (StandsForFlow (map (λ n. n.items) names.items) inits.now (blocks_onto [] steps.items)) }
    ensures joins { IfOk result (λ o. IsModule o.cells o) }
{
    let cells = inits.len() as u32;
    let flow = Flow { vars, cells, steps };
    compile_flow(alloc, names, inits, &flow)
}

/// Compiles the text of a flow to an object that stands for it: spellable, accepted, with at most 65,536 instructions.
/// Whatever initial words its cells are given, its run without a fault is never detected and commits the outputs of the
/// text's steps over these words; if they are done after k steps, the run is done after 8k steps. The object is also a
/// module that the linker accepts. Any other text is refused, and the error is the one that the definition gives. If
/// memory runs out, `NoMemory` is returned instead of any other result.
pub fn compile_text(alloc: Global, text: &[u8]) -> Result<Object, FlowError>
    ensures ok { IfOk result (λ o. (t : FlowText) × (read_text text.now ≡ Ok t) × StandsForText t o) }
    ensures joins { IfOk result (λ o. IsModule o.cells o) }
    ensures err { IfErr result (λ e. e ≢ errors.NoMemory → read_text text.now ≡ Err e) }
{
    if text.len() > LIMIT {
        return Err(FlowError::TooLong);
    }
    let parts = match read_rows(alloc, text) {
        Ok(parts) => parts,
        Err(error) => return Err(error),
    };
    let steps = match spares_of(alloc, &parts) {
        Ok(steps) => steps,
        Err(error) => return Err(error),
    };
    let Parts {
        vars,
        names,
        inits,
        ..
    } = parts;
    match object_of(alloc, vars, names, &inits, steps) {
        Ok(object) => Ok(object),
        Err(NoMemory) => Err(FlowError::NoMemory),
    }
}
