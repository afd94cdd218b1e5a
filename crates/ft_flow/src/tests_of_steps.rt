//! Tests of single steps.
ghost use Rattle.std.specs.Prelude.{◌≡◌, ◌≤◌, ◌<◌, true};
ghost use Rattle.ft_lower.specs.Size.{size};
ghost use Rattle.ft_flow.specs.Faults.{HasWord, cells_exist, is_array, is_pair, is_target, jump_keeps, pairs_exist};
ghost use Rattle.ft_flow.specs.Faults.{reads_set, spare_left, step_broken, target_exists, variables_set};
ghost use Rattle.ft_flow.specs.Spares.{is_set, unset_in};

use crate::fault::{Frame, Rule};
use crate::limits::{MOST_CELLS, MOST_INSTRS, PAIRS};
use ft_lower::Step3;

/// Whether a pair exists.
fn is_pair(p: u8) -> bool
    ensures { result ≡ is_pair p }
{
    (p as usize) < PAIRS
}

/// Whether the pairs that a step reads or sets exist.
fn pairs_exist(step: Step3) -> bool
    ensures exist { result ≡ pairs_exist step }
    ensures word { HasWord step }
{
    match step {
        Step3::Put { p, word: _word } => is_pair(p),
        Step3::Copy { p, q } => is_pair(p) && is_pair(q),
        Step3::Op { p, q, s, .. } => is_pair(p) && is_pair(q) && is_pair(s),
        Step3::Load { p, .. } => is_pair(p),
        Step3::Store { q, .. } => is_pair(q),
        Step3::LoadAt { p, q, .. } => is_pair(p) && is_pair(q),
        Step3::StoreAt { i, q, .. } => is_pair(i) && is_pair(q),
        Step3::Exit { q, .. } => is_pair(q),
        Step3::Go { .. } => true,
        Step3::Stop => true,
    }
}

/// Whether an array of cells exists.
fn is_array(cells: u32, first: u32, length: u32) -> bool
    ensures { result ≡ is_array cells first length }
{
    0 < length
        && length as usize <= MOST_CELLS
        && u64::from(first) + u64::from(length) <= u64::from(cells)
}

/// Whether the cell or the array that a step names exists.
fn cells_exist(cells: u32, step: Step3) -> bool
    ensures { result ≡ cells_exist cells step }
{
    match step {
        Step3::Load { cell, .. } => cell < cells,
        Step3::Store { cell, .. } => cell < cells,
        Step3::LoadAt { first, length, .. } => is_array(cells, first, length),
        Step3::StoreAt { first, length, .. } => is_array(cells, first, length),
        _ => true,
    }
}

/// Whether a jump's target exists and is not the first block.
fn is_target(blocks: usize, to: u32) -> bool
    ensures { result ≡ is_target blocks to }
{
    0 < to && (to as usize) < blocks
}

/// Whether a step's target, if it has one, exists and is not the first block.
fn target_exists(blocks: usize, step: Step3) -> bool
    ensures { result ≡ target_exists blocks step }
{
    match step {
        Step3::Exit { to, .. } => is_target(blocks, to),
        Step3::Go { to, .. } => is_target(blocks, to),
        _ => true,
    }
}

/// Whether a pair is set.
fn is_set(set: &[bool; PAIRS], q: u8) -> bool
    requires { q < PAIRS }
    ensures { result ≡ is_set set.now q }
{
    set[q as usize]
}

/// Whether a step reads only pairs that are set.
fn reads_set(set: &[bool; PAIRS], step: Step3) -> bool
    requires { pairs_exist step ≡ true }
    ensures { result ≡ reads_set set.now step }
{
    match step {
        Step3::Put { .. } => true,
        Step3::Copy { q, .. } => is_set(set, q),
        Step3::Op { q, s, .. } => is_set(set, q) && is_set(set, s),
        Step3::Load { .. } => true,
        Step3::Store { q, .. } => is_set(set, q),
        Step3::LoadAt { q, .. } => is_set(set, q),
        Step3::StoreAt { i, q, .. } => is_set(set, i) && is_set(set, q),
        Step3::Exit { q, .. } => is_set(set, q),
        Step3::Go { .. } => true,
        Step3::Stop => true,
    }
}

/// Whether each variable is set.
fn variables_set(vars: u8, set: &[bool; PAIRS]) -> bool
    requires { vars ≤ PAIRS }
    ensures { result ≡ variables_set vars set.now }
{
    set[..vars as usize].iter().all(|b| *b)
}

/// Whether, at a jump, each variable is set.
fn jump_keeps(vars: u8, set: &[bool; PAIRS], step: Step3) -> bool
    requires { vars ≤ PAIRS }
    ensures { result ≡ jump_keeps vars set.now step }
{
    match step {
        Step3::Exit { .. } => variables_set(vars, set),
        Step3::Go { .. } => variables_set(vars, set),
        _ => true,
    }
}

/// The first pair that is not set.
pub(crate) fn unset_in(set: &[bool; PAIRS]) -> Option<usize>
    ensures { result ≡ unset_in set.now }
{
    set.iter().position(|b| !*b)
}

/// Whether a pair is left for a step's address, if it needs one.
fn spare_left(set: &[bool; PAIRS], step: Step3) -> bool
    ensures { result ≡ spare_left set.now step }
{
    match step {
        Step3::Store { .. } | Step3::StoreAt { .. } | Step3::Exit { .. } | Step3::Go { .. } => {
            unset_in(set).is_some()
        }
        _ => true,
    }
}

/// How many instructions a step becomes.
pub(crate) fn step_size(step: Step3) -> u32
    ensures size { result ≡ size step }
    ensures few { result ≤ 4 }
{
    match step {
        Step3::Put { .. } | Step3::Copy { .. } | Step3::Op { .. } => 2,
        Step3::Stop => 1,
        _ => 4,
    }
}

/// The first rule that a step breaks, if these pairs are set before it and the steps before it become this many
/// instructions.
pub(crate) fn step_broken(frame: Frame, set: &[bool; PAIRS], used: u32, step: Step3) -> Option<Rule>
    requires vars { frame.vars ≤ PAIRS }
    requires used { used ≤ MOST_INSTRS }
    ensures broken { result ≡ step_broken frame set.now used step }
    ensures word { HasWord step }
{
    if !pairs_exist(step) {
        return Some(Rule::Pair);
    }
    if !cells_exist(frame.cells, step) {
        return Some(Rule::Cell);
    }
    if !target_exists(frame.blocks, step) {
        return Some(Rule::Target);
    }
    if !reads_set(set, step) {
        return Some(Rule::Unset);
    }
    if !jump_keeps(frame.vars, set, step) {
        return Some(Rule::Variable);
    }
    if !spare_left(set, step) {
        return Some(Rule::Spare);
    }
    if used + step_size(step) > MOST_INSTRS {
        return Some(Rule::Long);
    }
    None
}
