//! Chooses the spares of stores and jumps.
ghost use Rattle.std.specs.Prelude.{◌≡◌, ◌≤◌, None, true, [], IfOk, IfErr, OnOk};
ghost use Rattle.ft_lower.specs.Cutting.{blocks_onto};
ghost use Rattle.ft_lower.specs.Size.{size};
ghost use Rattle.ft_lower.specs.Well.{IsWell, is_last};
ghost use Rattle.ft_flow.specs.Chosen.{IsRefusal};
ghost use Rattle.ft_flow.specs.Faults.{ends, fault_of, next_set, pairs_exist, pairs_set, spared, with_set};
ghost use Rattle.ft_flow.specs.Spares.{sets, spare_of, with_spare};

use crate::fault::{Fault, Frame, Rule, SparesError};
use crate::limits::PAIRS;
use crate::tests_of_steps::{step_broken, step_size, unset_in};
use ft_lower::Step3;
use std::alloc::Global;

/// Whether a step ends its block.
pub(crate) fn ends_block(step: Step3) -> bool
    ensures { result ≡ is_last step }
{
    matches!(step, Step3::Go { .. } | Step3::Stop)
}

/// The pairs below `vars`.
fn pairs_set(vars: u8) -> [bool; PAIRS]
    requires { vars ≤ PAIRS }
    ensures { result ≡ pairs_set vars }
{
    let mut set = [false; PAIRS];
    for q in 0..vars {
        set[q as usize] = true;
    }
    set
}

/// The first pair that is not set; 0 if each is.
fn spare_of(set: &[bool; PAIRS]) -> u8
    ensures { result ≡ spare_of set.now }
{
    match unset_in(set) {
        Some(p) => p as u8,
        None => 0,
    }
}

/// The step with this spare, if it needs one.
fn with_spare(spare: u8, step: Step3) -> Step3
    ensures { result ≡ with_spare spare step }
{
    match step {
        Step3::Store { cell, q, .. } => Step3::Store { cell, q, spare },
        Step3::StoreAt {
            first,
            length,
            i,
            q,
            ..
        } => Step3::StoreAt {
            first,
            length,
            i,
            q,
            spare,
        },
        Step3::Exit { q, to, .. } => Step3::Exit { q, spare, to },
        Step3::Go { to, .. } => Step3::Go { spare, to },
        _ => step,
    }
}

/// The pair that a step sets.
fn set_by(step: Step3) -> Option<u8>
    ensures { result ≡ sets step }
{
    match step {
        Step3::Put { p, .. } => Some(p),
        Step3::Copy { p, .. } => Some(p),
        Step3::Op { p, .. } => Some(p),
        Step3::Load { p, .. } => Some(p),
        Step3::LoadAt { p, .. } => Some(p),
        _ => None,
    }
}

/// Sets the pair that a step sets.
fn mark(set: &mut [bool; PAIRS], step: Step3)
    requires { pairs_exist step ≡ true }
    ensures { set.new ≡ with_set (sets step) set.old }
{
    if let Some(p) = set_by(step) {
        set[p as usize] = true;
    }
}

/// The pairs that are set before the next step.
fn next_set(vars: u8, step: Step3, set: &[bool; PAIRS]) -> [bool; PAIRS]
    requires vars { vars ≤ PAIRS }
    requires pairs { pairs_exist step ≡ true }
    ensures { result ≡ next_set vars step set.now }
{
    if ends_block(step) {
        return pairs_set(vars);
    }
    let mut next = *set;
    mark(&mut next, step);
    next
}

/// The steps of a flow with spares for stores and jumps, whatever spares they name: each gets the first pair that is not
/// set before it. The steps are refused if one of them breaks a rule, or if the last block isn't ended: then the first
/// fault is told. If the frame counts the blocks that the steps end, the flow is well formed.
pub fn choose_spares(
    alloc: Global,
    frame: Frame,
    steps: &[Step3],
) -> Result<Vec<Step3>, SparesError>
    requires { frame.vars ≤ PAIRS }
    ensures fine { OnOk result (fault_of frame steps.now ≡ None) }
    ensures spared { IfOk result (λ v. v.items ≡ spared frame.vars steps.now) }
    ensures refused { IfErr result (IsRefusal frame steps.now) }
    ensures well { IfOk result (λ v. frame.blocks ≡ ends steps.now → IsWell frame.vars frame.cells (blocks_onto [] v.items)) }
{
    let mut set = [false; PAIRS];
    let mut used = 0;
    let mut open = true;
    let mut out = Vec::new(alloc);
    let mut at = 0;
    for step in steps {
        let step = *step;
        if let Some(rule) = step_broken(frame, &set, used, step) {
            return Err(SparesError::Broken(Fault { at, rule }));
        }
        if out.push(with_spare(spare_of(&set), step)).is_err() {
            return Err(SparesError::NoMemory);
        }
        used += step_size(step);
        open = !ends_block(step);
        set = next_set(frame.vars, step, &set);
        at += 1;
    }
    if open {
        let rule = Rule::Open;
        return Err(SparesError::Broken(Fault { at, rule }));
    }
    Ok(out)
}
