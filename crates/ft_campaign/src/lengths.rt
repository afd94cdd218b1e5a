//! The lengths of the queue before the steps of the run without a fault.
ghost use Rattle.std.specs.Prelude.{◌≡◌, ◌≤◌, ◌<◌, ◌+◌, ◌++◌, ◌∷◌, [], ℕ, List, IfOk, OnOk, IfSome, None};
ghost use Rattle.ft_isa.specs.declared.plan.Wild.{Wild as Answer};
ghost use Rattle.ft_types.specs.Spellable.{IsSpellable};
ghost use Rattle.ft_semantics.specs.Run.{state_after};
ghost use Rattle.ft_campaign.specs.Snapshots.{AreLengths, IsReady, LeadsOn};

use ft_isa::{Colour, Instr, NoMemory};
use ft_machine::Machine;
use ft_types::{INSTR_BYTES, Program};

/// Keeps the length of the queue before a step.
fn keep_length(entries: u8, lengths: &mut Vec<u8>) -> Result<(), NoMemory>
    ensures { OnOk result (lengths.new.items ≡ lengths.old.items ++ entries ∷ []) }
{
    lengths.push(entries).map_err(|_| NoMemory)
}

/// The length of the queue after an instruction, if the machine then goes on to the next one; `None` for an instruction
/// after which it may go elsewhere or stop.
fn entries_after(instr: Instr, entries: u8) -> Option<u8>
    ensures { IfSome result (LeadsOn instr entries) }
{
    match instr {
        Instr::St { colour, .. } => Some(match colour {
            Colour::Green => entries.wrapping_add(1),
            Colour::Blue => entries.saturating_sub(1),
        }),
        Instr::JmpB { .. } | Instr::BzB { .. } | Instr::Halt => None,
        _ => Some(entries),
    }
}

/// Keeps the length of the queue before each of at most `most` steps of the instructions from a code address on, up to
/// the first after which the machine may go elsewhere or stop. Before them, the queue has this many entries. Returns
/// the number of steps.
fn keep_straight<P: Program>(
    program: &P,
    pc: u64,
    entries: u8,
    most: u64,
    lengths: &mut Vec<u8>,
) -> Result<u64, NoMemory>
    requires spellable { IsSpellable (P.object program.now) }
    requires most { most ≤ 1000000 }
    ensures few { IfOk result (λ steps. steps ≤ most) }
    ensures lengths { IfOk result (λ steps. (w : List Answer) (k : ℕ) → IsReady pc entries (state_after (P.object program.now) None w k)
        → AreLengths (P.object program.now) w k lengths.old.items → AreLengths (P.object program.now) w (k + steps) lengths.new.items) }
{
    let count = program.counts().instrs as u64;
    let code = program.code();
    let mut i = pc.wrapping_sub(1);
    let mut entries = entries;
    let mut steps = 0;
    while steps + 2 <= most && i < count {
        lengths.extend_from_slice(&[entries, entries])?;
        steps += 2;
        let instr = program.fetch(code, INSTR_BYTES * i as usize);
        let Some(next) = entries_after(instr, entries) else {
            return Ok(steps);
        };
        entries = next;
        i += 1;
    }
    Ok(steps)
}

/// Keeps the length of the queue before each of the machine's next steps, at most `most`: those of whole instructions
/// up to the first after which the machine may go elsewhere or stop, or else of one step. Returns the number of steps.
/// If the machine stops earlier, the lengths before the steps that it does not take mean nothing.
pub(crate) fn keep_lengths<P: Program>(
    machine: &Machine,
    program: &P,
    most: u64,
    lengths: &mut Vec<u8>,
) -> Result<u64, NoMemory>
    requires spellable { IsSpellable (P.object program.now) }
    requires some { 0 < most }
    requires most { most ≤ 1000000 }
    ensures some { IfOk result (λ steps. 0 < steps) }
    ensures few { IfOk result (λ steps. steps ≤ most) }
    ensures lengths { IfOk result (λ steps. (w : List Answer) (k : ℕ) → machine.now ≡ state_after (P.object program.now) None w k
        → AreLengths (P.object program.now) w k lengths.old.items → AreLengths (P.object program.now) w (k + steps) lengths.new.items) }
{
    let entries = machine.queue().len() as u8;
    if machine.fetched().is_none() {
        let pc = machine.pc(Colour::Green);
        let steps = keep_straight(program, pc, entries, most, lengths)?;
        if steps > 0 {
            return Ok(steps);
        }
    }
    keep_length(entries, lengths)?;
    Ok(1)
}
