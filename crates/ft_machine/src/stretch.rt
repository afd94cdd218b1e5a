//! Stretches of whole instructions, each fetched and executed.
ghost use Rattle.std.specs.Prelude.{◌≡◌, ◌<◌, ◌≤◌, ◌+◌, ◌-◌, ◌*◌, ◌/◌, ◌^◌, ℕ, length, None, IfSome, IfNone, true};
ghost use Rattle.ft_isa.specs.declared.output.Output.{Output as Committed};
ghost use Rattle.ft_types.specs.Objects.{instr_at};
ghost use Rattle.ft_types.specs.Spellable.{IsSpellable};
ghost use Rattle.ft_semantics.specs.State.{is_cell};
ghost use Rattle.ft_machine.specs.Effects.{doing};
ghost use Rattle.ft_machine.specs.Goes.{Goes, state_where};
ghost use Rattle.ft_machine.specs.Arrays.{cells_of};
ghost use Rattle.ft_machine.specs.Banks.{bank_over};

use crate::bank::{Effect, RegisterFile};
use crate::outlet::Outlet;
use crate::stepped::Pause;
use crate::wild::WildLeft;
use ft_queue::PendingStores;
use ft_types::{INSTR_BYTES, Program};

/// Steps of whole instructions: how many, what both counters hold after them, and how they ended.
#[derive(Clone, Copy)]
pub(crate) struct Stretch {
    pub taken: u64,
    pub pc: u64,
    pub pause: Pause,
}

/// The maximum number of instructions in a stretch, chosen so that no place overflows.
const MOST: u64 = 0xffff_ffff;

/// How many instructions a stretch of at most `steps` steps executes.
#[inline(always)]
fn instructions_in(steps: u64) -> u64
    ensures few { 2 * result ≤ steps }
    ensures some { 1 < steps → 0 < result }
    ensures small { result < 2 ^ 32 }
{
    let whole = steps / 2;
    if whole < MOST { whole } else { MOST }
}

/// The number of the instruction at a code address, if one is there.
#[inline(always)]
fn index_at<P: Program>(program: &P, count: usize, pc: u64) -> Option<usize>
    requires counted { count ≡ length (P.object program.now).instrs }
    ensures some { IfSome result (λ i. (pc ≡ 1 + i) × (i < count)) }
    ensures none { IfNone result (instr_at (P.object program.now) pc ≡ None) }
{
    let i = pc.wrapping_sub(1);
    if i >= count as u64 {
        return None;
    }
    Some(i as usize)
}

/// The place of an instruction: its offset from the first one, in bytes.
#[inline(always)]
fn place_of(i: usize) -> usize
    requires { i < 2 ^ 32 }
    ensures { result ≡ 16 * i }
{
    INSTR_BYTES * i
}

/// The number of the instruction at a place.
#[inline(always)]
fn number_at(at: usize) -> u64
    ensures { result ≡ at / 16 }
{
    (at / INSTR_BYTES) as u64
}

/// Where the next instructions end: at the limit of this stretch or at the end of the code, whichever comes first.
#[inline(always)]
fn stretch_end(limit: usize, end: usize) -> usize
    ensures limit { result ≤ limit }
    ensures end { result ≤ end }
    ensures some { (at : ℕ) → at < limit → at < end → at < result }
{
    if limit < end { limit } else { end }
}

/// The number of steps that `all` instructions take, not counting the instructions in the last `rest` bytes.
#[inline(always)]
fn steps_but(all: u64, rest: usize) -> u64
    requires few { rest / 16 ≤ all }
    requires small { all < 2 ^ 32 }
    ensures { result ≡ 2 * (all - rest / 16) }
{
    2 * (all - number_at(rest))
}

/// Fetches and executes whole instructions in at most `most` steps, as long as the machine runs and the outlet goes on.
/// If an instruction transfers control, execution continues at its target.
#[inline(never)]
pub(crate) fn do_instructions<Q: PendingStores, P: Program, T: Outlet>(
    file: &mut RegisterFile,
    queue: &mut Q,
    cells: &mut [u64],
    program: &P,
    first: u64,
    most: u64,
    wild: &mut WildLeft,
    outlet: &mut T,
) -> Stretch
    requires spellable { IsSpellable (P.object program.now) }
    requires some { 1 < most }
    requires may { (output : Committed) → is_cell (cells_of cells.old) output.addr ≡ true → T.may outlet.old output }
    ensures some { 0 < result.taken }
    ensures few { result.taken ≤ most }
    ensures goes { Goes T.Outlet (P.object program.now) (doing (bank_over file.old (Q.pending queue.old) cells.old) first first None)
        wild.old outlet.old
        (state_where (P.object program.now) result.pc result.pause (bank_over file.new (Q.pending queue.new) cells.new))
        wild.new outlet.new result.taken result.pause }
{
    let count = program.counts().instrs as usize;
    let code = program.code();
    let Some(start) = index_at(program, count, first) else {
        return Stretch {
            taken: 1,
            pc: first,
            pause: Pause::Detected,
        };
    };
    let all = instructions_in(most);
    let end = place_of(count);
    let mut at = place_of(start);
    let mut limit = at + place_of(all as usize);
    let mut past = stretch_end(limit, end);
    while at < past {
        match file.execute(queue, cells, program.fetch(code, at), wild) {
            Effect::On => at += INSTR_BYTES,
            Effect::To(target) => {
                let rest = limit - (at + INSTR_BYTES);
                let Some(next) = index_at(program, count, target) else {
                    return Stretch {
                        taken: steps_but(all, rest),
                        pc: target,
                        pause: Pause::Running,
                    };
                };
                at = place_of(next);
                limit = at + rest;
                past = stretch_end(limit, end);
            }
            Effect::Commit(output) => {
                at += INSTR_BYTES;
                if !outlet.take(output) {
                    return Stretch {
                        taken: steps_but(all, limit - at),
                        pc: 1 + number_at(at),
                        pause: Pause::Refused,
                    };
                }
            }
            Effect::Done => {
                return Stretch {
                    taken: steps_but(all, limit - (at + INSTR_BYTES)),
                    pc: 1 + number_at(at),
                    pause: Pause::Done,
                };
            }
            Effect::Detected => {
                return Stretch {
                    taken: steps_but(all, limit - (at + INSTR_BYTES)),
                    pc: 1 + number_at(at),
                    pause: Pause::Detected,
                };
            }
        }
    }
    Stretch {
        taken: steps_but(all, limit - at),
        pc: 1 + number_at(at),
        pause: Pause::Running,
    }
}
