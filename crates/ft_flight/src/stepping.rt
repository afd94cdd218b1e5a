//! Takes steps, and puts their outputs into the caller's array.
ghost use Rattle.std.specs.Prelude.{◌≡◌, ◌≤◌, ◌<◌, ◌+◌, ◌-◌, ◌++◌, ◌∷◌, [], ℕ, length, map, take, drop};
ghost use Rattle.std.specs.Option.{option_to_list};
ghost use Rattle.ft_isa.specs.declared.output.Output as outputs;
ghost use Rattle.ft_types.specs.Spellable.{IsSpellable};
ghost use Rattle.ft_machine.specs.Advances.{output_told};
ghost use Rattle.ft_machine.specs.Processors.{state_over};
ghost use Rattle.ft_flight.specs.Rings.{pending_of};
ghost use Rattle.ft_flight.specs.Steps.{Fills, cell_output};

use crate::flown::CellOutput;
use crate::plain_queue::PlainQueue;
use ft_isa::{FIRST_CELL, Output};
use ft_machine::{Processor, Stepped, WildLeft};
use ft_semantics::Status;
use ft_types::Program;

/// How many outputs there were, and how many are in the array.
#[derive(Clone, Copy)]
pub(crate) struct Handed {
    pub seen: u64,
    pub count: usize,
}

/// How many steps were taken, how many outputs there were, and how many are in the array.
#[derive(Clone, Copy)]
pub(crate) struct Filled {
    pub taken: u64,
    pub seen: u64,
    pub count: usize,
}

/// An output as C sees it.
fn cell_output(output: Output) -> CellOutput
    requires { 1048576 ≤ output.addr }
    ensures { result ≡ cell_output output }
{
    CellOutput {
        cell: output.addr - FIRST_CELL,
        value: output.value,
    }
}

/// Puts an output into an array at an index.
fn put_at(out: &mut [CellOutput], at: usize, output: CellOutput)
    requires { at < length out.old }
    ensures written { take (at + 1) out.new ≡ take at out.old ++ output ∷ [] }
    ensures same { length out.new ≡ length out.old }
{
    let one = [output];
    out[at..at + 1].copy_from_slice(&one);
}

/// Counts a step's output, if it has one, and puts it into an array unless it is one of the first `skip`.
fn hand(last: Stepped, skip: u64, seen: u64, out: &mut [CellOutput], count: usize) -> Handed
    requires room { count < length out.old }
    requires few { seen < 18446744073709551615 }
    requires cell { (output : outputs.Output) → last ≡ Stepped.Commit output → 1048576 ≤ output.addr }
    ensures seen { result.seen ≡ seen + length (option_to_list (output_told last)) }
    ensures count { result.count ≡ count + length (drop (skip - seen) (option_to_list (output_told last))) }
    ensures written { take result.count out.new
        ≡ take count out.old ++ map cell_output (drop (skip - seen) (option_to_list (output_told last))) }
    ensures same { length out.new ≡ length out.old }
    ensures within { result.count ≤ length out.old }
{
    match last {
        Stepped::Commit(output) => {
            if seen < skip {
                return Handed {
                    seen: seen + 1,
                    count,
                };
            }
            put_at(out, count, cell_output(output));
            Handed {
                seen: seen + 1,
                count: count + 1,
            }
        }
        Stepped::Quiet => Handed { seen, count },
        Stepped::Done => Handed { seen, count },
        Stepped::Detected => Handed { seen, count },
    }
}

/// Takes at most `most` steps, and fewer if the machine stops or the array is full. Puts their outputs but the first `skip` into the
/// array.
pub(crate) fn fill<P: Program>(
    processor: &mut Processor,
    queue: &mut PlainQueue,
    cells: &mut [u64],
    program: &P,
    most: u64,
    skip: u64,
    out: &mut [CellOutput],
) -> Filled
    requires spellable { IsSpellable (P.object program.now) }
    ensures fills { Fills (P.object program.now) (state_over processor.old (pending_of queue.old) cells.old)
        (state_over processor.new (pending_of queue.new) cells.new) result.taken skip result.seen result.count out.new }
    ensures few { result.taken ≤ most }
    ensures seen { result.seen ≤ result.taken }
    ensures within { result.count ≤ length out.new }
    ensures same { length out.new ≡ length out.old }
    ensures all { processor.new.status ≡ Status.Running → result.count < length out.new → result.taken ≡ most }
{
    let mut wild = WildLeft::new(&[]);
    let mut left = most;
    let mut seen = 0;
    let mut count = 0;
    while left > 0 {
        if processor.status() != Status::Running {
            return Filled {
                taken: most - left,
                seen,
                count,
            };
        }
        if count >= out.len() {
            return Filled {
                taken: most - left,
                seen,
                count,
            };
        }
        let advance = processor.advance(queue, cells, program, &mut wild, left);
        let handed = hand(advance.last, skip, seen, out, count);
        seen = handed.seen;
        count = handed.count;
        left -= advance.taken;
    }
    Filled {
        taken: most,
        seen,
        count,
    }
}
