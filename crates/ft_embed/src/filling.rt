//! Takes steps of a machine and puts their outputs into the caller's array.
ghost use Rattle.std.specs.Prelude.{◌≡◌, ◌≤◌, ◌<◌, ◌+◌, ◌++◌, ◌∷◌, [], length, map, take};
ghost use Rattle.std.specs.Option.{option_to_list};
ghost use Rattle.ft_types.specs.Spellable.{IsSpellable};
ghost use Rattle.ft_semantics.specs.State.{HasCells};
ghost use Rattle.ft_machine.specs.Advances.{output_told};
ghost use Rattle.ft_embed.specs.Outputs.{Fills, GoesToCell, cell_output};

use ft_isa::{FIRST_CELL, Output};
use ft_machine::{Machine, Stepped, WildLeft};
use ft_semantics::Status;
use ft_types::Program;

/// An output as C sees it: the number of its cell, and its word.
#[repr(C)]
#[derive(Clone, Copy)]
pub struct CellOutput {
    pub cell: u64,
    pub value: u64,
}

/// An output as C sees it.
fn cell_output(output: Output) -> CellOutput
    requires { 1048576 ≤ output.addr }
    ensures { result ≡ cell_output output }
{
    CellOutput {
        cell: output.addr - FIRST_CELL,
        value: output.value,
    }
}

/// Puts an output into an array at an index.
fn put_at(out: &mut [CellOutput], at: usize, output: CellOutput)
    requires { at < length out.old }
    ensures written { take (at + 1) out.new ≡ take at out.old ++ output ∷ [] }
    ensures same { length out.new ≡ length out.old }
{
    let one = [output];
    out[at..at + 1].copy_from_slice(&one);
}

/// Puts a step's output, if it has one, into an array at an index, and returns the index for the next output.
fn put_told(last: Stepped, out: &mut [CellOutput], at: usize) -> usize
    requires room { at < length out.old }
    requires cell { GoesToCell last }
    ensures written { take result out.new ≡ take at out.old ++ map cell_output (option_to_list (output_told last)) }
    ensures same { length out.new ≡ length out.old }
    ensures within { result ≤ length out.old }
    ensures further { at ≤ result }
{
    match last {
        Stepped::Commit(output) => {
            put_at(out, at, cell_output(output));
            at + 1
        }
        Stepped::Quiet => at,
        Stepped::Done => at,
        Stepped::Detected => at,
    }
}

/// How many steps were taken, and how many outputs are in the array after them.
#[derive(Clone, Copy)]
pub struct Filled {
    pub taken: u64,
    pub count: usize,
}

/// Takes at most `most` steps, and fewer if the machine stops or the array is full. Puts their outputs into the array,
/// starting at index `from`.
pub(crate) fn fill<P: Program>(
    machine: &mut Machine,
    program: &P,
    most: u64,
    wild: &mut WildLeft,
    out: &mut [CellOutput],
    from: usize,
) -> Filled
    requires spellable { IsSpellable (P.object program.now) }
    requires cells { HasCells (length (P.object program.now).cells) machine.old }
    requires within { from ≤ length out.old }
    ensures fills { Fills (P.object program.now) machine.old wild.old result.taken machine.new wild.new from result.count out.old out.new }
    ensures few { result.taken ≤ most }
    ensures within { result.count ≤ length out.new }
    ensures same { length out.new ≡ length out.old }
    ensures all { machine.new.status ≡ Status.Running → result.count < length out.new → result.taken ≡ most }
    ensures no_room { length out.old ≤ from → result.taken ≡ 0 }
{
    let mut left = most;
    let mut count = from;
    while left > 0 {
        if machine.status() != Status::Running {
            return Filled {
                taken: most - left,
                count,
            };
        }
        if count >= out.len() {
            return Filled {
                taken: most - left,
                count,
            };
        }
        let advance = machine.advance(program, wild, left);
        count = put_told(advance.last, out, count);
        left -= advance.taken;
    }
    Filled { taken: most, count }
}
