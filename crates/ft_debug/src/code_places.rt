//! Places in the code: instructions in blocks.
ghost use Rattle.std.specs.Prelude.{◌≡◌, ◌-◌, ◌<◌, ◌≤◌, ℕ, length, count_by, take};
ghost use Rattle.ft_types.specs.Spellable.{IsSpellable};
ghost use Rattle.ft_types.specs.Objects.{block_start};
ghost use Rattle.ft_debug.specs.Sessions.{begins_by, block_of, counters_text, break_address};
ghost use Rattle.ft_debug.specs.Places.{shown_place};

use ft_types::Program;

/// An instruction in a block; both are counted from 0.
#[derive(Clone, Copy)]
pub struct Place {
    pub block: u32,
    pub index: u32,
}

/// How many blocks begin at instruction `i` or before it.
fn blocks_by<P: Program>(program: &P, i: u32) -> u32
    requires { IsSpellable (P.object program.now) }
    ensures { result ≡ count_by (begins_by i) (P.object program.now).blocks }
{
    let mut count = 0;
    for b in 0..program.counts().blocks {
        if program.block(b).start <= i {
            count += 1;
        }
    }
    count
}

/// The place of instruction `i`: in the last block that begins at it or before it.
fn place_in_block<P: Program>(program: &P, i: u32) -> Place
    requires { IsSpellable (P.object program.now) }
    ensures block { result.block ≡ block_of (P.object program.now) i }
    ensures index { result.index ≡ i - block_start (P.object program.now) (block_of (P.object program.now) i) }
{
    let block = blocks_by(program, i).saturating_sub(1);
    Place {
        block,
        index: i.saturating_sub(program.block(block).start),
    }
}

/// The place of two program counters, if they are equal and in the code.
pub fn place_of<P: Program>(program: &P, green: u64, blue: u64) -> Option<Place>
    requires { IsSpellable (P.object program.now) }
    ensures { shown_place result ≡ counters_text (P.object program.now) green blue }
{
    if green != blue || green == 0 || green > u64::from(program.counts().instrs) {
        return None;
    }
    Some(place_in_block(program, (green - 1) as u32))
}

/// The code address of instruction `index` of a block, if it exists.
pub fn break_address<P: Program>(program: &P, block: u64, index: u64) -> Option<u64>
    requires { IsSpellable (P.object program.now) }
    ensures { result ≡ break_address (P.object program.now) block index }
{
    let counts = program.counts();
    if block >= u64::from(counts.blocks) {
        return None;
    }
    let start = program.block(block as u32).start;
    let end = if block + 1 < u64::from(counts.blocks) {
        program.block(block as u32 + 1).start
    } else {
        counts.instrs
    };
    if index >= u64::from(end.saturating_sub(start)) {
        return None;
    }
    Some(1 + u64::from(start) + index)
}
