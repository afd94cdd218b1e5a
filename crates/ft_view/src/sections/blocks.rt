//! Blocks, each of which begins after the previous one.
ghost use Rattle.std.specs.Prelude.{◌+◌, ◌*◌, ◌≤◌, ◌^◌, None, length};
ghost use Rattle.ft_format.specs.Layout.{rows, pair_layout};
ghost use Rattle.ft_format.specs.Broken.{blocks_broken};
ghost use Rattle.ft_view.specs.Found.{Finds};

use crate::block::check_block;
use ft_format::{Header, ObjectError, PairRow};

/// Checks the records of all blocks, the first of which is at a place.
pub(crate) fn check_blocks(header: Header, at: usize, bytes: &[u8]) -> Result<(), ObjectError>
    requires there { 8 * header.blocks ≤ length bytes.now }
    requires places { at + 8 * header.blocks ≤ 2 ^ 27 }
    ensures { Finds result (blocks_broken header None at (rows pair_layout header.blocks bytes.now)) }
{
    let mut place = at;
    let mut previous: Option<u32> = None;
    let mut rest = bytes;
    for _ in 0..header.blocks {
        let (record, after) = rest.split_at(8);
        let row = PairRow::read(record);
        check_block(header, previous, place, row)?;
        place += 8;
        previous = Some(row.first);
        rest = after;
    }
    Ok(())
}
