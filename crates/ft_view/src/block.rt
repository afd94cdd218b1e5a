//! Blocks, each of which begins after the previous one.
ghost use Rattle.std.specs.Prelude.{◌≡◌, ◌≤◌, ◌^◌};
ghost use Rattle.ft_view.specs.Found.{Finds};
ghost use Rattle.ft_format.specs.Fields.{pair_numbers};
ghost use Rattle.ft_format.specs.Rules.{may_begin, block_broken};
ghost use Rattle.ft_format.specs.Values.{block_of};

use crate::rules::check;
use ft_format::{Header, ObjectError, PairRow};
use ft_types::Block;

/// Whether a block may begin at `start`, given where the previous block begins. The first block begins at 0.
fn may_begin(previous: Option<u32>, start: u32) -> bool
    ensures { result ≡ may_begin previous start }
{
    match previous {
        None => start == 0,
        Some(previous) => previous < start,
    }
}

/// Checks the record of a block; `previous` is where the previous block begins, `None` for block 0. `Order` if block 0
/// does not begin at 0, if another block does not begin after the previous one, or if a block begins beyond the
/// instructions; `Index` for a type that does not exist.
pub fn check_block(
    header: Header,
    previous: Option<u32>,
    at: usize,
    row: PairRow,
) -> Result<(), ObjectError>
    requires { at ≤ 2 ^ 27 }
    ensures { Finds result (block_broken header previous at (pair_numbers row)) }
{
    check(may_begin(previous, row.first), ObjectError::Order { at })?;
    check(row.first < header.instrs, ObjectError::Order { at })?;
    check(row.second < header.types, ObjectError::Index { at: at + 4 })
}

/// The block that a record encodes.
pub fn read_block(row: PairRow) -> Block
    ensures { result ≡ block_of (pair_numbers row) }
{
    Block {
        start: row.first,
        code_type: row.second,
    }
}
