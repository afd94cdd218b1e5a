//! The blocks of a program.
ghost use Rattle.std.specs.Prelude.{◌≡◌, ◌+◌, ◌<◌, [], length, OnOk};
ghost use Rattle.ft_types.specs.Objects.{block_end};
ghost use Rattle.ft_types.specs.Spellable.{IsSpellable};
ghost use Rattle.ft_sched.specs.UpTo.{IsUpTo};

use crate::order::Order;
use ft_types::{Program, end_of};
use std::alloc::AllocError;

/// Writes the instructions of block `b`, ordered so that no permitted exchange is left in it.
pub fn schedule_block<P: Program>(program: &P, order: &mut Order, b: u32) -> Result<(), AllocError>
    requires spellable { IsSpellable (P.object program.now) }
    requires there { b < length (P.object program.now).blocks }
    requires none_waits { order.old.waiting ≡ [] }
    requires before { IsUpTo (P.object program.now) b order.old.laid.items }
    ensures none_waits { OnOk result (order.new.waiting ≡ []) }
    ensures after { OnOk result (IsUpTo (P.object program.now) (b + 1) order.new.laid.items) }
{
    let block = program.block(b);
    let past = end_of(program, b);
    let rows = program.code_type(block.code_type).queue;
    order.begin_block(rows);
    for i in block.start..past {
        order.place(program.instr(i))?;
    }
    order.lay_all()
}
