//! Instructions.
ghost use Rattle.std.specs.Prelude.{◌≡◌, ◌+◌, ◌*◌, ◌≤◌, ◌^◌, length, IfOk};
ghost use Rattle.ft_format.specs.Layout.{rows, code_layout};
ghost use Rattle.ft_format.specs.Broken.{instrs_broken, rows_taken};
ghost use Rattle.ft_view.specs.Found.{Finds};

use crate::instr::{check_instr, rows_past};
use crate::node_records::NodeRecords;
use ft_format::{CodeRow, Header, ObjectError};

/// Checks the records of all instructions, the first of which is at a place, and returns how many substitution rows
/// they take.
pub(crate) fn check_instrs(
    header: Header,
    nodes: &NodeRecords,
    at: usize,
    bytes: &[u8],
) -> Result<u32, ObjectError>
    requires there { 16 * header.instrs ≤ length bytes.now }
    requires places { at + 16 * header.instrs ≤ 2 ^ 27 }
    requires few { header.substs ≤ 2 ^ 27 }
    ensures judged { Finds result (instrs_broken header nodes.now 0 at (rows code_layout header.instrs bytes.now)) }
    ensures taken { IfOk result (λ taken. taken ≡ rows_taken 0 (rows code_layout header.instrs bytes.now)) }
    ensures few { IfOk result (λ taken. taken ≤ header.substs) }
{
    let mut place = at;
    let mut first: u32 = 0;
    let mut rest = bytes;
    for _ in 0..header.instrs {
        let (record, after) = rest.split_at(16);
        let row = CodeRow::read(record);
        check_instr(header, nodes, first, place, row)?;
        place += 16;
        first = rows_past(first, row);
        rest = after;
    }
    Ok(first)
}
