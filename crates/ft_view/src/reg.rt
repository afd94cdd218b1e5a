//! Register rows: what each type says about registers.
ghost use Rattle.std.specs.Prelude.{◌≡◌, ◌≤◌, ◌^◌, ◌<◌, OnOk};
ghost use Rattle.ft_view.specs.Found.{Finds};
ghost use Rattle.ft_format.specs.Fields.{reg_numbers};
ghost use Rattle.ft_format.specs.Rules.{reg_broken};
ghost use Rattle.ft_format.specs.Values.{reg_type_of};

use crate::node_records::NodeRecords;
use crate::parts::{basic, colour, register};
use crate::rules::{check, check_basic, check_colour, check_named, check_register, check_zero};
use ft_format::{ObjectError, RegRow};
use ft_types::RegType;

/// Checks the record of a register row of a type with this many variables: `Index` if there is no such register,
/// `Order` if the register is below `least`, `Kind` for the colour, `Pad` for the padding, the errors of the basic
/// type, and `Index` and `Kind` for the expression.
pub fn check_reg(
    types: u32,
    nodes: &NodeRecords,
    ints: u8,
    least: u8,
    at: usize,
    row: RegRow,
) -> Result<(), ObjectError>
    requires { at ≤ 2 ^ 27 }
    ensures judged { Finds result (reg_broken types nodes.now ints least at (reg_numbers row)) }
    ensures small { OnOk result (row.reg < 64) }
{
    check_register(at, row.reg)?;
    check(least <= row.reg, ObjectError::Order { at })?;
    check_colour(at + 1, row.colour)?;
    check_zero(at + 2, u32::from(row.pad))?;
    check_basic(types, at + 4, row.refs, row.base, row.code_type)?;
    check_named(nodes, ints, false, at + 8, row.expr)
}

/// The register row that a valid record encodes.
pub fn read_reg(row: RegRow) -> RegType
    requires { row.reg < 64 }
    ensures { result ≡ reg_type_of (reg_numbers row) }
{
    RegType {
        reg: register(row.reg),
        colour: colour(row.colour),
        basic: basic(row.refs, row.base, row.code_type),
        expr: row.expr,
    }
}
