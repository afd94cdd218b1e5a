//! The checks that several kinds of records share. Each returns the error with its place if its rule is broken.
ghost use Rattle.std.specs.Prelude.{◌≤◌, ◌^◌};
ghost use Rattle.ft_view.specs.Found.{Finds};
ghost use Rattle.ft_format.specs.Rules.{must, zero_broken, count_broken, some_broken, colour_broken, op_broken, register_broken, code_type_broken, basic_broken, node_number_broken, named_broken};

use crate::node_records::NodeRecords;
use ft_format::{ObjectError, Version};

/// Nothing if the test holds, else the error.
pub fn check(holds: bool, error: ObjectError) -> Result<(), ObjectError>
    ensures { Finds result (must holds error) }
{
    if holds { Ok(()) } else { Err(error) }
}

/// Checks that the field at this place is 0.
pub(crate) fn check_zero(at: usize, n: u32) -> Result<(), ObjectError>
    ensures { Finds result (zero_broken at n) }
{
    check(n == 0, ObjectError::Pad { at })
}

/// Checks that the count at this place is at most `most`.
pub(crate) fn check_count(most: u32, at: usize, n: u32) -> Result<(), ObjectError>
    ensures { Finds result (count_broken most at n) }
{
    check(n <= most, ObjectError::Count { at })
}

/// Checks that the count at this place is at least 1 and at most `most`.
pub(crate) fn check_some(most: u32, at: usize, n: u32) -> Result<(), ObjectError>
    ensures { Finds result (some_broken most at n) }
{
    check(1 <= n, ObjectError::Count { at })?;
    check_count(most, at, n)
}

/// Checks the code of a colour at this place.
pub(crate) fn check_colour(at: usize, code: u8) -> Result<(), ObjectError>
    ensures { Finds result (colour_broken at code) }
{
    check(code <= 1, ObjectError::Kind { at })
}

/// Checks the code of an operation at this place.
pub(crate) fn check_op(version: Version, at: usize, code: u32) -> Result<(), ObjectError>
    ensures { Finds result (op_broken version at code) }
{
    check(code <= version.last_op(), ObjectError::Kind { at })
}

/// Checks the number of a register at this place.
pub(crate) fn check_register(at: usize, number: u8) -> Result<(), ObjectError>
    ensures { Finds result (register_broken at number) }
{
    check(number < 64, ObjectError::Index { at })
}

/// Checks the code type at this place: zero for `int`, an existing one for `code`.
fn check_code_type(types: u32, at: usize, base: u8, code_type: u16) -> Result<(), ObjectError>
    ensures { Finds result (code_type_broken types at base code_type) }
{
    if base == 0 {
        check_zero(at, u32::from(code_type))
    } else {
        check(u32::from(code_type) < types, ObjectError::Index { at })
    }
}

/// Checks the basic type at this place, given the number of code types.
pub(crate) fn check_basic(
    types: u32,
    at: usize,
    refs: u8,
    base: u8,
    code_type: u16,
) -> Result<(), ObjectError>
    requires { at ≤ 2 ^ 28 }
    ensures { Finds result (basic_broken types at refs base code_type) }
{
    check(refs <= 8, ObjectError::Kind { at })?;
    check(base <= 1, ObjectError::Kind { at: at + 1 })?;
    check_code_type(types, at + 2, base, code_type)
}

/// Checks that the number at this place is that of a node, else `Index`, and that the node is a memory or an integer,
/// as required, else `Kind`.
#[inline(always)]
pub fn check_node_number(
    nodes: &NodeRecords,
    memory: bool,
    at: usize,
    n: u32,
) -> Result<(), ObjectError>
    ensures { Finds result (node_number_broken nodes.now memory at n) }
{
    check(nodes.has(n), ObjectError::Index { at })?;
    check(nodes.is_of_sort(memory, n), ObjectError::Kind { at })
}

/// Checks that the number at this place is that of a node with the required sort and at most this scope.
#[inline(always)]
pub(crate) fn check_named(
    nodes: &NodeRecords,
    scope: u8,
    memory: bool,
    at: usize,
    n: u32,
) -> Result<(), ObjectError>
    ensures { Finds result (named_broken nodes.now scope memory at n) }
{
    check_node_number(nodes, memory, at, n)?;
    check(nodes.is_within(scope, n), ObjectError::Index { at })
}
