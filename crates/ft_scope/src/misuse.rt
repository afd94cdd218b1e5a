//! Misused names: an array without an index, or another name with one.
ghost use Rattle.std.specs.Prelude.{◌≡◌, Some};
ghost use Rattle.ft_scope.specs.Scope.{bare_misuse, index_misuse, first_of};

use crate::slot::Slot;

/// The first of two places.
pub fn first_of(one: Option<usize>, other: Option<usize>) -> Option<usize>
    ensures { result ≡ first_of one other }
{
    match one {
        Some(at) => Some(at),
        None => other,
    }
}

/// The place of a name without an index, if it is an array's.
pub fn bare_misuse(slot: Slot, at: usize) -> Option<usize>
    ensures { result ≡ bare_misuse at (Some slot) }
{
    match slot {
        Slot::Run { .. } => Some(at),
        _ => None,
    }
}

/// The place of a name with an index, if it is a plain cell's or a variable's.
pub fn index_misuse(slot: Slot, at: usize) -> Option<usize>
    ensures { result ≡ index_misuse at (Some slot) }
{
    match slot {
        Slot::Cell(_) => Some(at),
        Slot::Var(_) => Some(at),
        Slot::Run { .. } => None,
    }
}
