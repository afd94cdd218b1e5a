//! Vectors with reserved room, and copies of tables. Each call may run out of memory.
ghost use Rattle.std.specs.Prelude.{◌≡◌, ◌∷◌, ◌++◌, [], IfOk, OnOk};
ghost use Rattle.ft_object.specs.Judged.{OnlyMemory};

use crate::decode_error::DecodeError;
use ft_types::Table;
use std::alloc::Global;

/// An empty vector with room for this many values.
pub(crate) fn reserve<T>(alloc: Global, count: u32) -> Result<Vec<T>, DecodeError>
    ensures empty { IfOk result (λ values. values.items ≡ []) }
    ensures err { OnlyMemory result }
{
    Vec::with_capacity(alloc, count as usize).map_err(|_| DecodeError::NoMemory)
}

/// Appends a value.
pub(crate) fn push<T: Drop>(values: &mut Vec<T>, value: T) -> Result<(), DecodeError>
    ensures ok { OnOk result (values.new.items ≡ values.old.items ++ value ∷ []) }
    ensures err { OnlyMemory result }
{
    values.push(value).map_err(|_| DecodeError::NoMemory)
}

/// Copies values into an owned table.
pub(crate) fn copy<T: Copy>(alloc: Global, values: &[T]) -> Result<Table<T>, DecodeError>
    ensures copied { IfOk result (λ t. t ≡ values.now) }
    ensures err { OnlyMemory result }
{
    let values = Vec::from_slice(alloc, values).map_err(|_| DecodeError::NoMemory)?;
    Ok(Table::from_vec(values))
}
