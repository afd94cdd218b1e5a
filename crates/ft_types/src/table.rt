//! Tables: vectors that contracts see as lists.
ghost use Rattle.std.specs.Prelude.{◌≡◌, ◌<◌, [], Some, length, slice_get};

use std::alloc::Global;
use std::marker::Model;

/// Values in order.
#[derive(Drop)]
pub struct Table<T> {
    values: Vec<T>,
}

impl<T> Model for Table<T> {
    ghost use Rattle.std.specs.Prelude.{List};
    ghost use Rattle.std.specs.Coded.{coded_list};

    ghost Value = { List T };

    ghost coded = { coded_list T.code };

    ghost view = { λ t. t.values.items };
}

impl<T> Table<T> {
    /// The empty table, which needs no memory.
    pub fn new(alloc: Global) -> Table<T>
        ensures { result ≡ [] }
    {
        Table {
            values: Vec::new(alloc),
        }
    }

    /// The table of these values, without allocating.
    pub fn from_vec(values: Vec<T>) -> Table<T>
        ensures { result ≡ values.items }
    {
        Table { values }
    }

    /// The table's values, without allocating.
    pub fn into_vec(self) -> Vec<T>
        ensures { result.items ≡ self }
    {
        self.values
    }

    /// The values in order.
    pub fn as_slice(&self) -> &[T]
        ensures { result.now ≡ self.now }
    {
        self.values.as_slice()
    }

    /// How many values there are.
    pub fn len(&self) -> usize
        ensures { result ≡ length self.now }
    {
        self.values.len()
    }

    /// Value `i`, counted from 0.
    pub fn at(&self, i: usize) -> &T
        requires { i < length self.now }
        ensures { slice_get self.now i ≡ Some result.now }
    {
        &self.values[i]
    }
}
