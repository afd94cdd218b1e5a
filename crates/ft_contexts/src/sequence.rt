//! Growable lists, which contracts see as plain lists.
ghost use Rattle.std.specs.Prelude.{◌≡◌, ◌<◌, ◌++◌, ◌∷◌, [], Some, drop, length, slice_get, IfOk, OnOk, OnErr};

use ft_isa::NoMemory;
use std::alloc::Global;
use std::marker::Model;

/// Values in order.
#[derive(Drop)]
pub struct Sequence<T> {
    values: Vec<T>,
}

impl<T> Model for Sequence<T> {
    ghost use Rattle.std.specs.Prelude.{List};
    ghost use Rattle.std.specs.Coded.{coded_list};

    ghost Value = { List T };

    ghost coded = { coded_list T.code };

    ghost view = { λ s. s.values.items };
}

impl<T: Copy> Sequence<T> {
    /// The empty list.
    pub fn empty(alloc: Global) -> Sequence<T>
        ensures { result ≡ [] }
    {
        Sequence {
            values: Vec::new(alloc),
        }
    }

    /// The empty list, with room for this many values.
    pub fn with_room(alloc: Global, room: usize) -> Result<Sequence<T>, NoMemory>
        ensures { IfOk result (λ s. s ≡ []) }
    {
        Ok(Sequence {
            values: Vec::with_capacity(alloc, room)?,
        })
    }

    /// Copies the values of another list, reusing its own memory.
    pub fn copy_from(&mut self, other: &Sequence<T>) -> Result<(), NoMemory>
        ensures { OnOk result (self.new ≡ other.now) }
    {
        self.values.clear();
        self.values.extend_from_slice(other.values.as_slice())?;
        Ok(())
    }

    /// Removes all values, and keeps the memory.
    pub fn clear(&mut self)
        ensures { self.new ≡ [] }
    {
        self.values.clear();
    }

    /// How many values there are.
    pub fn len(&self) -> usize
        ensures { result ≡ length self.now }
    {
        self.values.len()
    }

    /// The values in order.
    pub fn as_slice(&self) -> &[T]
        ensures { result.now ≡ self.now }
    {
        self.values.as_slice()
    }

    /// Value `i`, counted from 0.
    pub fn at(&self, i: usize) -> T
        requires { i < length self.now }
        ensures { slice_get self.now i ≡ Some result }
    {
        self.values[i]
    }

    /// Adds a value at the end. If memory runs out, nothing changes.
    pub fn push(&mut self, value: T) -> Result<(), NoMemory>
        ensures ok { OnOk result (self.new ≡ self.old ++ value ∷ []) }
        ensures err { OnErr result (self.new ≡ self.old) }
    {
        match self.values.push(value) {
            Ok(()) => Ok(()),
            Err(_) => Err(NoMemory),
        }
    }

    /// Removes the first value.
    pub fn remove_first(&mut self)
        requires { 0 < length self.old }
        ensures { self.new ≡ drop 1 self.old }
    {
        let _ = self.values.remove(0);
    }
}
