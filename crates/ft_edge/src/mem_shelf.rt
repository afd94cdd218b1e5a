//! Files in memory, with loads that must fail.
ghost use Rattle.std.specs.Prelude.{◌≡◌, ◌≢◌, ◌≤◌, [], map, string_bytes, Err, None, Some, OnOk, OnErr};
ghost use Rattle.std.specs.Option.{option_map};
ghost use Rattle.std.specs.Ordering.{nat_cmp};
ghost use Rattle.std.specs.Cmp.Lexicographic.{slice_cmp};
ghost use Rattle.std.specs.FinMap.{get, from_entries};
ghost use Rattle.ft_edge.specs.Stored.{entry_of};

use crate::counter::Counter;
use crate::{Load, LoadFault, Shelf};
use ft_isa::NoMemory;
use std::alloc::Global;
use std::collections::VecDeque;
use std::marker::Model;

/// A file in memory.
#[derive(Drop)]
struct Stored {
    name: String,
    bytes: Vec<u8>,
}

/// A shelf with files in memory, and with loads that must fail. It reveals its files but does not record its loads:
/// recording the name of each load, even if memory ran out, would itself need memory.
#[derive(Drop)]
pub struct MemShelf {
    alloc: Global,
    // Newest first: a file hides earlier ones with the same name.
    files: VecDeque<Stored>,
    calls: Counter,
    failed: Option<String>,
}

impl Model for MemShelf {
    ghost use Rattle.ft_edge.specs.MemoryShelf.{MemoryShelf, shelf_code};

    ghost Value = { MemoryShelf };

    ghost coded = { shelf_code };

    ghost use Rattle.ft_edge.specs.MemoryShelfView.{shelf_of};

    ghost view = { shelf_of };
}

impl MemShelf {
    ghost use Rattle.ft_edge.specs.MemoryShelf.{empty_shelf, with_file, with_failing_load, after_failure_at};

    /// A shelf without files; it keeps the allocator.
    pub fn new(alloc: Global) -> MemShelf
        ensures { result ≡ empty_shelf }
    {
        MemShelf {
            alloc,
            files: VecDeque::new(alloc),
            calls: Counter::new(alloc),
            failed: None,
        }
    }

    /// Puts a file under its name, replacing an earlier one of that name.
    pub fn add(&mut self, name: &str, bytes: &[u8]) -> Result<(), NoMemory>
        ensures ok { OnOk result (self.new ≡ with_file self.old name.now bytes.now) }
        ensures err { OnErr result (self.new ≡ self.old) }
    {
        let name = String::from_str(self.alloc, name)?;
        let bytes = Vec::from_slice(self.alloc, bytes)?;
        self.files
            .push_front(Stored { name, bytes })
            .map_err(|_| NoMemory)?;
        Ok(())
    }

    /// Adds a load that must fail. Loads are numbered from 0; all loads from number 2^64 - 1 on share that number.
    pub fn fail_at(&mut self, call: u64) -> Result<(), NoMemory>
        ensures ok { OnOk result (self.new ≡ with_failing_load self.old call) }
        ensures err { OnErr result (self.new ≡ self.old) }
    {
        self.calls.fail_at(call)?;
        Ok(())
    }

    /// Counts a failed load of this name.
    fn failure(&mut self, name: String) -> LoadFault
        ensures failure { result ≡ LoadFault.Failed }
        ensures after { self.new ≡ after_failure_at self.old (string_bytes name) }
        ensures count { self.old.calls.failures ≤ self.new.calls.failures }
    {
        self.calls.count_failure();
        self.failed = Some(name);
        LoadFault::Failed
    }
}

/// The bytes of the newest file with this name.
fn find_bytes<'a>(files: &'a VecDeque<Stored>, name: &str) -> Option<&'a [u8]>
    ensures { option_map (λ x. x.now) result
        ≡ get (from_entries {R = slice_cmp nat_cmp} (map entry_of files.now.items)) name.now }
{
    for stored in files {
        if name == stored.name.as_str() {
            return Some(stored.bytes.as_slice());
        }
    }
    None
}

impl Shelf for MemShelf {
    ghost use Rattle.ft_edge.specs.Loads.{Loads};
    ghost use Rattle.ft_edge.specs.MemoryShelf.{load_answer, after_load};

    ghost log = { λ shelf. record { files = Some shelf.files; asked = None; failures = shelf.calls.failures; failed_name = shelf.failed_name } };

    ghost agrees = { λ shelf files. files ≡ shelf.files };

    /// Loads the file with this name. If the shelf has none, that is a failure. A load that runs out of memory is
    /// numbered like any other, but does not count as a failure.
    fn load(&mut self, name: &str, limit: usize, into: &mut Vec<u8>) -> Result<Load, LoadFault>
        requires { into.old.items ≡ [] }
        ensures loads { Loads (Some self.old.files) name.now limit into.new.items result }
        ensures answer { result ≢ Err LoadFault.NoMemory → result ≡ load_answer self.old name.now limit }
        ensures after { self.new ≡ after_load self.old name.now result }
        ensures count { self.old.calls.failures ≤ self.new.calls.failures }
    {
        let is_to_fail = self.calls.begin();
        let copy = match String::from_str(self.alloc, name) {
            Ok(copy) => copy,
            Err(_) => return Err(LoadFault::NoMemory),
        };
        if is_to_fail {
            return Err(self.failure(copy));
        }
        match find_bytes(&self.files, name) {
            Some(bytes) if bytes.len() > limit => Ok(Load::TooLong),
            Some(bytes) => match into.extend_from_slice(bytes) {
                Ok(()) => Ok(Load::Whole),
                Err(_) => Err(LoadFault::NoMemory),
            },
            None => Err(self.failure(copy)),
        }
    }
}
