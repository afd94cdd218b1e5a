//! Files of the system, by path.
ghost use Rattle.std.specs.Prelude.{◌≡◌, ◌≤◌, [], None};
ghost use Rattle.ft_edge.specs.Heard.{LoadsHeard};

use crate::opened_files::OpenedFiles;
use crate::opens::SystemFiles;
use crate::{Load, LoadFault, Shelf};
use std::alloc::Global;
use std::marker::Model;
use std::rt::Files;

/// A shelf with the files of the system, by path. It does not reveal them. A file that is missing or cannot be read is
/// a failure, and the count of failures saturates at 2^64 - 1.
#[derive(Drop)]
pub struct FolderShelf<R: Files> {
    files: OpenedFiles<SystemFiles<R>>,
    alloc: Global,
    failures: u64,
    failed: Option<String>,
}

impl<R: Files> Model for FolderShelf<R> {
    ghost use Rattle.ft_edge.specs.FolderFailures.{FolderFailures};
    ghost use Rattle.ft_edge.specs.Known.{known_text};

    ghost Value = { FolderFailures };

    ghost view = { λ s. record { count = s.failures; failed_name = known_text s.failed; heard = s.files.heard.files } };
}

impl<R: Files> FolderShelf<R> {
    ghost use Rattle.ft_edge.specs.FolderFailures.{no_failures};

    /// A shelf over the files that the runtime can reach; it keeps the allocator.
    pub fn new(rt: R, alloc: Global) -> FolderShelf<R>
        ensures { result ≡ no_failures }
    {
        FolderShelf {
            files: OpenedFiles::new(SystemFiles { rt }),
            alloc,
            failures: 0,
            failed: None,
        }
    }
}

impl<R: Files> Shelf for FolderShelf<R> {
    ghost use Rattle.ft_edge.specs.Loads.{Loads};
    ghost use Rattle.ft_edge.specs.Logs.{LoadCause};
    ghost use Rattle.ft_edge.specs.FolderFailures.{folder_log};
    ghost use Rattle.ft_edge.specs.Heard.{Agree};

    ghost log = { folder_log };

    ghost agrees = { λ shelf files. Agree shelf.heard files };

    /// Loads the file at a path. It reads at most `limit` + 1 bytes.
    fn load(&mut self, name: &str, limit: usize, into: &mut Vec<u8>) -> Result<Load, LoadFault>
        requires { into.old.items ≡ [] }
        ensures loads { Loads None name.now limit into.new.items result }
        ensures count { self.old.count ≤ self.new.count }
        ensures cause { LoadCause (folder_log self.old) (folder_log self.new) name.now result }

        // What was heard: the file's bytes and its end, or more bytes than the limit.
        ensures heard { LoadsHeard None self.old.heard self.new.heard name.now limit into.new.items result }
    {
        let copy = match String::from_str(self.alloc, name) {
            Ok(copy) => copy,
            Err(_) => return Err(LoadFault::NoMemory),
        };
        let answer = self.files.load(name, limit, into);
        if let Err(LoadFault::Failed) = answer {
            self.failures = self.failures.saturating_add(1);
            self.failed = Some(copy);
        }
        answer
    }
}
