//! Opening files to read.
ghost use Rattle.std.specs.Prelude.{ℕ, List, None, IfOk};
ghost use Rattle.std.specs.declared.option.Option.{Option};
ghost use Rattle.std.specs.Io.KnownBytes.{Keeps};

use std::fs::{File, OpenFile};
use std::io;
use std::io::Read;
use std::rt::Files;

/// What opens files to read.
pub(crate) trait Opens {
    type Opened: Read + Drop;

    // The bytes of the file with this name, if they are known.
    ghost content: { Self → List ℕ → Option (List ℕ) };

    /// Opens the file with this name: its reads give its bytes.
    fn open_to_read(&self, name: &str) -> io::Result<Self::Opened>
        ensures { IfOk result (λ file. Keeps (content self.now name.now) (Self.Opened.Read.remaining file)) };

    /// The size that the system reports for an open file, or 0.
    fn reported_size(&self, file: &Self::Opened) -> usize;
}

/// The files of the system, which does not reveal them.
#[derive(Drop)]
pub(crate) struct SystemFiles<R: Files> {
    pub rt: R,
}

impl<R: Files> Opens for SystemFiles<R> {
    type Opened = R::File;

    ghost content = { λ _ _. None };

    fn open_to_read(&self, name: &str) -> io::Result<R::File> {
        File::open(&self.rt, name)
    }

    fn reported_size(&self, file: &R::File) -> usize {
        match file.metadata() {
            Ok(metadata) => usize::try_from(metadata.len()).unwrap_or(0),
            Err(_) => 0,
        }
    }
}
