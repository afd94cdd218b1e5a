//! Files by name.
ghost use Rattle.std.specs.Prelude.{◌≡◌, ◌≤◌, [], ◌∷◌};
ghost use Rattle.ft_edge.specs.Loads.{Files, Loads};
ghost use Rattle.ft_edge.specs.Heard.{LoadsFrom};
ghost use Rattle.ft_edge.specs.Logs.{ShelfLog, LoadCause};
ghost use Rattle.ft_edge.specs.Told.{append_told};

use thiserror::Error;

/// How a load that did not fail ended.
#[derive(Clone, Copy, Debug, PartialEq, Eq)]
pub enum Load {
    /// The whole file was loaded.
    Whole,
    /// The file is longer than the limit, and none of it was loaded.
    TooLong,
}

/// Why a load failed.
#[derive(Clone, Copy, Debug, PartialEq, Eq, Error)]
pub enum LoadFault {
    /// The file could not be read, and the count of failures rose.
    #[error("the file could not be read")]
    Failed,
    /// Memory ran out, and the count of failures is unchanged.
    #[error("out of memory")]
    NoMemory,
}

/// Files by name.
pub trait Shelf {
    // What the shelf records: the files, the loads made, how many of them failed, and the name of the last that did.
    ghost log: { Self → ShelfLog };

    // Whether these files agree with all that the shelf has returned so far.
    ghost agrees: { Self → Files → Type 0 };

    /// Loads the file with this name into an empty vector, if the file has at most `limit` bytes. After any result but
    /// `Whole`, the vector is empty.
    fn load(&mut self, name: &str, limit: usize, into: &mut Vec<u8>) -> Result<Load, LoadFault>
        requires { into.old.items ≡ [] }
        ensures files { (log self.new).files ≡ (log self.old).files }
        ensures asked { (log self.new).asked ≡ append_told (log self.old).asked ((name.now, limit) ∷ []) }
        ensures loads { Loads (log self.old).files name.now limit into.new.items result }
        ensures count { (log self.old).failures ≤ (log self.new).failures }
        ensures cause { LoadCause (log self.old) (log self.new) name.now result }
        ensures heard { (files : Files) → agrees self.new files → agrees self.old files × LoadsFrom files name.now limit into.new.items result };
}
