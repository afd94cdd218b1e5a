//! Sources of bytes.
ghost use Rattle.std.specs.Prelude.{◌≡◌, ◌<◌, ◌≤◌, ℕ, List, [], ◌∷◌, length, is_some, OnOk, OnErr};
ghost use Rattle.std.specs.declared.option.Option.{Option};
ghost use Rattle.ft_edge.specs.Takes.{after_read, TakesBack};
ghost use Rattle.std.specs.Io.{ReadsAtMost};
ghost use Rattle.std.specs.Io.KnownBytes.{ReadConsumes};
ghost use Rattle.ft_edge.specs.Causes.{Rose};
ghost use Rattle.ft_edge.specs.Logs.{SourceLog};
ghost use Rattle.ft_edge.specs.Streams.{given};
ghost use Rattle.ft_edge.specs.Told.{append_told};

use crate::Failed;

/// A source of bytes.
pub trait Source {
    // What the source records: the bytes that are left, how many bytes each take returned, and how many takes failed.
    ghost log: { Self → SourceLog };

    // What each take returned, the newest first, if the source records it.
    ghost heard: { Self → Option (List (List ℕ)) };

    // Whether these bytes may be left: they agree with all that was taken.
    ghost may_be_left: { Self → List ℕ → Type 0 };

    /// Reads the next bytes into the start of a buffer of nonzero length, and returns how many: at least one if any are
    /// left, and 0 at the end. A take that fails reads nothing and leaves the buffer unchanged.
    fn take(&mut self, buf: &mut [u8]) -> Result<usize, Failed>
        requires { 0 < length buf.old }
        ensures takes { (log self.new).takes ≡ append_told (log self.old).takes (given result ∷ []) }
        ensures bound { ReadsAtMost result buf.new }
        ensures bytes { ReadConsumes (log self.old).left (log self.new).left result buf.new }
        ensures kept { OnErr result (buf.new ≡ buf.old) }
        ensures told { is_some (log self.new).left ≡ is_some (log self.old).left }
        ensures count { (log self.old).failures ≤ (log self.new).failures }
        ensures same_count { OnOk result ((log self.new).failures ≡ (log self.old).failures) }
        ensures cause { OnErr result (Rose (log self.old).failures (log self.new).failures) }
        ensures heard { heard self.new ≡ after_read (heard self.old) result buf.new }
        ensures may_be_left { (rest : List ℕ) → may_be_left self.new rest → TakesBack (may_be_left self.old) rest result buf.new };
}
