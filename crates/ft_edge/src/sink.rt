//! Where bytes are written.
ghost use Rattle.std.specs.Prelude.{◌≡◌, ◌≤◌, [], ◌∷◌, OnOk, OnErr};
ghost use Rattle.std.specs.Io.KnownBytes.{append_known};
ghost use Rattle.ft_edge.specs.Causes.{Rose, AddsPrefix};
ghost use Rattle.ft_edge.specs.Logs.{SinkLog};
ghost use Rattle.ft_edge.specs.Told.{append_told};

use crate::Failed;

/// Where bytes are written.
pub trait Sink {
    // What the sink records: the bytes written, every attempted piece, and how many puts failed.
    ghost log: { Self → SinkLog };

    /// Adds the whole piece to what was written; a put that fails adds a prefix of it.
    fn put(&mut self, bytes: &[u8]) -> Result<(), Failed>
        ensures pieces { (log self.new).pieces ≡ append_told (log self.old).pieces (bytes.now ∷ []) }
        ensures count { (log self.old).failures ≤ (log self.new).failures }
        ensures same_count { OnOk result ((log self.new).failures ≡ (log self.old).failures) }
        ensures ok { OnOk result ((log self.new).written ≡ append_known (log self.old).written bytes.now) }
        ensures err { OnErr result (AddsPrefix (log self.old).written (log self.new).written bytes.now) }
        ensures cause { OnErr result (Rose (log self.old).failures (log self.new).failures) };
}
