//! A writer that records what it took.
ghost use Rattle.std.specs.Prelude.{◌≡◌, [], Some};
ghost use Rattle.std.specs.Io.{WritesAtMost};
ghost use Rattle.std.specs.Io.KnownBytes.{Keeps, WriteAppends};
ghost use Rattle.ft_edge.specs.Recording.{accepted, recorded_writer};

use ft_history::Taken;
use std::io;
use std::io::Write;

/// A writer that records, for proofs alone, which bytes the writes of another one accepted.
#[derive(Drop)]
pub struct Recorded<W: Write + Drop> {
    out: W,
    taken: Taken,
}

impl<W: Write + Drop> Recorded<W> {
    /// Nothing was written so far.
    pub fn new(out: W) -> Recorded<W>
        ensures empty { accepted result ≡ [] }
        ensures writer { recorded_writer result ≡ out }
    {
        Recorded {
            out,
            taken: Taken::new(),
        }
    }
}

impl<W: Write + Drop> Write for Recorded<W> {
    ghost contents = { λ writer. Some (accepted writer) };

    // What is noted is what the write accepted.
    fn write(&mut self, buf: &[u8]) -> io::Result<usize>
        ensures bound { WritesAtMost result buf.now }
        ensures bytes { WriteAppends (Some (accepted self.old)) (Some (accepted self.new)) result buf.now }
        ensures told { WriteAppends (W.contents (recorded_writer self.old)) (W.contents (recorded_writer self.new)) result buf.now }
    {
        match self.out.write(buf) {
            Ok(count) => {
                self.taken.note(&buf[..count]);
                Ok(count)
            }
            Err(error) => Err(error),
        }
    }

    fn flush(&mut self) -> io::Result<()>
        ensures bytes { Keeps (Some (accepted self.old)) (Some (accepted self.new)) }
        ensures told { Keeps (W.contents (recorded_writer self.old)) (W.contents (recorded_writer self.new)) }
    {
        self.out.flush()
    }
}
