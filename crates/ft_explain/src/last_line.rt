//! A sink that remembers the last line written, or that a debugger's command was refused.
ghost use Rattle.std.specs.Prelude.{◌≡◌, ◌≤◌, [], ◌∷◌, OnOk, OnErr};
ghost use Rattle.std.specs.Io.KnownBytes.{append_known};
ghost use Rattle.ft_edge.specs.Causes.{Rose, AddsPrefix};
ghost use Rattle.ft_edge.specs.Told.{append_told};

use ft_edge::{Failed, GatheringSink, Gathers, Sink};
use ft_mistakes::BAD_COMMAND;
use ft_text::{Line, ROOM};
use std::io::Write;

/// A sink that passes each piece on to another sink and remembers the last piece if it has at most `ROOM` bytes, as the
/// line of a refusal does. Once a piece is `BAD_COMMAND`, it remembers this one. A put allocates no memory.
#[derive(Drop)]
pub struct LastLine<K: Sink> {
    sink: K,
    line: Line,
}

impl<K: Sink + Drop> LastLine<K> {
    /// Wraps a sink. Nothing has been written to it yet.
    pub fn new(sink: K) -> LastLine<K>
        ensures { result.sink ≡ sink }
    {
        LastLine {
            sink,
            line: Line::new(),
        }
    }

    /// The wrapped sink, and the piece that it remembers; empty if that was longer than `ROOM`.
    pub fn into_parts(self) -> (K, Line)
        ensures { result.0 ≡ self.sink }
    {
        let LastLine { sink, line } = self;
        (sink, line)
    }
}

impl<K: Sink> Sink for LastLine<K> {
    ghost log = { λ s. K.log s.sink };

    fn put(&mut self, bytes: &[u8]) -> Result<(), Failed> {
        if self.line.as_bytes().trim_ascii_end() != BAD_COMMAND {
            self.line = line_of(bytes);
        }
        self.sink.put(bytes)
    }
}

impl<W: Write + Drop> Gathers<W> for LastLine<GatheringSink<W>> {
    ghost use Rattle.std.specs.Prelude.{refl};
    ghost use Rattle.ft_edge.specs.Gathered.{written_to};

    type Kept = Line;

    ghost bytes = { λ s. written_to s.sink };

    ghost tells = { λ s. refl };

    fn into_sink(self) -> (GatheringSink<W>, Line) {
        self.into_parts()
    }
}

/// A line of these bytes; empty if they do not fit.
fn line_of(bytes: &[u8]) -> Line {
    let mut line = Line::new();
    if bytes.len() <= ROOM {
        line.piece(bytes);
    }
    line
}
