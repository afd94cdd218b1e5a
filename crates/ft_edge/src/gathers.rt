//! Sinks over a sink that buffers pieces.
use crate::{GatheringSink, Sink};
use std::io::Write;

/// A sink over a gathering sink.
pub trait Gathers<W: Write + Drop>: Sink + Drop {
    ghost use Rattle.std.specs.Prelude.{◌≡◌, ℕ, List, Some};
    ghost use Rattle.ft_edge.specs.Gathered.{written_to};

    /// What it keeps of its pieces.
    type Kept: Drop;

    // The bytes that were put into the gathering sink.
    ghost bytes: { Self → List ℕ };

    /// The gathering sink, and what was kept.
    fn into_sink(self) -> (GatheringSink<W>, Self::Kept)
        ensures { written_to result.0 ≡ bytes self };

    // The sink's record tells these bytes.
    ghost tells: { (sink : Self) → (Self.log sink).written ≡ Some (bytes sink) };
}

impl<W: Write + Drop> Gathers<W> for GatheringSink<W> {
    ghost use Rattle.std.specs.Prelude.{refl};
    ghost use Rattle.ft_edge.specs.Gathered.{written_to};

    type Kept = ();

    ghost bytes = { λ sink. written_to sink };

    ghost tells = { λ sink. refl };

    fn into_sink(self) -> (GatheringSink<W>, ()) {
        (self, ())
    }
}
