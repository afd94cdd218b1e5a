//! Writing one line.
ghost use Rattle.std.specs.Prelude.{◌∷◌, []};
ghost use Rattle.ft_edge.specs.Lines.{Puts, end_of_puts};

use crate::{Failed, Sink};

/// Writes a line, with one put.
#[inline(always)]
pub fn put_line<K: Sink>(line: &[u8], out: &mut K) -> Result<(), Failed>
    ensures { Puts (end_of_puts result) (line.now ∷ []) (K.log out.old) (K.log out.new) }
{
    out.put(line)
}
