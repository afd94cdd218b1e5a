//! The lines of outputs.
ghost use Rattle.std.specs.Prelude.{◌≡◌, ◌≤◌, ◌+◌, ℕ, [], ◌∷◌, map, length, take, All};
ghost use Rattle.ft_isa.specs.Words.{line};
ghost use Rattle.ft_edge.specs.Lines.{Puts, end_of_puts};
ghost use Rattle.ft_meaning.specs.Room.{HasRoom};

use ft_edge::{Failed, Sink, put_line};
use ft_isa::{VALUE_ROOM, write_line};

/// The length of the longest name.
pub fn longest(names: &[Vec<u8>]) -> usize
    ensures { HasRoom (map (λ n. n.items) names.now) result }
{
    let mut most = 0;
    for name in names {
        most = name.len().max(most);
    }
    most
}

/// Writes the line of an output. The buffer has room for it.
pub fn put_output<K: Sink>(
    name: &[u8],
    value: u64,
    buf: &mut [u8],
    out: &mut K,
) -> Result<(), Failed>
    requires { length name.now + VALUE_ROOM ≤ length buf.old }
    ensures same { length buf.new ≡ length buf.old }
    ensures puts { Puts (end_of_puts result) (line name.now value ∷ []) (K.log out.old) (K.log out.new) }
{
    let start = write_line(buf, name, value);
    put_line(&buf[start..], out)
}
