//! Byte ranges.
ghost use Rattle.std.specs.Prelude.{◌≡◌, ◌+◌, ◌≤◌, length, take, drop};

/// The `count` bytes from a place on.
pub fn stretch(bytes: &[u8], at: usize, count: usize) -> &[u8]
    requires { at + count ≤ length bytes.now }
    ensures bytes { result.now ≡ take count (drop at bytes.now) }
    ensures count { length result.now ≡ count }
{
    &bytes[at..at + count]
}
