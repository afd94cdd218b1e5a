//! Names with their places.

/// A name: its slice of the source, and the place of its first byte, counted from 0.
#[derive(Clone, Copy, Debug)]
pub struct Spot<'a> {
    pub text: &'a [u8],
    pub at: usize,
}
