//! A sink that discards what it is given.
ghost use Rattle.std.specs.Prelude.{◌≡◌, None, Ok};

use crate::{Failed, Sink};

/// A sink that discards what it is given and never fails. It reveals nothing, and its count of failures is 0.
#[derive(Drop)]
pub struct NullSink;

impl NullSink {
    /// A sink that discards what it is given.
    pub fn new() -> NullSink {
        NullSink
    }
}

impl Sink for NullSink {
    ghost log = { λ _. record { written = None; pieces = None; failures = 0 } };

    fn put(&mut self, _bytes: &[u8]) -> Result<(), Failed>
        ensures { result ≡ Ok tt }
    {
        Ok(())
    }
}
