//! Standard output.
ghost use Rattle.std.specs.Prelude.{◌≡◌, None};

use crate::writing::put_to;
use crate::{Failed, Recorded, Sink};
use std::io;
use std::marker::Model;

/// Standard output. It does not reveal its bytes, and its count of failures saturates at 2^64 - 1.
#[derive(Drop)]
pub struct StdoutSink<R: Print> {
    rt: R,
    failures: u64,
}

impl<R: Print> Model for StdoutSink<R> {
    ghost use Rattle.std.specs.Prelude.{ℕ};

    ghost Value = { ℕ };

    ghost view = { λ s. s.failures };
}

impl<R: Print> StdoutSink<R> {
    /// The standard output of the runtime.
    pub fn new(rt: R) -> StdoutSink<R>
        ensures { result ≡ 0 }
    {
        StdoutSink { rt, failures: 0 }
    }
}

impl<R: Print> Sink for StdoutSink<R> {
    ghost log = { λ failures. record { written = None; pieces = None; failures = failures } };

    fn put(&mut self, bytes: &[u8]) -> Result<(), Failed> {
        put_to(
            &mut Recorded::new(io::writer(&self.rt)),
            bytes,
            &mut self.failures,
        )
    }
}
