//! A source that never fails.
ghost use Rattle.std.specs.Prelude.{◌≡◌, ◌<◌, None, Ok, Some, length, min};
ghost use Rattle.std.specs.Io.{ReadsAtMost};
ghost use Rattle.std.specs.Io.KnownBytes.{ReadConsumes};

use crate::{Failed, Source};
use std::marker::Model;

/// A source of known bytes that never fails. It reveals its bytes, and its count of failures is 0.
#[derive(Drop)]
pub struct SureSource<'a> {
    left: &'a [u8],
}

impl<'a> Model for SureSource<'a> {
    ghost use Rattle.std.specs.Prelude.{ℕ, List};

    ghost Value = { List ℕ };

    ghost view = { λ s. s.left.now };
}

impl<'a> SureSource<'a> {
    /// A source of these bytes.
    pub fn new(bytes: &'a [u8]) -> SureSource<'a>
        ensures { result ≡ bytes.now }
    {
        SureSource { left: bytes }
    }
}

impl<'a> Source for SureSource<'a> {
    ghost log = { λ bytes. record { left = Some bytes; takes = None; failures = 0 } };

    ghost heard = { λ _. None };

    ghost may_be_left = { λ bytes rest. rest ≡ bytes };

    /// Takes all the bytes that are left, or as many as fit into the buffer. It never fails.
    fn take(&mut self, buf: &mut [u8]) -> Result<usize, Failed>
        requires { 0 < length buf.old }
        ensures bound { ReadsAtMost result buf.new }
        ensures many { result ≡ Ok (min (length self.old) (length buf.new)) }
        ensures bytes { ReadConsumes (Some self.old) (Some self.new) result buf.new }
    {
        let count = self.left.len().min(buf.len());
        let (front, rest) = self.left.split_at(count);
        buf[..count].copy_from_slice(front);
        self.left = rest;
        Ok(count)
    }
}
