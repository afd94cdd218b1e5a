//! A line that is being built.
ghost use Rattle.std.specs.Prelude.{◌≡◌, ◌≤◌, ◌+◌, ◌++◌, [], length, decimal};

use itoa::Buffer;
use std::marker::Model;

/// The maximum size of a line in bytes.
pub const ROOM: usize = 160;

/// The maximum number of digits of a number below 2^64.
const DIGITS: usize = 20;

/// A line that is being built: at most `ROOM` bytes. Contracts see it as the list of its bytes.
#[derive(Drop)]
pub struct Line {
    bytes: [u8; ROOM],
    len: usize,
}

impl Model for Line {
    ghost use Rattle.std.specs.Prelude.{ℕ, ◌≤◌, List, take};

    ghost Value = { List ℕ };

    ghost view = { λ l. take l.len l.bytes };

    ghost invariant = { λ l. l.len ≤ 160 };
}

impl Line {
    /// An empty line.
    pub fn new() -> Line
        ensures { result ≡ [] }
    {
        Line {
            bytes: [0; ROOM],
            len: 0,
        }
    }

    /// Adds a piece.
    pub fn piece(&mut self, piece: &[u8])
        requires { length self.old + length piece.now ≤ ROOM }
        ensures { self.new ≡ self.old ++ piece.now }
    {
        let end = self.len + piece.len();
        self.bytes[self.len..end].copy_from_slice(piece);
        self.len = end;
    }

    /// Adds a number in decimal digits, without leading zeros.
    pub fn number(&mut self, number: u64)
        requires { length self.old + DIGITS ≤ ROOM }
        ensures added { self.new ≡ self.old ++ decimal number }
        ensures length { length self.new ≤ length self.old + DIGITS }
    {
        let mut digits = Buffer::new();
        self.piece(digits.format(number).as_bytes());
    }

    /// The line's bytes.
    pub fn as_bytes(&self) -> &[u8]
        ensures { result.now ≡ self.now }
    {
        &self.bytes[..self.len]
    }
}
