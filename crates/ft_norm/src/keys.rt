//! The keyed hasher of the interner's table.
ghost use Rattle.std.specs.Prelude.{◌≡◌};
ghost use Rattle.std.specs.Hash as fed;
ghost use Rattle.std.specs.List.{fold};
ghost use Rattle.core.specs.Hash.FoldHasher.{folded_multiply};
ghost use Rattle.ft_norm.specs.Hashing.{noted, written};

use std::hash::{BuildHasher, Hasher};

/// Mixed into the two numbers from which keys are made, so that small numbers make good keys too. Any two numbers with
/// random-looking bits would do.
const FIRST_MIX: u64 = 0x243f_6a88_85a3_08d3;

const SECOND_MIX: u64 = 0x9e37_79b9_7f4a_7c15;

/// The keys with which entries are hashed: an initial state and an odd factor. They make it hard for an attacker who
/// does not know them to choose entries that collide.
#[derive(Clone, Copy)]
pub struct Keys {
    state: u64,
    factor: u64,
}

impl Keys {
    /// Makes keys from two numbers.
    pub fn new(first: u64, second: u64) -> Keys {
        Keys {
            state: first ^ FIRST_MIX,
            factor: (second ^ SECOND_MIX) | 1,
        }
    }
}

/// A hasher that XORs each word into its state, multiplies by the factor, and XORs the two halves of the product. The
/// idea is from the hashers wyhash and foldhash.
#[derive(Clone, Copy)]
pub struct KeyedFold {
    state: u64,
    factor: u64,
}

/// The XOR of the two halves of a product.
#[inline(always)]
fn folded_multiply(a: u64, b: u64) -> u64
    ensures { result ≡ folded_multiply a b }
{
    let product = a as u128 * b as u128;
    (product & 0xFFFF_FFFF_FFFF_FFFF) as u64 ^ (product >> 64) as u64
}

impl KeyedFold {
    /// Hashes a word.
    #[inline(always)]
    fn note(&mut self, word: u64)
        ensures { self.new ≡ noted self.old word }
    {
        self.state = folded_multiply(self.state ^ word, self.factor);
    }
}

impl Hasher for KeyedFold {
    ghost write = { written };

    ghost finish = { λ h. h.state };

    #[inline(always)]
    fn finish(&self) -> u64 {
        self.state
    }

    fn write(&mut self, bytes: &[u8]) {
        if bytes.len() == 8 {
            self.note(u64::from_le_bytes([
                bytes[0], bytes[1], bytes[2], bytes[3], bytes[4], bytes[5], bytes[6], bytes[7],
            ]));
            return;
        }
        if bytes.len() == 4 {
            self.note(u64::from(u32::from_le_bytes([bytes[0], bytes[1], bytes[2], bytes[3]])));
            return;
        }
        for byte in bytes {
            self.note(u64::from(*byte));
        }
    }

    #[inline(always)]
    fn write_u8(&mut self, i: u8)
        ensures { self.new ≡ fold written self.old (fed.u8 i) }
    {
        self.note(u64::from(i));
    }

    #[inline(always)]
    fn write_u32(&mut self, i: u32)
        ensures { self.new ≡ fold written self.old (fed.u32 i) }
    {
        self.note(u64::from(i));
    }

    #[inline(always)]
    fn write_u64(&mut self, i: u64)
        ensures { self.new ≡ fold written self.old (fed.u64 i) }
    {
        self.note(i);
    }

    #[inline(always)]
    fn write_usize(&mut self, i: usize)
        ensures { self.new ≡ fold written self.old (fed.usize i) }
    {
        self.note(i as u64);
    }
}

impl BuildHasher for Keys {
    type Hasher = KeyedFold;

    ghost build_hasher = { λ s. record { state = s.state; factor = s.factor } };

    #[inline(always)]
    fn build_hasher(&self) -> KeyedFold {
        KeyedFold {
            state: self.state,
            factor: self.factor,
        }
    }
}
