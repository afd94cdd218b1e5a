//! Runs of bytes at the front of a text: names and numbers.
ghost use Rattle.std.specs.Prelude.{◌≡◌, ◌&&◌, ℕ, ◌+◌, ◌^◌, ◌<◌, ◌≤◌, length, nat_lt, take, drop, IfNone, IfSome};
ghost use Rattle.ft_lexer.specs.Bytes.{is_digit};
ghost use Rattle.ft_lexer.specs.Numeral.{numeral};
ghost use Rattle.ft_lexer.specs.Scan.{scan_from, name, number, wrong};
ghost use Rattle.ft_lexer.specs.Ends.{EndsName, EndsNumber};
ghost use Rattle.ft_lexer.specs.declared.lex_error.LexError.TheVariants as lex_errors;

use crate::bytes::{is_digit, is_name_byte};

/// The maximum length of a name in bytes.
pub const NAME_LIMIT: usize = 32;

/// The length of the name at the front, or `None` if it is longer than 32 bytes.
#[tactic(auto, using(crate::proofs::ByteRuns::name_step, crate::proofs::ByteRuns::name_stop, crate::proofs::ByteRuns::name_long))]
pub fn name_len(text: &[u8]) -> Option<usize>
    requires { 0 < length text.now }
    ensures low { IfSome result (λ n. 0 < n) }
    ensures high { IfSome result (λ n. n ≤ length text.now) }
    ensures run { IfSome result (λ n. (start at : ℕ) → scan_from (name start (take 1 text.now)) (at + 1) (drop 1 text.now) ≡ scan_from (name start (take n text.now)) (at + n) (drop n text.now)) }
    ensures stops { IfSome result (λ n. EndsName (drop n text.now)) }
    ensures long { IfNone result ((start at : ℕ) → scan_from (name start (take 1 text.now)) (at + 1) (drop 1 text.now) ≡ wrong (lex_errors.Byte (at + 32))) }
    ensures long_len { IfNone result (32 < length text.now) }
{
    let mut n = 1;
    while n < text.len() && is_name_byte(text[n]) {
        if n == NAME_LIMIT {
            return None;
        }
        n += 1;
    }
    Some(n)
}

/// Whether all four bytes are digits: with `&`, there is no branch for each byte.
fn are_digits(a: u8, b: u8, c: u8, d: u8) -> bool
    ensures { result ≡ (is_digit a && (is_digit b && (is_digit c && is_digit d))) }
{
    is_digit(a) & (is_digit(b) & (is_digit(c) & is_digit(d)))
}

/// The length of the number at the front. Its bytes are read four at a time, since there may be a million.
#[tactic(auto, using(crate::proofs::ByteRuns::number_four, crate::proofs::ByteRuns::number_step, crate::proofs::ByteRuns::number_stop))]
pub fn number_len(text: &[u8]) -> usize
    requires { 0 < length text.now }
    ensures low { 0 < result }
    ensures high { result ≤ length text.now }
    ensures run { (start at : ℕ) → scan_from (number start (take 1 text.now)) (at + 1) (drop 1 text.now) ≡ scan_from (number start (take result text.now)) (at + result) (drop result text.now) }
    ensures stops { EndsNumber (drop result text.now) }
{
    let mut n = 1;
    while n + 4 <= text.len() && are_digits(text[n], text[n + 1], text[n + 2], text[n + 3]) {
        n += 4;
    }
    while n < text.len() && is_digit(text[n]) {
        n += 1;
    }
    n
}

/// Whether the number that digits spell is below 2^64.
#[tactic(auto, using(crate::proofs::ByteRuns::numeral_grows, crate::proofs::ByteRuns::numeral_step))]
pub fn fits(text: &[u8]) -> bool
    ensures { result ≡ nat_lt (numeral 0 text.now) (2 ^ 64) }
{
    let mut n: u64 = 0;
    for d in text {
        let Some(tens) = n.checked_mul(10) else {
            return false;
        };
        let Some(more) = tens.checked_add(u64::from(d.saturating_sub(b'0'))) else {
            return false;
        };
        n = more;
    }
    true
}

/// The number that digits spell.
#[tactic(auto, using(crate::proofs::ByteRuns::numeral_grows, crate::proofs::ByteRuns::numeral_step))]
pub fn number_of(text: &[u8]) -> u64
    requires { numeral 0 text.now < 2 ^ 64 }
    ensures { result ≡ numeral 0 text.now }
{
    let mut n: u64 = 0;
    for d in text {
        n = n * 10 + u64::from(d.saturating_sub(b'0'));
    }
    n
}
