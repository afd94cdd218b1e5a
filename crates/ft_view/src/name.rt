//! Names of cells, one after the other.
ghost use Rattle.std.specs.Prelude.{◌≡◌, ◌+◌, ◌≤◌, ◌^◌, length};
ghost use Rattle.ft_types.specs.Spellable.{is_letter, is_digit, is_bracket, is_name_byte};
ghost use Rattle.ft_view.specs.Found.{Finds};
ghost use Rattle.ft_format.specs.Versions.{may_follow};
ghost use Rattle.ft_format.specs.Broken.{name_rest_broken, name_bytes_broken};

use crate::rules::check;
use ft_format::{ObjectError, Version};

fn is_letter(b: u8) -> bool
    ensures { result ≡ is_letter b }
{
    b.is_ascii_alphabetic() || b == b'_'
}

fn is_digit(b: u8) -> bool
    ensures { result ≡ is_digit b }
{
    b.is_ascii_digit()
}

fn is_bracket(b: u8) -> bool
    ensures { result ≡ is_bracket b }
{
    b == b'[' || b == b']'
}

fn is_name_byte(b: u8) -> bool
    ensures { result ≡ is_name_byte b }
{
    is_letter(b) || is_digit(b) || is_bracket(b)
}

/// Whether a byte is allowed in a name after its first.
fn may_follow(version: Version, b: u8) -> bool
    ensures { result ≡ may_follow version b }
{
    match version {
        Version::First => is_letter(b) || is_digit(b),
        Version::Second => is_name_byte(b),
    }
}

/// Checks the bytes of a name after its first.
fn check_name_rest(version: Version, at: usize, bytes: &[u8]) -> Result<(), ObjectError>
    requires { at + length bytes.now ≤ 2 ^ 27 }
    ensures { Finds result (name_rest_broken version at bytes.now) }
{
    let mut place = at;
    for b in bytes {
        check(may_follow(version, *b), ObjectError::Name { at: place })?;
        place += 1;
    }
    Ok(())
}

/// Checks the bytes of a name that begins at a place: `Name` for a byte that is not allowed there.
#[tactic(auto, unfolding(ft_format::specs::Broken::name_bytes_broken))]
pub fn check_name_bytes(version: Version, at: usize, name: &[u8]) -> Result<(), ObjectError>
    requires { at + length name.now ≤ 2 ^ 27 }
    ensures { Finds result (name_bytes_broken version at name.now) }
{
    match name {
        [first, rest @ ..] => {
            check(is_letter(*first), ObjectError::Name { at })?;
            check_name_rest(version, at + 1, rest)
        }
        [] => Ok(()),
    }
}
