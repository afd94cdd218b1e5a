//! Decodes the fields that several kinds of records share.
ghost use Rattle.std.specs.Prelude.{◌≡◌, ◌<◌, ◌/◌, ◌%◌, ◌^◌};
ghost use Rattle.ft_format.specs.Codes.{register_of, colour_of, base_of, basic_type_of};

use ft_isa::{Base, Basic, Colour, Reg};

/// The register with this number.
pub(crate) fn register(number: u8) -> Reg
    requires { number < 64 }
    ensures { result ≡ register_of number }
{
    Reg::below(number)
}

/// The colour with this code; any code except 0 is blue.
pub(crate) fn colour(code: u8) -> Colour
    ensures { result ≡ colour_of code }
{
    match code {
        0 => Colour::Green,
        _ => Colour::Blue,
    }
}

/// The base with this code; any code except 0 means `code`.
fn base(code: u8, code_type: u16) -> Base
    ensures { result ≡ base_of code code_type }
{
    if code == 0 {
        Base::Int
    } else {
        Base::Code(code_type)
    }
}

/// The basic type that these numbers encode.
pub(crate) fn basic(refs: u8, code: u8, code_type: u16) -> Basic
    ensures { result ≡ basic_type_of refs code code_type }
{
    let base = base(code, code_type);
    Basic { refs, base }
}

/// The numbers of the basic type that x spells: refs, base and code type.
pub(crate) fn basic_numbers(x: u32) -> (u8, u8, u16)
    ensures refs { result.0 ≡ x / 2 ^ 24 }
    ensures base { result.1 ≡ x / 2 ^ 16 % 2 ^ 8 }
    ensures code_type { result.2 ≡ x % 2 ^ 16 }
{
    let refs = (x >> 24) as u8;
    let base = ((x >> 16) & 0xff) as u8;
    let code_type = (x & 0xffff) as u16;
    (refs, base, code_type)
}

/// The basic type that x spells.
pub(crate) fn basic_of_number(x: u32) -> Basic
    ensures { result ≡ basic_type_of (x / 2 ^ 24) (x / 2 ^ 16 % 2 ^ 8) (x % 2 ^ 16) }
{
    let (refs, base, code_type) = basic_numbers(x);
    basic(refs, base, code_type)
}
