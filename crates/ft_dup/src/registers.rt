//! The two registers of a pair.
ghost use Rattle.std.specs.Prelude.{◌≡◌, ◌<◌};
ghost use Rattle.ft_dup.specs.Images.{blue, green};

use ft_isa::Reg;

/// The green register of a pair below 32.
pub fn green_register(pair: u8) -> Reg
    requires { pair < 32 }
    ensures { result ≡ green pair }
{
    Reg::new(pair).unwrap()
}

/// The blue register of a pair below 32.
pub fn blue_register(pair: u8) -> Reg
    requires { pair < 32 }
    ensures { result ≡ blue pair }
{
    Reg::new(32 + pair).unwrap()
}
