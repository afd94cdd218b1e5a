//! General registers.
ghost use Rattle.std.specs.Prelude.{◌≡◌, ◌<◌};

/// One of the 64 general registers, `r0` to `r63`.
#[derive(Clone, Copy, Debug, PartialEq, Eq)]
pub struct Reg {
    number: u8,
    ghost in_range: { number < 64 },
}

impl Reg {
    ghost use Rattle.ft_isa.specs.Registers.{reg_of};

    /// The register with this number; `None` exactly when the number is 64 or more.
    pub fn new(n: u8) -> Option<Reg>
        ensures { result ≡ reg_of n }
    {
        if n < 64 {
            Some(Reg { number: n })
        } else {
            None
        }
    }

    /// The register with this number, which is below 64.
    pub fn below(n: u8) -> Reg
        requires { n < 64 }
        ensures { result.number ≡ n }
    {
        Reg { number: n }
    }

    /// The register's number, below 64.
    pub fn number(&self) -> u8
        ensures same { result ≡ self.now.number }
        ensures in_range { result < 64 }
    {
        self.number
    }
}
