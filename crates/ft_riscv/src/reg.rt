//! General registers.
ghost use Rattle.std.specs.Prelude.{◌≡◌, ◌<◌};

/// One of the registers `x0` to `x31`; `x0` always reads as 0.
#[derive(Clone, Copy, Debug, PartialEq, Eq)]
pub struct Reg {
    number: u8,
    ghost in_range: { number < 32 },
}

impl Reg {
    ghost use Rattle.ft_riscv.specs.Fields.{reg_of};

    /// The register whose number is this one modulo 32.
    pub fn of_bits(bits: u32) -> Reg
        ensures { result ≡ reg_of bits }
    {
        Reg {
            number: (bits % 32) as u8,
        }
    }

    /// The register's number, below 32.
    pub fn number(&self) -> u8
        ensures same { result ≡ self.now.number }
        ensures in_range { result < 32 }
    {
        self.number
    }
}
