//! The rules of the header.
ghost use Rattle.std.specs.Prelude.{◌≡◌};
ghost use Rattle.ft_format.specs.Rules.{header_broken};
ghost use Rattle.ft_format.specs.Versions.{is_magic};
ghost use Rattle.ft_view.specs.Found.{Finds};

use crate::rules::{check, check_count, check_some};
use ft_format::{Header, ObjectError, Version};

/// Whether a magic number is that of a version.
fn is_magic(magic: u64) -> bool
    ensures { result ≡ is_magic magic }
{
    magic == Version::First.magic() || magic == Version::Second.magic()
}

/// Checks the header: `Magic`, then `Count` for each count in order, then `Entry`.
pub fn check_header(header: Header) -> Result<(), ObjectError>
    ensures { Finds result (header_broken header) }
{
    check(is_magic(header.magic), ObjectError::Magic { at: 0 })?;
    check_count(1024, 8, header.cells)?;
    check_count(1048576, 12, header.nodes)?;
    check_some(4096, 16, header.types)?;
    check_count(262144, 20, header.regs)?;
    check_count(32768, 24, header.queue)?;
    check_some(65536, 28, header.blocks)?;
    check_some(65536, 32, header.instrs)?;
    check_count(1048576, 36, header.substs)?;
    check_count(header.version().most_name_bytes(), 40, header.names)?;
    check(header.entry < header.blocks, ObjectError::Entry { at: 44 })
}
