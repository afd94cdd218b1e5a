//! The script of a command.
ghost use Rattle.std.specs.Prelude.{◌≡◌};
ghost use Rattle.ft_edge.specs.Streams.{TakesAtMost};
ghost use Rattle.ft_tool.specs.Known.{ForScript};
ghost use Rattle.ft_tool.specs.Scripts.{TakesScript, TakeCause};

use ft_edge::Source;
use std::alloc::Global;
use thiserror::Error;

/// The maximum size of a script in bytes.
const SCRIPT_LIMIT: usize = 1_048_576;

/// The maximum size of one take in bytes.
const PIECE: usize = 4096;

/// Why there is no script.
#[derive(Clone, Copy, Debug, PartialEq, Eq, Error)]
pub(crate) enum ScriptFault {
    /// The script has more than 1,048,576 bytes.
    #[error("the script is too long")]
    TooLong,
    /// The script could not be read.
    #[error("the script could not be read")]
    Failed,
    /// Memory ran out.
    #[error("out of memory")]
    NoMemory,
}

/// Reads the script to its end, or to one byte past the limit. It is not read after its end, nor after a failed take.
pub(crate) fn take_script<I: Source>(alloc: Global, script: &mut I) -> Result<Vec<u8>, ScriptFault>
    ensures takes { ForScript (I.log script.old).left (I.heard script.old) (I.heard script.new) (I.may_be_left script.new) (λ left. TakesScript (λ v. v.items) left result) }
    ensures cause { TakeCause (I.log script.old).failures (I.log script.new).failures result }
    ensures taken { TakesAtMost 1048577 (I.log script.old) (I.log script.new) }
{
    let mut text = Vec::new(alloc);
    let mut piece = [0u8; PIECE];
    while text.len() <= SCRIPT_LIMIT {
        let room = (SCRIPT_LIMIT - text.len()).min(PIECE - 1) + 1;
        let count = match script.take(&mut piece[..room]) {
            Ok(count) => count,
            Err(_) => return Err(ScriptFault::Failed),
        };
        if count == 0 {
            return Ok(text);
        }
        if text.extend_from_slice(&piece[..count]).is_err() {
            return Err(ScriptFault::NoMemory);
        }
    }
    Err(ScriptFault::TooLong)
}
