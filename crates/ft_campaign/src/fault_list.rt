//! The text of a fault list.
ghost use Rattle.std.specs.Prelude.{◌≡◌, ◌≢◌, ◌≤◌, ◌⊎◌, List, length, IfOk, IfErr, MatchResult};
ghost use Rattle.ft_isa.specs.declared.plan.Strike.{Strike as Fault};
ghost use Rattle.ft_campaign.specs.FaultList.{IsFaultList, IsListError};

use ft_isa::{Strike, read_strike};
use ft_text::read_line;
use std::alloc::Global;
use thiserror::Error;

/// Why a text is not a fault list.
#[derive(Clone, Copy, Debug, PartialEq, Eq, Error)]
pub enum ListError {
    /// The line with this number, counted from 1, is not a strike.
    #[error("line {number} is not a strike")]
    Line { number: u32 },
    /// The text has more than 4,194,304 bytes or more than 65,536 lines.
    #[error("too many faults")]
    TooMany,
    /// Memory ran out.
    #[error("out of memory")]
    NoMemory,
}

/// The maximum size of a fault list in bytes.
const BYTE_LIMIT: usize = 4_194_304;

/// The maximum number of lines of a fault list.
const LINE_LIMIT: usize = 65_536;

/// Reads the lines of a text of at most `BYTE_LIMIT` bytes.
fn read_lines(alloc: Global, bytes: &[u8]) -> Result<Vec<Strike>, ListError>
    requires { length bytes.now ≤ BYTE_LIMIT }
    ensures ok { IfOk result (λ faults. IsFaultList bytes.now faults.items) }
    ensures err { IfErr result (IsListError bytes.now) }
{
    let mut faults = Vec::new(alloc);
    let mut rest = bytes;
    while let Some((line, after)) = read_line(rest) {
        if faults.len() == LINE_LIMIT {
            return Err(ListError::TooMany);
        }
        let Ok(strike) = read_strike(line) else {
            return Err(ListError::Line {
                number: faults.len() as u32 + 1,
            });
        };
        faults.push(strike).map_err(|_| ListError::NoMemory)?;
        rest = after;
    }
    Ok(faults)
}

/// Reads a fault list: a text of lines, each a strike, `K:SITE:V`, that ends in a line feed; the last line may end
/// without one. The empty text is the empty list. Refuses with `TooMany` if there are more than 4,194,304 bytes;
/// otherwise with `Line` at the first of the first 65,536 lines that is not a strike; otherwise with `TooMany` if there
/// are more lines.
pub fn read_faults(alloc: Global, bytes: &[u8]) -> Result<Vec<Strike>, ListError>
    ensures ok { IfOk result (λ faults. IsFaultList bytes.now faults.items) }
    ensures err { IfErr result (IsListError bytes.now) }

    // A fault list is read as its faults; any other text gives its refusal.
    ensures exact { (faults : List Fault) → IsFaultList bytes.now faults → MatchResult result (λ read. read.items ≡ faults) (λ e. e ≡ ListError.NoMemory) }
    ensures exact_err { (error : ListError) → error ≢ ListError.NoMemory → IsListError bytes.now error → MatchResult result (λ read. ⊥) (λ e. (e ≡ error) ⊎ (e ≡ ListError.NoMemory)) }
{
    if bytes.len() > BYTE_LIMIT {
        return Err(ListError::TooMany);
    }
    read_lines(alloc, bytes)
}
