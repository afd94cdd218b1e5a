//! Writes bytes into the caller's buffer.
ghost use Rattle.std.specs.Prelude.{◌≡◌, ◌≢◌, ◌⊎◌};
ghost use Rattle.ft_embed.specs.Texts.{HandsOver};
ghost use Rattle.ft_embed.specs.Verdicts.{nothing as nothing_told};

use crate::refused::{Refused, nothing};
use crate::verdict::Verdict;

/// The result of writing bytes: a status, the number of bytes that were written or do not fit, and why none were
/// written, if something is refused.
#[derive(Clone, Copy)]
pub struct Written {
    pub status: u32,
    pub made: usize,
    pub why: Refused,
}

/// Writes bytes into a buffer, if they fit, and returns their number.
#[tactic(auto, using(crate::proofs::Judged::handed, crate::proofs::Judged::not_handed))]
pub(crate) fn hand_over(bytes: &[u8], out: &mut [u8]) -> Written
    ensures handed { HandsOver bytes.now out.old out.new result.made result.status }
    ensures kept { result.status ≢ 0 → out.new ≡ out.old }
    ensures some { (result.status ≡ 0) ⊎ (result.status ≡ 15) }
    ensures unrefused { result.why ≡ nothing_told }
{
    let made = bytes.len();
    if made > out.len() {
        return Written {
            status: 15,
            made,
            why: nothing(),
        };
    }
    out[..made].copy_from_slice(bytes);
    Written {
        status: 0,
        made,
        why: nothing(),
    }
}

/// The result if nothing is written, with the reason.
pub(crate) fn not_written(status: u32, why: Refused) -> Written
    ensures { result ≡ record { status = status; made = 0; why = why } }
{
    Written {
        status,
        made: 0,
        why,
    }
}

/// The result if nothing is written because memory ran out or there is nothing to write.
pub(crate) fn none_written(status: u32) -> Written
    ensures { result ≡ record { status = status; made = 0; why = nothing_told } }
{
    not_written(status, nothing())
}

/// The result if nothing is written because an object is refused.
pub(crate) fn none_accepted(verdict: Verdict) -> Written
    ensures { result ≡ record { status = verdict.status; made = 0; why = verdict.why } }
{
    not_written(verdict.status, verdict.why)
}
