//! What is returned for the bytes of an object.
ghost use Rattle.std.specs.Prelude.{◌≡◌};
ghost use Rattle.ft_embed.specs.Verdicts.{nothing as nothing_told};

use crate::refused::{Refused, nothing};

/// A status, and why the bytes are refused, if they are. After a check the status is 0 for an accepted object, 5 if
/// memory ran out, 7 for bytes that spell no object, and 8 for an object that is not accepted.
#[derive(Clone, Copy)]
pub struct Verdict {
    pub status: u32,
    pub why: Refused,
}

/// A verdict that has this status and refuses nothing.
pub fn unrefused(status: u32) -> Verdict
    ensures status { result.status ≡ status }
    ensures unrefused { result.why ≡ nothing_told }
{
    Verdict {
        status,
        why: nothing(),
    }
}
