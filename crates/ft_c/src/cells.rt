//! Changes a cell of an object in the caller's memory.
ghost use Rattle.std.specs.Prelude.{◌≡◌, ◌≢◌};
ghost use Rattle.ft_embed.specs.Cells.{HasNoCell, HasOtherCell, IsSet};
ghost use Rattle.ft_embed.specs.Texts.{IsMalformed};
ghost use Rattle.ft_embed.specs.Verdicts.{nothing};

use ft_embed::{Refused, set_cell};

/// Changes the bytes of an object so that they spell the same object with this initial word in a cell, which must be of
/// type `int`. The object is accepted if and only if it was accepted before. If the old object stands for a program, as
/// one that was compiled does, the new one stands for the program with this initial word. Returns 0 on success; 7 for
/// bytes that spell no object; 16 if there is no such cell; or 19 if the cell is of another type. Unless it returns 0,
/// the bytes are unchanged.
#[unsafe(no_mangle)]
pub extern "C" fn talft_set_cell(bytes: &mut [u8], cell: u32, word: u64, why: &mut Refused) -> u32
    ensures set { result ≢ 7 → result ≢ 16 → result ≢ 19 → IsSet bytes.old bytes.new cell word }
    ensures status { result ≢ 7 → result ≢ 16 → result ≢ 19 → result ≡ 0 }
    ensures malformed { result ≡ 7 → IsMalformed bytes.old why.new }
    ensures none { result ≡ 16 → HasNoCell bytes.old cell }
    ensures other { result ≡ 19 → HasOtherCell bytes.old cell }
    ensures kept { result ≢ 0 → bytes.new ≡ bytes.old }
    ensures unrefused { result ≢ 7 → why.new ≡ nothing }
{
    let verdict = set_cell(bytes, cell, word);
    *why = verdict.why;
    verdict.status
}
