//! Changes the initial word of a cell in place.
ghost use Rattle.std.specs.Prelude.{◌≡◌, ◌≢◌, ◌≤◌, ◌+◌, ◌*◌, ◌++◌, length, take, drop, slice_get, Some, true, false};
ghost use Rattle.ft_isa.specs.BasicTypes.{int};
ghost use Rattle.ft_types.specs.Spellable.{IsSpellable};
ghost use Rattle.ft_format.specs.Layout.{bytes_of};
ghost use Rattle.std.specs.Int.{w64};
ghost use Rattle.ft_embed.specs.Cells.{HasIntCell, HasNoCell, HasOtherCell, IsSet};
ghost use Rattle.ft_embed.specs.Texts.{IsMalformed};
ghost use Rattle.ft_embed.specs.Verdicts.{nothing as nothing_told};

use crate::refused::told_error;
use crate::verdict::{Verdict, unrefused};
use ft_isa::{Base, Basic};
use ft_types::Program;
use ft_view::View;

/// Whether a basic type is `int`.
fn is_int(basic: Basic) -> bool
    ensures yes { result ≡ true → basic ≡ int }
    ensures no { result ≡ false → basic ≢ int }
{
    match basic.base {
        Base::Int => basic.refs == 0,
        Base::Code(_) => false,
    }
}

/// Looks up a cell of the object that bytes spell, and tests whether it is of type `int`. The status is 0 if it is; 7
/// for bytes that spell no object; 16 if there is no such cell; or 19 if the cell is of another type.
fn find_int_cell(bytes: &[u8], cell: u32) -> Verdict
    ensures found { result.status ≡ 0 → HasIntCell bytes.now cell }
    ensures malformed { result.status ≡ 7 → IsMalformed bytes.now result.why }
    ensures none { result.status ≡ 16 → HasNoCell bytes.now cell }
    ensures other { result.status ≡ 19 → HasOtherCell bytes.now cell }
    ensures status { result.status ≢ 7 → result.status ≢ 16 → result.status ≢ 19 → result.status ≡ 0 }
    ensures unrefused { result.status ≢ 7 → result.why ≡ nothing_told }
{
    let view = match View::over(bytes) {
        Ok(view) => view,
        Err(error) => {
            return Verdict {
                status: 7,
                why: told_error(error),
            };
        }
    };
    if cell >= view.counts().cells {
        return unrefused(16);
    }
    let head = view.cell(cell);
    if !is_int(head.basic) {
        return unrefused(19);
    }
    unrefused(0)
}

/// Writes a word at a place.
fn put_word(bytes: &mut [u8], at: usize, word: u64)
    requires { at + 8 ≤ length bytes.old }
    ensures { bytes.new ≡ take at bytes.old ++ (bytes_of w64 word ++ drop (at + 8) bytes.old) }
{
    bytes[at..at + 8].copy_from_slice(&word.to_be_bytes());
}

/// Changes bytes so that they spell the same object with this initial word in a cell, which must be of type `int`. The
/// object is accepted if and only if it was accepted before. If the old object stands for a program, as one that was
/// compiled does, the new one stands for the program with this initial word. The status is 0 on success; 7 for bytes
/// that spell no object; 16 if there is no such cell; or 19 if the cell is of another type. Unless the status is 0, the
/// bytes are unchanged.
pub fn set_cell(bytes: &mut [u8], cell: u32, word: u64) -> Verdict
    ensures set { result.status ≢ 7 → result.status ≢ 16 → result.status ≢ 19 → IsSet bytes.old bytes.new cell word }
    ensures status { result.status ≢ 7 → result.status ≢ 16 → result.status ≢ 19 → result.status ≡ 0 }
    ensures malformed { result.status ≡ 7 → IsMalformed bytes.old result.why }
    ensures none { result.status ≡ 16 → HasNoCell bytes.old cell }
    ensures other { result.status ≡ 19 → HasOtherCell bytes.old cell }
    ensures kept { result.status ≢ 0 → bytes.new ≡ bytes.old }
    ensures unrefused { result.status ≢ 7 → result.why ≡ nothing_told }
{
    let found = find_int_cell(bytes, cell);
    if found.status == 0 {
        // The initial word is in the second half of a cell's record.
        put_word(bytes, 56 + 16 * cell as usize, word);
    }
    found
}
