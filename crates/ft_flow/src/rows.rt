//! The lines of a text that say something, one by one.
ghost use Rattle.std.specs.Prelude.{◌≡◌, ◌≤◌, ◌<◌, ◌+◌, ◌^◌, [], ◌∷◌, length, IfSome, MatchOption};
ghost use Rattle.ft_text.specs.Lines.{lines_of};
ghost use Rattle.ft_flow.specs.LineWords.{line_words};
ghost use Rattle.ft_flow.specs.Heads.{said};
ghost use Rattle.ft_flow.specs.RowsAt.{row_at, rows_after};

use crate::words::next_word;
use ft_text::read_line;

/// A line that says something, the number of the next line, and the text from it on.
#[derive(Clone, Copy)]
pub(crate) struct Row<'t> {
    pub number: u32,
    pub line: &'t [u8],
    pub next: u32,
    pub rest: &'t [u8],
}

/// The first line of a text that says something, if the text begins with the line of this number.
pub(crate) fn next_row(number: u32, text: &[u8]) -> Option<Row<'_>>
    requires { number + length text.now < 2 ^ 32 }
    ensures rows { MatchOption result (said number (lines_of text.now) ≡ [])
        (λ r. said number (lines_of text.now) ≡ row_at r ∷ rows_after r) }
    ensures room { IfSome result (λ r. r.next + length r.rest.now ≤ number + length text.now) }
    ensures later { IfSome result (λ r. number < r.next) }
    ensures shorter { IfSome result (λ r. length r.rest.now < length text.now) }
{
    let mut at = number;
    let mut left = text;
    while let Some((line, rest)) = read_line(left) {
        if next_word(line).is_some() {
            let next = at + 1;
            return Some(Row {
                number: at,
                line,
                next,
                rest,
            });
        }
        at += 1;
        left = rest;
    }
    None
}
