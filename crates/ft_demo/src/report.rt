//! The lines of a demonstration.
ghost use Rattle.std.specs.Prelude.{◌≡◌, ◌∷◌, []};
ghost use Rattle.ft_edge.specs.Lines.{Puts, end_of_puts};
ghost use Rattle.ft_campaign.specs.Texts.{end_line as campaign_line};
ghost use Rattle.ft_demo.specs.Demonstrations.{outputs_line};

use crate::tally::Tally;
use ft_campaign::{Totals, end_line};
use ft_edge::{Failed, Sink, put_line};
use ft_text::Line;

/// The line of the outputs.
fn outputs_line(tally: Tally) -> Line
    ensures { result ≡ outputs_line tally.count tally.last }
{
    let mut line = Line::new();
    line.piece(b"outputs ");
    line.number(tally.count);
    line.piece(b" last ");
    line.number(tally.last);
    line.piece(b"\n");
    line
}

/// Writes the line of the outputs and the line of the totals of the 64 faults.
pub(crate) fn put_lines<K: Sink>(tally: Tally, totals: Totals, out: &mut K) -> Result<(), Failed>
    ensures { Puts (end_of_puts result) (outputs_line tally.count tally.last ∷ campaign_line 64 totals ∷ []) (K.log out.old) (K.log out.new) }
{
    put_line(outputs_line(tally).as_bytes(), out)?;
    put_line(end_line(64, totals).as_bytes(), out)
}
