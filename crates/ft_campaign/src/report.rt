//! Verdicts and totals as text.
ghost use Rattle.std.specs.Prelude.{◌≡◌, length};
ghost use Rattle.ft_edge.specs.Lines.{Puts, end_of_puts};
ghost use Rattle.ft_campaign.specs.Texts.{verdict_lines, campaign_lines, totals_of};

use crate::lines::{end_line, verdict_line};
use crate::totals::Totals;
use crate::verdict::Verdict;
use ft_edge::{Failed, Sink, put_line};
use ft_isa::Strike;

/// Writes a line for each fault and its verdict.
fn put_verdicts<K: Sink>(faults: &[Strike], verdicts: &[Verdict], out: &mut K) -> Result<(), Failed>
    requires { length verdicts.now ≡ length faults.now }
    ensures { Puts (end_of_puts result) (verdict_lines faults.now verdicts.now) (K.log out.old) (K.log out.new) }
{
    for (i, fault) in faults.iter().enumerate() {
        let verdict = verdicts[i];
        let line = verdict_line(*fault, verdict);
        put_line(line.as_bytes(), out)?;
    }
    Ok(())
}

/// Writes a line for each fault and its verdict, and then a line of totals.
pub(crate) fn report<K: Sink>(
    faults: &[Strike],
    verdicts: &[Verdict],
    totals: Totals,
    out: &mut K,
) -> Result<(), Failed>
    requires long { length verdicts.now ≡ length faults.now }
    requires totals { totals ≡ totals_of verdicts.now }
    ensures { Puts (end_of_puts result) (campaign_lines faults.now verdicts.now) (K.log out.old) (K.log out.new) }
{
    put_verdicts(faults, verdicts, out)?;
    put_line(end_line(faults.len(), totals).as_bytes(), out)
}
