//! The lines of a campaign.
ghost use Rattle.std.specs.Prelude.{◌≡◌, ◌≤◌, ◌+◌, ◌++◌, length};
ghost use Rattle.ft_isa.specs.PlanText.{site_text, strike_text};
ghost use Rattle.ft_campaign.specs.Texts.{verdict_text, verdict_line, end_line};

use crate::totals::Totals;
use crate::verdict::Verdict;
use ft_isa::{Site, Strike};
use ft_text::Line;

/// Adds the text of a site: at most 23 bytes.
fn add_site(line: &mut Line, site: Site)
    requires { length line.old ≤ 100 }
    ensures added { line.new ≡ line.old ++ site_text site }
    ensures length { length line.new ≤ length line.old + 23 }
{
    match site {
        Site::R(reg) => {
            line.piece(b"r");
            line.number(reg.number() as u64);
        }
        Site::D => line.piece(b"d"),
        Site::PcG => line.piece(b"pcg"),
        Site::PcB => line.piece(b"pcb"),
        Site::QAddr(place) => {
            line.piece(b"qa");
            line.number(place as u64);
        }
        Site::QVal(place) => {
            line.piece(b"qv");
            line.number(place as u64);
        }
    }
}

/// Adds the text of a verdict: at most 30 bytes.
fn add_verdict(line: &mut Line, verdict: Verdict)
    requires { length line.old ≤ 100 }
    ensures added { line.new ≡ line.old ++ verdict_text verdict }
    ensures length { length line.new ≤ length line.old + 30 }
{
    match verdict {
        Verdict::Idle => line.piece(b"idle"),
        Verdict::Masked => line.piece(b"masked"),
        Verdict::Detected { at } => {
            line.piece(b"detected ");
            line.number(at);
        }
        Verdict::Corrupt => line.piece(b"corrupt"),
    }
}

/// The line of a fault's verdict.
pub(crate) fn verdict_line(strike: Strike, verdict: Verdict) -> Line
    ensures { result ≡ verdict_line strike verdict }
{
    let mut line = Line::new();
    line.number(strike.step);
    line.piece(b":");
    add_site(&mut line, strike.site);
    line.piece(b":");
    line.number(strike.value);
    line.piece(b" ");
    add_verdict(&mut line, verdict);
    line.piece(b"\n");
    line
}

/// A campaign's last line.
pub fn end_line(faults: usize, totals: Totals) -> Line
    ensures { result ≡ end_line faults totals }
{
    let mut line = Line::new();
    line.piece(b"faults ");
    line.number(faults as u64);
    line.piece(b" masked ");
    line.number(totals.masked as u64);
    line.piece(b" detected ");
    line.number(totals.detected as u64);
    line.piece(b" idle ");
    line.number(totals.idle as u64);
    line.piece(b" corrupt ");
    line.number(totals.corrupt as u64);
    line.piece(b"\n");
    line
}
