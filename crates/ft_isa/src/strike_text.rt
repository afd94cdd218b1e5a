//! The text of a strike.
ghost use Rattle.std.specs.Prelude.{◌≡◌, IfOk, IfErr, Ok};
ghost use Rattle.ft_isa.specs.Reading.{next_strike, whole_strike};
ghost use Rattle.ft_isa.specs.PlanText.{IsStrikeText, IsRefusedAt};

use crate::number_text::with_digit;
use crate::plan::{Site, Strike};
use crate::site_text::SiteRead;
use thiserror::Error;

/// The text is not a strike.
#[derive(Clone, Copy, Debug, PartialEq, Eq, Error)]
#[error("invalid strike at byte {at}")]
pub struct Form {
    /// The length of the longest prefix of the text that is a prefix of some strike's text.
    pub at: usize,
}

/// How far a strike has been read: the part that is being read, and what was read before it.
#[derive(Clone, Copy)]
enum StrikeRead {
    AtStep(Option<u64>),
    AtSite {
        step: u64,
        site: SiteRead,
    },
    AtValue {
        step: u64,
        site: Site,
        value: Option<u64>,
    },
}

impl StrikeRead {
    /// The strike after one more byte; `None` if no strike's text begins like this.
    fn next(self, byte: u8) -> Option<StrikeRead>
        ensures { result ≡ next_strike self byte }
    {
        match (self, byte) {
            (StrikeRead::AtStep(number), b':') => {
                let step = number?;
                Some(StrikeRead::AtSite {
                    step,
                    site: SiteRead::Empty,
                })
            }
            (StrikeRead::AtStep(number), _) => {
                let step = with_digit(number, byte)?;
                Some(StrikeRead::AtStep(Some(step)))
            }
            (StrikeRead::AtSite { step, site }, b':') => {
                let site = site.whole()?;
                Some(StrikeRead::AtValue {
                    step,
                    site,
                    value: None,
                })
            }
            (StrikeRead::AtSite { step, site }, _) => {
                let site = site.next(byte)?;
                Some(StrikeRead::AtSite { step, site })
            }
            (StrikeRead::AtValue { step, site, value }, _) => {
                let value = Some(with_digit(value, byte)?);
                Some(StrikeRead::AtValue { step, site, value })
            }
        }
    }

    /// The strike, if its text was read completely.
    fn whole(self) -> Option<Strike>
        ensures { result ≡ whole_strike self }
    {
        match self {
            StrikeRead::AtValue { step, site, value } => {
                let value = value?;
                Some(Strike { step, site, value })
            }
            _ => None,
        }
    }
}

/// Reads the text of a strike, `K:SITE:V`. K, the step, and V, the value, are number texts: `0`, or a
/// digit from 1 to 9 followed by digits, with a value below 2^64. SITE is `r0` to `r63`, `d`, `pcg`,
/// `pcb`, `qa0` to `qa7` or `qv0` to `qv7`. Any other text is refused as `Form`.
pub fn read_strike(text: &[u8]) -> Result<Strike, Form>
    ensures ok { IfOk result (IsStrikeText text.now) }
    ensures exact { (strike : Strike) → IsStrikeText text.now strike → result ≡ Ok strike }
    ensures err { IfErr result (λ form. IsRefusedAt IsStrikeText text.now form.at) }
{
    let mut read = StrikeRead::AtStep(None);
    for (at, byte) in text.iter().enumerate() {
        let Some(next) = read.next(*byte) else {
            return Err(Form { at });
        };
        read = next;
    }
    read.whole().ok_or(Form { at: text.len() })
}
