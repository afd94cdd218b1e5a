//! The text of a site.
ghost use Rattle.std.specs.Prelude.{◌≡◌, Some, IfSome};
ghost use Rattle.ft_isa.specs.Reading.{with_register_digit, next_site, whole_site};
ghost use Rattle.ft_isa.specs.PlanText.{IsSiteText};

use crate::number_text::with_digit;
use crate::plan::Site;
use crate::reg::Reg;

/// What has been read of a site: its first letters, or all of it. A register's number may still continue.
#[derive(Clone, Copy)]
pub(crate) enum SiteRead {
    Empty,
    P,
    Pc,
    Q,
    Qa,
    Qv,
    R,
    Whole(Site),
}

/// A register's number with one more digit; `None` if no register's number begins like this.
fn with_register_digit(number: Option<u8>, byte: u8) -> Option<SiteRead>
    ensures { result ≡ with_register_digit number byte }
{
    let number = with_digit(number.map(u64::from), byte)?;
    let reg = Reg::new(u8::try_from(number).ok()?)?;
    Some(SiteRead::Whole(Site::R(reg)))
}

impl SiteRead {
    /// The site after one more byte; `None` if no site's text begins like this.
    pub(crate) fn next(self, byte: u8) -> Option<SiteRead>
        ensures { result ≡ next_site self byte }
    {
        match (self, byte) {
            (SiteRead::Empty, b'd') => Some(SiteRead::Whole(Site::D)),
            (SiteRead::Empty, b'p') => Some(SiteRead::P),
            (SiteRead::Empty, b'q') => Some(SiteRead::Q),
            (SiteRead::Empty, b'r') => Some(SiteRead::R),
            (SiteRead::P, b'c') => Some(SiteRead::Pc),
            (SiteRead::Pc, b'g') => Some(SiteRead::Whole(Site::PcG)),
            (SiteRead::Pc, b'b') => Some(SiteRead::Whole(Site::PcB)),
            (SiteRead::Q, b'a') => Some(SiteRead::Qa),
            (SiteRead::Q, b'v') => Some(SiteRead::Qv),
            (SiteRead::Qa, b'0'..=b'7') => Some(SiteRead::Whole(Site::QAddr(byte - b'0'))),
            (SiteRead::Qv, b'0'..=b'7') => Some(SiteRead::Whole(Site::QVal(byte - b'0'))),
            (SiteRead::R, _) => with_register_digit(None, byte),
            (SiteRead::Whole(Site::R(reg)), _) => with_register_digit(Some(reg.number()), byte),
            _ => None,
        }
    }

    /// The site, if its text was read completely.
    pub(crate) fn whole(self) -> Option<Site>
        ensures { result ≡ whole_site self }
    {
        match self {
            SiteRead::Whole(site) => Some(site),
            _ => None,
        }
    }
}

/// Reads the text of a site: `r0` to `r63`, `d`, `pcg`, `pcb`, `qa0` to `qa7` or `qv0` to `qv7`; `None` exactly when
/// the text is not a site.
pub fn read_site(text: &[u8]) -> Option<Site>
    ensures some { IfSome result (IsSiteText text.now) }
    ensures exact { (site : Site) → IsSiteText text.now site → result ≡ Some site }
{
    let mut read = SiteRead::Empty;
    for byte in text {
        let Some(next) = read.next(*byte) else {
            return None;
        };
        read = next;
    }
    read.whole()
}
