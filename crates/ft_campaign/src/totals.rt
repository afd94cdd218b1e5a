//! How many faults have each verdict.
ghost use Rattle.std.specs.Prelude.{◌≡◌, ◌≤◌, length, count_by};
ghost use Rattle.ft_campaign.specs.Texts.{is_masked, is_detected, is_idle, is_corrupt, totals_of};

use crate::verdict::Verdict;

/// How many faults have each verdict: at most 65,536 altogether.
#[derive(Clone, Copy, Debug, PartialEq, Eq)]
pub struct Totals {
    /// Faults without a visible effect.
    pub masked: u32,
    /// Faults that were detected.
    pub detected: u32,
    /// Faults that struck nothing.
    pub idle: u32,
    /// All others.
    pub corrupt: u32,
}

fn is_masked(verdict: Verdict) -> bool
    ensures { result ≡ is_masked verdict }
{
    match verdict {
        Verdict::Masked => true,
        _ => false,
    }
}

fn is_detected(verdict: Verdict) -> bool
    ensures { result ≡ is_detected verdict }
{
    match verdict {
        Verdict::Detected { at: _ } => true,
        _ => false,
    }
}

fn is_idle(verdict: Verdict) -> bool
    ensures { result ≡ is_idle verdict }
{
    match verdict {
        Verdict::Idle => true,
        _ => false,
    }
}

fn is_corrupt(verdict: Verdict) -> bool
    ensures { result ≡ is_corrupt verdict }
{
    match verdict {
        Verdict::Corrupt => true,
        _ => false,
    }
}

fn count_masked(verdicts: &[Verdict]) -> u32
    requires { length verdicts.now ≤ 65536 }
    ensures { result ≡ count_by is_masked verdicts.now }
{
    verdicts.iter().filter(|v| is_masked(**v)).count() as u32
}

fn count_detected(verdicts: &[Verdict]) -> u32
    requires { length verdicts.now ≤ 65536 }
    ensures { result ≡ count_by is_detected verdicts.now }
{
    verdicts.iter().filter(|v| is_detected(**v)).count() as u32
}

fn count_idle(verdicts: &[Verdict]) -> u32
    requires { length verdicts.now ≤ 65536 }
    ensures { result ≡ count_by is_idle verdicts.now }
{
    verdicts.iter().filter(|v| is_idle(**v)).count() as u32
}

fn count_corrupt(verdicts: &[Verdict]) -> u32
    requires { length verdicts.now ≤ 65536 }
    ensures { result ≡ count_by is_corrupt verdicts.now }
{
    verdicts.iter().filter(|v| is_corrupt(**v)).count() as u32
}

/// How many verdicts there are of each kind.
pub fn totals_of(verdicts: &[Verdict]) -> Totals
    requires { length verdicts.now ≤ 65536 }
    ensures { result ≡ totals_of verdicts.now }
{
    Totals {
        masked: count_masked(verdicts),
        detected: count_detected(verdicts),
        idle: count_idle(verdicts),
        corrupt: count_corrupt(verdicts),
    }
}
