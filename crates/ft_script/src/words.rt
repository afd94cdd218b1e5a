//! The words of a line: numbers and registers.
ghost use Rattle.std.specs.Prelude.{◌≡◌, ◌≢◌, ℕ, decimal, Decides, IfSome, IfNone};
ghost use Rattle.ft_script.specs.Commands.{IsCount, IsLineWord, register_text};
ghost use Rattle.ft_script.specs.declared.register.Register as register;

use crate::register::Register;
use ft_isa::{Site, read_number, read_site};
use ft_text::first_space;

/// The maximum number of steps of one command.
const STEP_LIMIT: u64 = 1_000_000;

/// Whether two texts are the same.
pub fn is_same(a: &[u8], b: &[u8]) -> bool
    ensures { Decides result (a.now ≡ b.now) }
{
    a == b
}

/// Whether a text is a word of a line: it has at least one byte, and no space.
pub fn is_line_word(text: &[u8]) -> bool
    ensures { Decides result (IsLineWord text.now) }
{
    match first_space(text) {
        Some(_) => false,
        None => !text.is_empty(),
    }
}

/// A number of steps, at most 1,000,000.
pub fn read_count(text: &[u8]) -> Option<u64>
    ensures some { IfSome result (λ n. IsCount n × (text.now ≡ decimal n)) }
    ensures none { IfNone result ((n : ℕ) → IsCount n → text.now ≢ decimal n) }
{
    let count = read_number(text)?;
    if count > STEP_LIMIT {
        return None;
    }
    Some(count)
}

/// A register: `r0` to `r63`, `d`, `pcg` or `pcb`.
pub fn read_register(text: &[u8]) -> Option<Register>
    ensures some { IfSome result (λ r. text.now ≡ register_text r) }
    ensures none { IfNone result ((r : register.Register) → text.now ≢ register_text r) }
{
    let Some(site) = read_site(text) else {
        return None;
    };
    match site {
        Site::R(reg) => Some(Register::R(reg)),
        Site::D => Some(Register::D),
        Site::PcG => Some(Register::PcG),
        Site::PcB => Some(Register::PcB),
        Site::QAddr(_) | Site::QVal(_) => None,
    }
}
