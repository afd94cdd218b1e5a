//! Number texts: `0`, or a digit from 1 to 9 followed by digits, with a value below 2^64.
ghost use Rattle.std.specs.Prelude.{◌≡◌, ℕ, Some, IfSome};
ghost use Rattle.ft_isa.specs.PlanText.{IsNumberText};
ghost use Rattle.ft_isa.specs.Reading.{with_digit};

/// A number with one more digit; `None` if no number text begins like this.
pub(crate) fn with_digit(number: Option<u64>, byte: u8) -> Option<u64>
    ensures { result ≡ with_digit number byte }
{
    let digit = match byte {
        b'0'..=b'9' => u64::from(byte - b'0'),
        _ => return None,
    };
    match number {
        None => Some(digit),
        Some(0) => None,
        Some(n) => n.checked_mul(10)?.checked_add(digit),
    }
}

/// The number that a number text spells: `0`, or a digit from 1 to 9 followed by digits, with a value below 2^64.
/// `None` exactly when the text is not one.
pub fn read_number(text: &[u8]) -> Option<u64>
    ensures some { IfSome result (IsNumberText text.now) }
    ensures exact { (n : ℕ) → IsNumberText text.now n → result ≡ Some n }
{
    let mut number = None;
    for byte in text {
        let Some(next) = with_digit(number, *byte) else {
            return None;
        };
        number = Some(next);
    }
    number
}
