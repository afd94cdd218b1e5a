//! Fields: words, each read as a value.
ghost use Rattle.std.specs.Prelude.{◌≡◌, ◌≤◌, ◌^◌, option_map, IfSome};
ghost use Rattle.std.specs.Str.{bytes_eq};
ghost use Rattle.ft_text.specs.LineWords.{words_of, number_of, taken, ended};
ghost use Rattle.ft_asm.specs.Forms.{below, reg_in, colour_in, basic_in, base_in};

use crate::line::Line;
use ft_isa::{Base, Basic, Colour, Reg, read_number};
use ft_text::next_word;

/// The number that a number text spells.
fn number_of(word: &[u8]) -> Option<u64>
    ensures { result ≡ number_of word.now }
{
    read_number(word)
}

/// The 8-bit number that a word spells.
#[tactic(auto, unfolding(crate::specs::Forms::below))]
fn byte_of(word: &[u8]) -> Option<u8>
    ensures { result ≡ below (2 ^ 8) word.now }
{
    let Some(number) = number_of(word) else {
        return None;
    };
    if number < 256 {
        Some(number as u8)
    } else {
        None
    }
}

/// The 16-bit number that a word spells.
#[tactic(auto, unfolding(crate::specs::Forms::below))]
fn half_of(word: &[u8]) -> Option<u16>
    ensures { result ≡ below (2 ^ 16) word.now }
{
    let Some(number) = number_of(word) else {
        return None;
    };
    if number < 65_536 {
        Some(number as u16)
    } else {
        None
    }
}

/// The 32-bit number that a word spells.
#[tactic(auto, unfolding(crate::specs::Forms::below))]
pub(crate) fn index_of(word: &[u8]) -> Option<u32>
    ensures { result ≡ below (2 ^ 32) word.now }
{
    let Some(number) = number_of(word) else {
        return None;
    };
    if number < 4_294_967_296 {
        Some(number as u32)
    } else {
        None
    }
}

/// The 64-bit number that a word spells.
#[tactic(auto, unfolding(crate::specs::Forms::below))]
fn word_of(word: &[u8]) -> Option<u64>
    ensures { result ≡ below (2 ^ 64) word.now }
{
    number_of(word)
}

/// The register that a word names.
#[tactic(auto, unfolding(crate::specs::Forms::reg_in))]
pub(crate) fn reg_of(word: &[u8]) -> Option<Reg>
    ensures { result ≡ reg_in word.now }
{
    let [b'r', number @ ..] = word else {
        return None;
    };
    let Some(number) = number_of(number) else {
        return None;
    };
    if number < 64 {
        Reg::new(number as u8)
    } else {
        None
    }
}

/// Whether two words are the same.
pub(crate) fn is_same(a: &[u8], b: &[u8]) -> bool
    ensures { result ≡ bytes_eq a.now b.now }
{
    a == b
}

/// The colour that a word names.
#[tactic(auto, unfolding(crate::specs::Forms::colour_in))]
pub(crate) fn colour_of(word: &[u8]) -> Option<Colour>
    ensures { result ≡ colour_in word.now }
{
    if is_same(word, b"G") {
        return Some(Colour::Green);
    }
    if is_same(word, b"B") {
        return Some(Colour::Blue);
    }
    None
}

/// The base that a word spells.
fn base_of(word: &[u8]) -> Option<Base>
    ensures { result ≡ base_in word.now }
{
    if is_same(word, b"int") {
        return Some(Base::Int);
    }
    let Some(number) = word.strip_prefix(b"code:") else {
        return None;
    };
    let Some(code_type) = half_of(number) else {
        return None;
    };
    Some(Base::Code(code_type))
}

/// Reads a register; returns it and the text after its word.
pub(crate) fn take_reg(text: &[u8]) -> Option<(Reg, &[u8])>
    ensures { taken reg_in (words_of text.now) ≡ option_map (λ p. (p.0, words_of p.1.now)) result }
{
    let Some((word, rest)) = next_word(text) else {
        return None;
    };
    let Some(reg) = reg_of(word) else {
        return None;
    };
    Some((reg, rest))
}

/// Reads a colour; returns it and the text after its word.
pub(crate) fn take_colour(text: &[u8]) -> Option<(Colour, &[u8])>
    ensures { taken colour_in (words_of text.now) ≡ option_map (λ p. (p.0, words_of p.1.now)) result }
{
    let Some((word, rest)) = next_word(text) else {
        return None;
    };
    let Some(colour) = colour_of(word) else {
        return None;
    };
    Some((colour, rest))
}

/// Reads a 32-bit number; returns it and the text after its word.
pub(crate) fn take_index(text: &[u8]) -> Option<(u32, &[u8])>
    ensures { taken (below (2 ^ 32)) (words_of text.now) ≡ option_map (λ p. (p.0, words_of p.1.now)) result }
{
    let Some((word, rest)) = next_word(text) else {
        return None;
    };
    let Some(index) = index_of(word) else {
        return None;
    };
    Some((index, rest))
}

/// The basic type that a word spells, with at most this many refs.
#[tactic(auto, unfolding(crate::specs::Forms::basic_in))]
fn basic_within(room: u8, word: &[u8]) -> Option<Basic>
    ensures basic { result ≡ basic_in room word.now }
    ensures few { IfSome result (λ b. b.refs ≤ room) }
{
    if room == 0 {
        let Some(base) = base_of(word) else {
            return None;
        };
        return Some(Basic { refs: 0, base });
    }
    let Some(rest) = word.strip_prefix(b"ref:") else {
        let Some(base) = base_of(word) else {
            return None;
        };
        return Some(Basic { refs: 0, base });
    };
    let Some(basic) = basic_within(room - 1, rest) else {
        return None;
    };
    Some(Basic {
        refs: basic.refs + 1,
        base: basic.base,
    })
}

/// Reads an 8-bit number; returns it and the text after its word.
pub(crate) fn take_byte(text: &[u8]) -> Option<(u8, &[u8])>
    ensures { taken (below (2 ^ 8)) (words_of text.now) ≡ option_map (λ p. (p.0, words_of p.1.now)) result }
{
    let Some((word, rest)) = next_word(text) else {
        return None;
    };
    let Some(value) = byte_of(word) else {
        return None;
    };
    Some((value, rest))
}

/// Reads a 64-bit number; returns it and the text after its word.
pub(crate) fn take_word(text: &[u8]) -> Option<(u64, &[u8])>
    ensures { taken (below (2 ^ 64)) (words_of text.now) ≡ option_map (λ p. (p.0, words_of p.1.now)) result }
{
    let Some((word, rest)) = next_word(text) else {
        return None;
    };
    let Some(value) = word_of(word) else {
        return None;
    };
    Some((value, rest))
}

/// Reads a basic type; returns it and the text after its word.
pub(crate) fn take_basic(text: &[u8]) -> Option<(Basic, &[u8])>
    ensures { taken (basic_in 255) (words_of text.now) ≡ option_map (λ p. (p.0, words_of p.1.now)) result }
{
    let Some((word, rest)) = next_word(text) else {
        return None;
    };
    let Some(basic) = basic_within(255, word) else {
        return None;
    };
    Some((basic, rest))
}

/// The line, if no word is left.
pub(crate) fn end(text: &[u8], line: Line) -> Option<Line>
    ensures { result ≡ ended line (words_of text.now) }
{
    match next_word(text) {
        Some(_) => None,
        None => Some(line),
    }
}
