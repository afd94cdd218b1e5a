//! The operands of a map line: files, block names and block numbers.
ghost use Rattle.std.specs.Prelude.{◌≡◌, ◌≢◌, ℕ, ◌<◌, ◌^◌, decimal, IfSome, IfNone};
ghost use Rattle.std.specs.List.{list_all};
ghost use Rattle.ft_types.specs.Spellable.{is_letter};
ghost use Rattle.ft_link_map.specs.MapLines.{is_file_byte, is_file, is_word_byte, begins_name, is_block_name};

use ft_isa::read_number;

/// The maximum size of a file's name in bytes.
const FILE_LIMIT: usize = 255;

/// The maximum size of a block's name in bytes.
const NAME_LIMIT: usize = 32;

/// Whether a byte is allowed in a file's name.
fn is_file_byte(byte: u8) -> bool
    ensures { result ≡ is_file_byte byte }
{
    byte >= 33 && byte <= 126
}

/// Whether all bytes are allowed in a file's name.
fn are_file_bytes(text: &[u8]) -> bool
    ensures { result ≡ list_all is_file_byte text.now }
{
    text.iter().all(|byte| is_file_byte(*byte))
}

/// Whether a text is a file's name: 1 to 255 printable bytes without spaces.
pub(crate) fn is_file(text: &[u8]) -> bool
    ensures { result ≡ is_file text.now }
{
    !text.is_empty() && text.len() <= FILE_LIMIT && are_file_bytes(text)
}

/// Whether a byte is an ASCII letter or an underscore.
fn is_letter(byte: u8) -> bool
    ensures { result ≡ is_letter byte }
{
    matches!(byte, b'A'..=b'Z' | b'a'..=b'z' | b'_')
}

/// Whether a byte is an ASCII letter, an underscore or a digit.
fn is_word_byte(byte: u8) -> bool
    ensures { result ≡ is_word_byte byte }
{
    is_letter(byte) || matches!(byte, b'0'..=b'9')
}

/// Whether all bytes are ASCII letters, underscores or digits.
fn are_word_bytes(text: &[u8]) -> bool
    ensures { result ≡ list_all is_word_byte text.now }
{
    text.iter().all(|byte| is_word_byte(*byte))
}

/// Whether a text is a letter or underscore followed by letters, digits and underscores.
fn begins_name(text: &[u8]) -> bool
    ensures { result ≡ begins_name text.now }
{
    let [first, rest @ ..] = text else {
        return false;
    };
    is_letter(*first) && are_word_bytes(rest)
}

/// Whether a text is a block's name: 1 to 32 bytes, a letter or underscore followed by letters, digits and underscores.
pub(crate) fn is_block_name(text: &[u8]) -> bool
    ensures { result ≡ is_block_name text.now }
{
    begins_name(text) && text.len() <= NAME_LIMIT
}

/// The number below 2^32 that a text spells in decimal; `None` exactly when there is no such number.
pub(crate) fn read_block(text: &[u8]) -> Option<u32>
    ensures some { IfSome result (λ n. text.now ≡ decimal n) }
    ensures none { IfNone result ((n : ℕ) → n < 2 ^ 32 → text.now ≢ decimal n) }
{
    let Some(number) = read_number(text) else {
        return None;
    };
    if number < 4_294_967_296 {
        Some(number as u32)
    } else {
        None
    }
}
