//! The kinds of single bytes and of reserved words.
ghost use Rattle.std.specs.Prelude.{◌≡◌, ◌≢◌, IfSome};
ghost use Rattle.ft_lexer.specs.Bytes.{is_blank, is_digit, is_letter, is_name_byte, word_kind, sign_kind, pair_kind};
ghost use Rattle.ft_lexer.specs.declared.kind.Kind.TheVariants as kinds;

use crate::kind::Kind;

/// Whether the byte separates tokens.
pub fn is_blank(b: u8) -> bool
    ensures { result ≡ is_blank b }
{
    b == b' ' || b == b'\t' || b == b'\r' || b == b'\n'
}

/// Whether the byte is a digit.
pub fn is_digit(b: u8) -> bool
    ensures { result ≡ is_digit b }
{
    b'0' <= b && b <= b'9'
}

/// Whether the byte may begin a name.
pub fn is_letter(b: u8) -> bool
    ensures { result ≡ is_letter b }
{
    b'a' <= b && b <= b'z' || b'A' <= b && b <= b'Z' || b == b'_'
}

/// Whether the byte may follow the first byte of a name.
pub fn is_name_byte(b: u8) -> bool
    ensures { result ≡ is_name_byte b }
{
    is_letter(b) || is_digit(b)
}

/// The kind of a word: a reserved one, or a name.
#[tactic(auto, unfolding(crate::specs::Bytes::word_kind))]
pub fn word_kind(text: &[u8]) -> Kind
    ensures value { result ≡ word_kind text.now }
    ensures no_number { result ≢ kinds.Number }
{
    if text == b"cell".as_slice() {
        Kind::Cell
    } else if text == b"var".as_slice() {
        Kind::Var
    } else if text == b"while".as_slice() {
        Kind::While
    } else if text == b"if".as_slice() {
        Kind::If
    } else if text == b"else".as_slice() {
        Kind::Else
    } else {
        Kind::Name
    }
}

/// The kind of the token that consists of this byte twice.
#[tactic(auto, unfolding(crate::specs::Bytes::pair_kind))]
pub fn pair_kind(b: u8) -> Option<Kind>
    ensures value { result ≡ pair_kind b }
    ensures no_number { IfSome result (λ k. k ≢ kinds.Number) }
{
    if b == b'=' {
        Some(Kind::EqEq)
    } else if b == b'<' {
        Some(Kind::Shl)
    } else if b == b'>' {
        Some(Kind::Shr)
    } else {
        None
    }
}

/// The kind of the token that consists of this byte.
#[tactic(auto, unfolding(crate::specs::Bytes::sign_kind))]
pub fn sign_kind(b: u8) -> Option<Kind>
    ensures { result ≡ sign_kind b }
{
    if b == b';' {
        Some(Kind::Semi)
    } else if b == b'(' {
        Some(Kind::LParen)
    } else if b == b')' {
        Some(Kind::RParen)
    } else if b == b'{' {
        Some(Kind::LBrace)
    } else if b == b'}' {
        Some(Kind::RBrace)
    } else if b == b'+' {
        Some(Kind::Plus)
    } else if b == b'-' {
        Some(Kind::Minus)
    } else if b == b'*' {
        Some(Kind::Star)
    } else if b == b'<' {
        Some(Kind::Less)
    } else if b == b'=' {
        Some(Kind::Assign)
    } else if b == b'[' {
        Some(Kind::LBracket)
    } else if b == b']' {
        Some(Kind::RBracket)
    } else if b == b'&' {
        Some(Kind::And)
    } else if b == b'|' {
        Some(Kind::Or)
    } else if b == b'^' {
        Some(Kind::Xor)
    } else {
        None
    }
}
