//! Explains why sources are refused.
use crate::content::{Content, say_other_kind};
use crate::excerpt::{Place, letter_from, part};
use crate::expected::{
    Lack, habit, instead_of, instead_of_byte_at, instead_of_macro, lack_at, unclosed,
};
use crate::lines::{CTRL_Z, FENCE, MARKED, begins_fence, is_marked};
use crate::near::{is_near, say_near};
use crate::page::Page;
use crate::spaces::space_of;
use ft_isa::NoMemory;
use ft_lexer::{Kind, Lexer, Token};

/// Whether a byte may occur in a name.
fn is_in_name(byte: u8) -> bool {
    byte.is_ascii_alphanumeric() || byte == b'_'
}

/// The token that begins at a place; the character or run of digits there if no token begins, and empty at the end.
fn token_at(source: &[u8], at: usize) -> &[u8] {
    let rest = part(source, at, source.len());
    if let Some(Ok(token)) = Lexer::new(rest).next()
        && token.at == 0
    {
        return token.text;
    }
    let digits = rest.iter().take_while(|byte| byte.is_ascii_digit()).count();
    part(rest, 0, digits.max(letter_from(rest, 1)))
}

/// Whether the first token at or after a place opens an index.
fn is_indexed(source: &[u8], past: usize) -> bool {
    match Lexer::new(part(source, past, source.len())).next() {
        Some(Ok(token)) => token.kind == Kind::LBracket,
        _ => false,
    }
}

/// Where a name is first declared.
fn first_declared(source: &[u8], name: &[u8]) -> Option<usize> {
    let mut lexer = Lexer::new(source);
    let mut declares = false;
    for _ in 0..source.len() {
        let Some(Ok(token)) = lexer.next() else {
            return None;
        };
        if declares && token.text == name {
            return Some(token.at);
        }
        declares = matches!(token.kind, Kind::Cell | Kind::Var);
    }
    None
}

/// Writes a token between back quotes, and then words.
fn say_of(page: &mut Page, token: &[u8], words: &str) -> Result<(), NoMemory> {
    page.quote(token)?;
    page.say(words)
}

/// The message for a byte order mark, a code fence, a Ctrl-Z or a space that is not ASCII; `None` for anything else.
fn wrong_byte(source: &[u8], at: usize, token: &[u8]) -> Option<&'static str> {
    if at == 0 && is_marked(source) {
        return Some(MARKED);
    }
    if begins_fence(part(source, at, source.len())) {
        return Some(FENCE);
    }
    if token == b"\x1a".as_slice() {
        return Some(CTRL_Z);
    }
    space_of(token)
}

/// Says what is wrong with a byte that begins no token.
fn say_byte(page: &mut Page, source: &[u8], at: usize, token: &[u8]) -> Result<(), NoMemory> {
    if let Some(words) = wrong_byte(source, at, token) {
        return page.say(words);
    }
    if token == b"!".as_slice()
        && let Some(words) = instead_of_macro(source, at)
    {
        return page.say(format_args!("unexpected character `!`: {words}"));
    }
    say_character(page, source, at, token)
}

/// Whether a place has a `!` that negates what follows it.
fn negates(source: &[u8], at: usize) -> bool {
    source.get(at) == Some(&b'!') && source.get(at.saturating_add(1)) != Some(&b'=')
}

/// Says that a character is unexpected, and what to write instead.
fn say_character(page: &mut Page, source: &[u8], at: usize, token: &[u8]) -> Result<(), NoMemory> {
    if let Some(words) = instead_of_byte_at(source, at)
        && let [byte, ..] = token
        && !is_in_name(*byte)
    {
        page.say("unexpected character ")?;
        page.quote(token)?;
        return page.say(format_args!(": {words}"));
    }
    match token {
        [byte, ..] if is_in_name(*byte) => page.say("a name has at most 32 bytes"),
        [b'!'] if negates(source, at) => {
            page.say("unexpected character `!`: write `(a == 0)` for `!a`")
        }
        [b':'] if part(source, at, at.saturating_add(2)) == b":=".as_slice() => {
            page.say("unexpected character `:`: write `=` to assign")
        }
        [byte, ..] => {
            page.say("unexpected character ")?;
            say_of(page, token, instead_of(part(source, 0, at), *byte))
        }
        [] => page.say("unexpected end of the source"),
    }
}

/// Says that a token is unexpected, and what to write instead of an idiom of another language.
fn say_unexpected(page: &mut Page, source: &[u8], at: usize, token: &[u8]) -> Result<(), NoMemory> {
    if token.is_empty() {
        return page.say("unexpected end of the source");
    }
    page.say("unexpected ")?;
    page.quote(token)?;
    match habit(source, at) {
        Some(words) => page.say(format_args!(": {words}")),
        None => Ok(()),
    }
}

/// Says that a token is nested too deeply, or is one operator too many.
fn say_depth(page: &mut Page, token: &[u8]) -> Result<(), NoMemory> {
    match token {
        b"(" | b"{" | b"[" => say_of(page, token, " is nested more than 100 deep"),
        _ => say_of(
            page,
            token,
            " is the 201st operator of one assignment or test, and at most 200 are allowed: split it with a variable",
        ),
    }
}

/// Says which declared name was probably meant.
fn say_near_name(page: &mut Page, source: &[u8], name: &[u8]) -> Result<(), NoMemory> {
    let mut lexer = Lexer::new(source);
    let mut declares = false;
    for _ in 0..source.len() {
        let Some(Ok(token)) = lexer.next() else {
            break;
        };
        if declares && is_near_name(page, name, token.text)? {
            return say_near(page, token.text);
        }
        declares = matches!(token.kind, Kind::Cell | Kind::Var);
    }
    Ok(())
}

/// Whether a name is probably a misspelling of a declared one.
fn is_near_name(page: &Page, name: &[u8], known: &[u8]) -> Result<bool, NoMemory> {
    let alloc = page.alloc();
    let Ok(name) = str::from_utf8(name) else {
        return Ok(false);
    };
    let Ok(known) = str::from_utf8(known) else {
        return Ok(false);
    };
    is_near(alloc, name, known)
}

/// Says that a name is not declared.
fn say_undeclared(page: &mut Page, source: &[u8], name: &[u8]) -> Result<(), NoMemory> {
    say_of(page, name, " is not declared")?;
    match name {
        b"true" => page.say(": write 1"),
        b"false" => page.say(": write 0"),
        _ => say_near_name(page, source, name),
    }
}

/// Says what is wrong with the token at a place.
fn say_at(page: &mut Page, number: u64, source: &[u8], at: usize) -> Result<(), NoMemory> {
    let token = token_at(source, at);
    match number {
        2 => say_byte(page, source, at, token),
        3 => say_of(
            page,
            token,
            " is too large: the largest number is 18446744073709551615 (2^64 - 1)",
        ),
        4 => say_unexpected(page, source, at, token),
        5 => say_depth(page, token),
        6 => say_of(page, token, " is declared twice"),
        7 => say_undeclared(page, source, token),
        11 if is_indexed(source, at.saturating_add(token.len())) => {
            say_of(page, token, " is not an array and takes no index")
        }
        11 => say_of(page, token, " is an array and needs an index, as in `a[0]`"),
        _ => {
            page.say("invalid length ")?;
            say_of(page, token, ": an array has 1 to 1024 cells")
        }
    }
}

/// Says what is wrong with a whole source, or with one that cannot be read again.
fn say_whole(page: &mut Page, number: u64, told: u64) -> Result<(), NoMemory> {
    match number {
        1 => page.say(format_args!("the source is too long: at most {told} bytes are allowed")),
        8 => page.say(format_args!("the source has {told} cells: at most 1024 are allowed")),
        9 => page.say(format_args!(
            "the source needs {told} pairs of registers, but there are only 32: each variable takes one, and long expressions take more; keep some words in cells or an array instead"
        )),
        10 => page.say(format_args!(
            "the source is too large: its weight is {told}, and at most 65536 is allowed"
        )),
        _ => page.say(format_args!("the source is refused at byte {told}: {}", rule(number))),
    }
}

/// What is wrong with a source that is refused with this number, in words.
fn rule(number: u64) -> &'static str {
    match number {
        2 => "a character is not part of the language, or a name has more than 32 bytes",
        3 => "a number is too large",
        4 => "unexpected token",
        5 =>
            "brackets or braces are nested too deeply, or an assignment or test has too many operators",
        6 => "a name is declared twice",
        7 => "a name is not declared",
        11 => "an array has no index, or something else has one",
        _ => "an array has 1 to 1024 cells",
    }
}

/// Whether a refusal with this number has a place.
pub fn has_place(number: u64) -> bool {
    matches!(number, 2..=7 | 11 | 12)
}

/// Points to where a name is first declared.
fn point_to_first(page: &mut Page, name: &str, source: &[u8], at: usize) -> Result<(), NoMemory> {
    let token = token_at(source, at);
    let Some(first) = first_declared(source, token) else {
        return Ok(());
    };
    let place = Place::of(source, first);
    page.name(name)?;
    page.say(format_args!(
        ":{}:{}: note: the first declaration is here\n",
        place.number(),
        place.column()
    ))?;
    place.show(page, token.len())
}

/// Explains what is missing, and points to the end of the token before it.
fn explain_lack(
    page: &mut Page,
    name: &str,
    source: &[u8],
    lack: Lack<'_>,
) -> Result<(), NoMemory> {
    let place = Place::of(source, lack.end);
    page.head_at(name, &place)?;
    let what = lack.what;
    page.say(format_args!("expected `{what}` after "))?;
    say_of(page, lack.text, "\n")?;
    place.show(page, 1)
}

/// Explains that a brace is not closed: points to the end of the source, and to the brace.
fn explain_unclosed(
    page: &mut Page,
    name: &str,
    source: &[u8],
    opened: usize,
    last: Token<'_>,
) -> Result<(), NoMemory> {
    let end = last.at.saturating_add(last.text.len());
    let brace = Place::of(source, opened);
    explain_lack(
        page,
        name,
        source,
        Lack {
            what: "}",
            text: last.text,
            end,
        },
    )?;
    page.name(name)?;
    page.say(format_args!(
        ":{}:{}: note: to match this `{{`\n",
        brace.number(),
        brace.column()
    ))?;
    brace.show(page, 1)
}

/// Explains what is wrong at a place in a source.
fn explain_at(
    page: &mut Page,
    name: &str,
    number: u64,
    at: usize,
    source: &[u8],
) -> Result<(), NoMemory> {
    // Whatever is missing at the end is missing right after the last token.
    let place = Place::of(source, at.min(source.trim_ascii_end().len()));
    page.head_at(name, &place)?;
    say_at(page, number, source, at)?;
    page.say("\n")?;
    place.show(page, token_at(source, at).len())?;
    if number == 6 {
        point_to_first(page, name, source, at)?;
    }
    Ok(())
}

/// Explains why a source is refused. The source is given if it can be read again and the refusal has a place.
pub fn explain_source(
    page: &mut Page,
    name: &str,
    number: u64,
    told: u64,
    source: Option<&[u8]>,
) -> Result<(), NoMemory> {
    let (Some(source), true) = (source, has_place(number)) else {
        page.head(name)?;
        say_whole(page, number, told)?;
        return page.say("\n");
    };
    if say_other_kind(page, name, source, Content::Source)? {
        return Ok(());
    }
    let at = told as usize;
    if number != 4 {
        return explain_at(page, name, number, at, source);
    }
    if let Some(lack) = lack_at(source, at) {
        return explain_lack(page, name, source, lack);
    }
    match unclosed(source) {
        Some((opened, last)) if token_at(source, at).is_empty() => {
            explain_unclosed(page, name, source, opened, last)
        }
        _ => explain_at(page, name, number, at, source),
    }
}
