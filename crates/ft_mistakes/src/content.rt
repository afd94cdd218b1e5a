//! Guesses what a file is from how it begins.
use crate::forms::first_word;
use crate::mnemonics::{form_in_tables, is_line};
use crate::page::Page;
use ft_isa::{NoMemory, read_number, read_strike};
use ft_lexer::{Kind, Lexer, Token};
use ft_text::read_line;
use std::alloc::Global;

/// How many bytes of a file are examined.
const LOOKED_AT: usize = 65_536;

/// What a file is, as far as its beginning shows.
#[derive(Clone, Copy, Debug, PartialEq, Eq)]
pub enum Content {
    /// An object.
    Object,
    /// A source.
    Source,
    /// An assembly text.
    Assembly,
    /// A fault list.
    List,
    /// A link map.
    Map,
    /// A debugger script.
    Script,
    /// An output of the program.
    Answer,
    /// A C program.
    C,
    /// A WebAssembly module.
    Wasm,
    /// A text in UTF-16.
    Wide,
    /// A file compressed by gzip.
    Gzip,
    /// A zip archive.
    Zip,
    /// An ELF file: an executable, an object file or a library for a processor.
    Elf,
    /// An empty file.
    Empty,
    /// Any other bytes that are not text.
    Binary,
    /// Any other text.
    Unknown,
}

impl Content {
    /// What such a file is called.
    fn words(self) -> &'static str {
        match self {
            Content::Object => "an object",
            Content::Source => "a source",
            Content::Assembly => "an assembly text",
            Content::List => "a fault list",
            Content::Map => "a link map",
            Content::Script => "a debugger script",
            Content::Answer => "output of `talft`",
            Content::C => "a C program",
            Content::Wasm => "a WebAssembly module",
            Content::Wide => "UTF-16 text",
            Content::Gzip => "a gzip file",
            Content::Zip => "a zip archive",
            Content::Elf => "an ELF file (code for a processor)",
            Content::Empty => "empty",
            Content::Binary => "a binary file",
            Content::Unknown => "plain text",
        }
    }

    /// What to do with such a file if something else was expected.
    fn advice(self, wanted: Content) -> &'static str {
        match self {
            Content::Object if wanted == Content::Assembly =>
                ": `talft dis FILE` writes its assembly text",
            Content::Object if wanted == Content::Source => ": `talft run FILE` runs it",
            Content::Object if wanted == Content::Map =>
                ": a link map is a text with a line `module FILE` for each object",
            Content::Object if wanted == Content::List =>
                ": a fault list has one STEP:SITE:WORD on each line; `talft-faults` writes one",
            Content::Unknown if wanted == Content::Object =>
                ": `talft compile`, `talft asm` and `talft-cc` make objects",
            Content::Source => ": `talft compile FILE >OBJECT` makes an object",
            Content::Assembly => ": `talft asm FILE >OBJECT` makes an object",
            Content::List => ": pass it with `--faults`",
            Content::Map => ": `talft link FILE >OBJECT` makes an object",
            Content::Script => ": `talft debug OBJECT <FILE` runs it",
            Content::C => ": `talft-cc FILE -o OBJECT` makes an object",
            Content::Wasm => ": `talft-cc FILE -o OBJECT` makes an object",
            Content::Wide => ": save it as ASCII text",
            Content::Gzip => ": `gunzip` unpacks it",
            Content::Zip => ": `unzip` unpacks it",
            Content::Answer if wanted == Content::Object =>
                ": the call that wrote it was refused, or writes no object",
            Content::Elf if wanted == Content::Object =>
                ": `talft-cc` makes an object from C files",
            _ => "",
        }
    }
}

/// Whether bytes begin like an object.
pub fn begins_as_object(bytes: &[u8]) -> bool {
    bytes.starts_with(b"TALFT")
}

/// Whether a byte may occur in a text file. Old editors end one with Ctrl-Z.
fn is_of_text(byte: u8) -> bool {
    matches!(byte, b'\t' | b'\n' | 0x0c | b'\r' | 0x1a | 0x1b | b' '..=b'~' | 0x80..)
}

/// Whether bytes are text.
pub(crate) fn is_text(bytes: &[u8]) -> bool {
    bytes.iter().all(|byte| is_of_text(*byte))
}

/// The first line that is neither blank nor a comment; empty if there is none.
fn first_said(text: &[u8]) -> &[u8] {
    let mut rest = text;
    for _ in 0..text.len() {
        let Some((line, after)) = read_line(rest) else {
            return &[];
        };
        let said = line.trim_ascii();
        if !said.is_empty() && !said.starts_with(b"#") {
            return said;
        }
        rest = after;
    }
    &[]
}

/// The kind of the next token.
fn next_kind(lexer: &mut Lexer<'_>) -> Option<Kind> {
    match lexer.next() {
        Some(Ok(Token { kind, .. })) => Some(kind),
        _ => None,
    }
}

/// Whether a declaration of a source goes on like this behind its name. In an assembly text, a type follows the index of
/// an array's cell.
fn is_declared(lexer: &mut Lexer<'_>) -> bool {
    match next_kind(lexer) {
        Some(Kind::LBracket) => {
            let _index = next_kind(lexer);
            let _bracket = next_kind(lexer);
            next_kind(lexer) != Some(Kind::Name)
        }
        Some(Kind::Assign | Kind::Semi) => true,
        _ => false,
    }
}

/// Whether a source may begin with this line.
fn begins_source(line: &[u8]) -> bool {
    let mut lexer = Lexer::new(line);
    let first = next_kind(&mut lexer);
    let second = next_kind(&mut lexer);
    match first {
        Some(Kind::Cell | Kind::Var) => second == Some(Kind::Name) && is_declared(&mut lexer),
        Some(Kind::While | Kind::If) => second == Some(Kind::LParen),
        Some(Kind::Name) => matches!(second, Some(Kind::Assign | Kind::LBracket)),
        _ => false,
    }
}

/// Whether a debugger script may begin with this line.
fn begins_script(line: &[u8]) -> bool {
    let begins = line.starts_with(b"step ")
        || line.starts_with(b"go ")
        || line.starts_with(b"zap ");
    begins || line.starts_with(b"break ") || line == b"where".as_slice()
}

/// What a text is, judging by its first line that is neither empty nor a comment.
fn content_of_line(alloc: Global, line: &[u8]) -> Result<Content, NoMemory> {
    let content = if line.is_empty() {
        Content::Unknown
    } else if begins_source(line) {
        Content::Source
    } else if read_strike(line).is_ok() {
        Content::List
    } else if line.starts_with(b"module ") {
        Content::Map
    } else if begins_script(line) {
        Content::Script
    } else if is_line(alloc, line)? {
        Content::Assembly
    } else {
        Content::Unknown
    };
    Ok(content)
}

/// Whether the program may have written this line: a name and a number, or the answer to a refused call or to a check.
fn is_line_of_answer(line: &[u8]) -> bool {
    let line = str::from_utf8(line).unwrap_or("");
    let Some((name, rest)) = line.split_once(' ') else {
        return line == "accepted" || line == "usage";
    };
    let is_name = matches!(name.as_bytes().first(), Some(b'a'..=b'z' | b'A'..=b'Z'));
    if REFUSALS.iter().any(|word| *word == name) {
        return name == "check" || are_numbers(rest);
    }
    let is_value = read_number(rest.as_bytes()).is_some();
    is_name && is_value && form_in_tables(name.as_bytes()).is_none()
}

/// Whether words separated by spaces are numbers.
fn are_numbers(words: &str) -> bool {
    words
        .split(' ')
        .all(|word| read_number(word.as_bytes()).is_some())
}

/// The first words of the answers to refused files.
const REFUSALS: &[&str] = &["source", "object", "asm", "list", "link", "check"];

/// Whether a text begins with the answer to a refused file, which an explanation may follow.
fn begins_as_refusal(text: &[u8]) -> bool {
    let line = match read_line(text) {
        Some((line, _)) => line,
        None => text,
    };
    let first = first_word(str::from_utf8(line).unwrap_or(""));
    is_line_of_answer(line) && REFUSALS.iter().any(|word| *word == first)
}

/// Whether the program may have written each line of a text.
fn is_answer(text: &[u8]) -> bool {
    let mut rest = text;
    for _ in 0..text.len() {
        let Some((line, after)) = read_line(rest) else {
            break;
        };
        if !is_line_of_answer(line) {
            return false;
        }
        rest = after;
    }
    true
}

/// Whether a text has a C preprocessor directive.
fn has_directive(text: &[u8]) -> bool {
    let mut rest = text;
    for _ in 0..text.len() {
        let Some((line, after)) = read_line(rest) else {
            return false;
        };
        if line.starts_with(b"#include") || line.starts_with(b"#define ") {
            return true;
        }
        rest = after;
    }
    false
}

/// Whether a text is a C program, judging by the name of its file or by its directives.
fn is_c(name: &str, text: &[u8]) -> bool {
    let name = name.as_bytes();
    name.ends_with(b".c") || name.ends_with(b".h") || has_directive(text)
}

/// What a file is, judging by its name and its beginning.
pub(crate) fn content_of_file(
    alloc: Global,
    name: &str,
    bytes: &[u8],
) -> Result<Content, NoMemory> {
    let content = content_of(alloc, bytes)?;
    if content == Content::Unknown && is_c(name, bytes.get(..LOOKED_AT).unwrap_or(bytes)) {
        return Ok(Content::C);
    }
    Ok(content)
}

/// The first bytes of files that are not text, and what they show.
const MAGICS: &[(&[u8], Content)] = &[
    (b"TALFT", Content::Object),
    (b"\0asm", Content::Wasm),
    (b"\xff\xfe", Content::Wide),
    (b"\xfe\xff", Content::Wide),
    (b"\x1f\x8b", Content::Gzip),
    (b"PK\x03\x04", Content::Zip),
    (b"\x7fELF", Content::Elf),
];

/// What the first bytes of a file show it to be; `None` if they may begin a text.
fn content_of_magic(bytes: &[u8]) -> Option<Content> {
    for (magic, content) in MAGICS {
        if bytes.starts_with(*magic) {
            return Some(*content);
        }
    }
    None
}

/// What bytes are, judging by their beginning.
fn content_of(alloc: Global, bytes: &[u8]) -> Result<Content, NoMemory> {
    let bytes = bytes.get(..LOOKED_AT).unwrap_or(bytes);
    if bytes.is_empty() {
        return Ok(Content::Empty);
    }
    if let Some(content) = content_of_magic(bytes) {
        return Ok(content);
    }
    if !is_text(bytes) {
        return Ok(Content::Binary);
    }
    let content = content_of_line(alloc, first_said(bytes))?;
    if content == Content::Unknown && (begins_as_refusal(bytes) || is_answer(bytes)) {
        return Ok(Content::Answer);
    }
    Ok(content)
}

/// Says what a file is, what was expected, and what to do.
pub(crate) fn say_kind(
    page: &mut Page,
    name: &str,
    content: Content,
    wanted: Content,
) -> Result<(), NoMemory> {
    page.head(name)?;
    if content == Content::Empty {
        return page.say("the file is empty\n");
    }
    let is = content.words();
    let not = wanted.words();
    let advice = content.advice(wanted);
    page.say(format_args!("this is {is}, not {not}{advice}\n"))
}

/// If a file is not what was expected, says what it is and what to do. Returns false if it may be what was expected.
pub fn say_other_kind(
    page: &mut Page,
    name: &str,
    bytes: &[u8],
    wanted: Content,
) -> Result<bool, NoMemory> {
    let content = content_of_file(page.alloc(), name, bytes)?;
    if content == wanted || content == Content::Unknown {
        return Ok(false);
    }
    say_kind(page, name, content, wanted)?;
    Ok(true)
}
