//! Parses a line of a map.
ghost use Rattle.std.specs.Prelude.{◌≡◌, ◌≢◌, ℕ, ◌<◌, ◌^◌, true, List, ◌++◌, codes, decimal, IfSome, IfNone};
ghost use Rattle.ft_link_map.specs.MapLines.{is_file, is_block_name, Says};
ghost use Rattle.ft_link_map.specs.Reads.{line_of};

use crate::words::{is_block_name, is_file, read_block};
use ft_text::{after, split_word};

/// What a line says.
#[derive(Clone, Copy)]
pub(crate) enum Entry<'t> {
    /// A module, given by its file.
    Module(&'t [u8]),
    /// An export under a name.
    Export { name: &'t [u8], block: u32 },
    /// An import of a name.
    Import { name: &'t [u8], block: u32 },
    /// Any other line.
    Bad,
}

/// The file of a module line.
fn read_module(line: &[u8]) -> Option<&[u8]>
    ensures some { IfSome result (λ file. (is_file file.now ≡ true) × (line.now ≡ codes "module " ++ file.now)) }
    ensures none { IfNone result ((file : List ℕ) → is_file file ≡ true → line.now ≢ codes "module " ++ file) }
{
    let Some(file) = after(line, b"module ") else {
        return None;
    };
    if is_file(file) { Some(file) } else { None }
}

/// The name and the block that follow the word `export` or `import`.
fn read_ask(words: &[u8]) -> Option<(&[u8], u32)>
    ensures some { IfSome result (λ p. (is_block_name p.0.now ≡ true) × (words.now ≡ p.0.now ++ codes " " ++ decimal p.1)) }
    ensures none { IfNone result ((name : List ℕ) (block : ℕ) → is_block_name name ≡ true → block < 2 ^ 32 → words.now ≢ name ++ codes " " ++ decimal block) }
{
    let Some((name, block)) = split_word(words) else {
        return None;
    };
    if !is_block_name(name) {
        return None;
    }
    let Some(block) = read_block(block) else {
        return None;
    };
    Some((name, block))
}

/// The name and the block of an export line.
fn read_export(line: &[u8]) -> Option<(&[u8], u32)>
    ensures some { IfSome result (λ p. (is_block_name p.0.now ≡ true) × (line.now ≡ codes "export " ++ p.0.now ++ codes " " ++ decimal p.1)) }
    ensures none { IfNone result ((name : List ℕ) (block : ℕ) → is_block_name name ≡ true → block < 2 ^ 32 → line.now ≢ codes "export " ++ name ++ codes " " ++ decimal block) }
{
    match after(line, b"export ") {
        Some(words) => read_ask(words),
        None => None,
    }
}

/// The name and the block of an import line.
fn read_import(line: &[u8]) -> Option<(&[u8], u32)>
    ensures some { IfSome result (λ p. (is_block_name p.0.now ≡ true) × (line.now ≡ codes "import " ++ p.0.now ++ codes " " ++ decimal p.1)) }
    ensures none { IfNone result ((name : List ℕ) (block : ℕ) → is_block_name name ≡ true → block < 2 ^ 32 → line.now ≢ codes "import " ++ name ++ codes " " ++ decimal block) }
{
    match after(line, b"import ") {
        Some(words) => read_ask(words),
        None => None,
    }
}

/// What a line says.
pub(crate) fn read_entry(line: &[u8]) -> Entry<'_>
    ensures { Says line.now (line_of result) }
{
    if let Some(file) = read_module(line) {
        return Entry::Module(file);
    }
    if let Some((name, block)) = read_export(line) {
        return Entry::Export { name, block };
    }
    if let Some((name, block)) = read_import(line) {
        return Entry::Import { name, block };
    }
    Entry::Bad
}
