//! The cells and arrays that a text declares.
ghost use Rattle.std.specs.Prelude.{◌≡◌, ◌≢◌, ◌≤◌, ◌<◌, ◌+◌, ◌^◌, ◌++◌, ◌∷◌, [], Ok, Err, length, map, if◌then◌else◌};
ghost use Rattle.std.specs.Prelude.{IfOk, IfErr, OnOk};
ghost use Rattle.std.specs.List.{list_all};
ghost use Rattle.ft_text.specs.Lines.{lines_of};
ghost use Rattle.ft_scope.specs.CellNames.{array_names};
ghost use Rattle.ft_flow.specs.Bodies.{read_cells};
ghost use Rattle.ft_flow.specs.LineWords.{line_words};
ghost use Rattle.ft_flow.specs.Fields.{is_plain_name};
ghost use Rattle.ft_flow.specs.Heads.{declaration_in, declare, none_declared, said, with_declaration};
ghost use Rattle.ft_flow.specs.declared.flow_error.FlowError.TheVariants as errors;
ghost use Rattle.ft_flow.specs.DeclaredAt.{cells_at, declared_at};
ghost use Rattle.ft_flow.specs.RowsAt.{declaration_at};
ghost use Rattle.ft_lexer.specs.Bytes.{is_letter, is_name_byte};
ghost use Rattle.ft_flow.specs.Lawful.{IsLawful};

use crate::fields::index_of;
use crate::flow_error::FlowError;
use crate::heads::{Declaration, declaration_of, is_declaration};
use crate::limits::{MOST_CELLS, MOST_NAME_BYTES};
use crate::rows::next_row;
use ft_scope::cell_name;
use std::alloc::{AllocError, Global};

/// Whether a byte is a letter or an underscore.
fn is_letter(b: u8) -> bool
    ensures { result ≡ is_letter b }
{
    b'a' <= b && b <= b'z' || b'A' <= b && b <= b'Z' || b == b'_'
}

/// Whether a byte is a letter, a digit or an underscore.
fn is_name_byte(b: u8) -> bool
    ensures { result ≡ is_name_byte b }
{
    is_letter(b) || b'0' <= b && b <= b'9'
}

/// Whether all bytes are letters, digits and underscores.
fn all_name_bytes(text: &[u8]) -> bool
    ensures { result ≡ list_all is_name_byte text.now }
{
    text.iter().all(|b| is_name_byte(*b))
}

/// Whether a word may name a cell.
fn is_plain_name(word: &[u8]) -> bool
    ensures { result ≡ is_plain_name word.now }
{
    let Some((b, rest)) = word.split_first() else {
        return false;
    };
    is_letter(*b) && all_name_bytes(rest) && rest.len() < MOST_NAME_BYTES
}

/// Appends the names of the cells of an array.
fn put_array(
    cells: &mut Vec<Vec<u8>>,
    alloc: Global,
    name: &[u8],
    length: u32,
) -> Result<(), AllocError>
    ensures { OnOk result (map (λ n. n.items) cells.new.items ≡ map (λ n. n.items) cells.old.items ++ array_names name.now 0 length) }
{
    for k in 0..length {
        let cell = cell_name(alloc, name, Some(k))?;
        cells.push(cell)?;
    }
    Ok(())
}

/// Appends the names of the cells of an array, or the name of a cell.
fn put_cells(
    cells: &mut Vec<Vec<u8>>,
    alloc: Global,
    array: bool,
    name: &[u8],
    length: u32,
) -> Result<(), AllocError>
    ensures { OnOk result (map (λ n. n.items) cells.new.items ≡ map (λ n. n.items) cells.old.items
        ++ (if array then array_names name.now 0 length else name.now ∷ [])) }
{
    if array {
        return put_array(cells, alloc, name, length);
    }
    cells.push(Vec::from_slice(alloc, name)?)?;
    Ok(())
}

/// The declarations so far: the names, each with its first cell and its length, which is 0 for a cell; and the names and
/// initial words of all cells.
#[derive(Drop)]
pub(crate) struct Declared<'t> {
    pub names: Vec<&'t [u8]>,
    pub firsts: Vec<u32>,
    pub lengths: Vec<u32>,
    pub cells: Vec<Vec<u8>>,
    pub inits: Vec<u64>,
}

/// The length of an array; 0 for a cell.
fn length_of(array: bool, words: u32) -> u32
    ensures { result ≡ (if array then words else 0) }
{
    if array { words } else { 0 }
}

impl<'t> Declared<'t> {
    /// No declaration.
    fn new(alloc: Global) -> Declared<'t>
        ensures { declared_at result ≡ none_declared }
    {
        Declared {
            names: Vec::new(alloc),
            firsts: Vec::new(alloc),
            lengths: Vec::new(alloc),
            cells: Vec::new(alloc),
            inits: Vec::new(alloc),
        }
    }

    /// Adds a declaration.
    fn add(&mut self, alloc: Global, said: Declaration<'t>) -> Result<(), AllocError>
        requires { length self.old.inits.items + length said.words.items ≤ MOST_CELLS }
        ensures { OnOk result (declared_at self.new ≡ with_declaration (declared_at self.old) (declaration_at said.entry)) }
    {
        let words = said.words.len() as u32;
        put_cells(&mut self.cells, alloc, said.array, said.name, words)?;
        self.names.push(said.name)?;
        self.firsts.push(self.inits.len() as u32)?;
        self.lengths.push(length_of(said.array, words))?;
        self.inits.extend_from_slice(said.words.as_slice())?;
        Ok(())
    }

    /// Adds the declaration on a line.
    fn declare(&mut self, alloc: Global, number: u32, line: &'t [u8]) -> Result<(), FlowError>
        ensures lawful { IsLawful (declared_at self.old) → OnOk result (IsLawful (declared_at self.new)) }
        ensures ok { OnOk result (declare (declared_at self.old) number (declaration_in (line_words line.now))
            ≡ Ok (declared_at self.new)) }
        ensures few { OnOk result (length self.new.inits.items ≤ MOST_CELLS) }
        ensures err { IfErr result (λ e. e ≢ errors.NoMemory →
            declare (declared_at self.old) number (declaration_in (line_words line.now)) ≡ Err e) }
    {
        let Ok(said) = declaration_of(alloc, line) else {
            return Err(FlowError::NoMemory);
        };
        let Some(said) = said else {
            return Err(FlowError::Form { line: number });
        };
        if !is_plain_name(said.name) {
            return Err(FlowError::Name { line: number });
        }
        if index_of(&self.names, said.name) < self.names.len() {
            return Err(FlowError::Name { line: number });
        }
        if self.inits.len() > MOST_CELLS || said.words.len() > MOST_CELLS - self.inits.len() {
            return Err(FlowError::Cells { line: number });
        }
        match self.add(alloc, said) {
            Ok(()) => Ok(()),
            Err(AllocError) => Err(FlowError::NoMemory),
        }
    }
}

/// The declarations, the number of the line after them, and the text from there on.
#[derive(Drop)]
pub(crate) struct Cells<'t> {
    pub declared: Declared<'t>,
    pub next: u32,
    pub rest: &'t [u8],
}

/// Reads the declarations.
#[tactic(auto, using(crate::proofs::Lawfulness::none_lawful))]
pub(crate) fn read_cells(alloc: Global, number: u32, text: &[u8]) -> Result<Cells<'_>, FlowError>
    requires { number + length text.now < 2 ^ 32 }
    ensures ok { IfOk result (λ c. read_cells none_declared (said number (lines_of text.now)) ≡ Ok (cells_at c)) }
    ensures lawful { IfOk result (λ c. IsLawful (declared_at c.declared)) }
    ensures few { IfOk result (λ c. length c.declared.inits.items ≤ MOST_CELLS) }
    ensures room { IfOk result (λ c. c.next + length c.rest.now ≤ number + length text.now) }
    ensures err { IfErr result (λ e. e ≢ errors.NoMemory → read_cells none_declared (said number (lines_of text.now)) ≡ Err e) }
{
    let mut declared = Declared::new(alloc);
    let mut next = number;
    let mut rest = text;
    while let Some(row) = next_row(next, rest) {
        if !is_declaration(row.line) {
            return Ok(Cells {
                declared,
                next,
                rest,
            });
        }
        match declared.declare(alloc, row.number, row.line) {
            Ok(()) => {}
            Err(error) => return Err(error),
        }
        next = row.next;
        rest = row.rest;
    }
    Ok(Cells {
        declared,
        next,
        rest,
    })
}
