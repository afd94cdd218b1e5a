//! Reads the lines of nodes after their first word, and writes them.
ghost use Rattle.std.specs.Prelude.{◌≡◌, [], ◌∷◌, ◌++◌, decimal, option_map, OnOk};
ghost use Rattle.ft_text.specs.LineWords.{words_of};
ghost use Rattle.ft_asm.specs.Operands.{form_words};
ghost use Rattle.ft_asm.specs.Forms.{row_in};
ghost use Rattle.ft_asm.specs.NodeForms.{shape_form, word_row, var_row, op_shape_row, sel_row, memory_row, upd_row, rem_row, op_shape_in, shape_in, node_in};
ghost use Rattle.ft_asm.specs.Reads.{line_text, spaced};
ghost use Rattle.ft_asm.specs.declared.line.Line.TheVariants as lines;

use crate::fields::{end, is_same, take_byte, take_index, take_word};
use crate::line::Line;
use crate::writing::{put, put_number, put_op};
use ft_isa::{NoMemory, Op};
use ft_static::{Node, Shape};
use ft_text::next_word;

/// Reads a word node; returns it and the text after its words.
fn word_shape(text: &[u8]) -> Option<(Shape, &[u8])>
    ensures { row_in word_row (words_of text.now) ≡ option_map (λ p. (p.0, words_of p.1.now)) result }
{
    let (word, text) = take_word(text)?;
    Some((Shape::Word(word), text))
}

/// Reads a variable node.
fn var_shape(text: &[u8]) -> Option<(Shape, &[u8])>
    ensures { row_in var_row (words_of text.now) ≡ option_map (λ p. (p.0, words_of p.1.now)) result }
{
    let (i, text) = take_byte(text)?;
    Some((Shape::Var(i), text))
}

/// Reads a node of this operation.
fn op_shape_of(op: Op, text: &[u8]) -> Option<(Shape, &[u8])>
    ensures { row_in (op_shape_row op) (words_of text.now) ≡ option_map (λ p. (p.0, words_of p.1.now)) result }
{
    let (a, text) = take_index(text)?;
    let (b, text) = take_index(text)?;
    Some((Shape::Op { op, a, b }, text))
}

/// Reads an operation node, given its word.
fn op_shape<'t>(word: &[u8], text: &'t [u8]) -> Option<(Shape, &'t [u8])>
    ensures { op_shape_in word.now (words_of text.now) ≡ option_map (λ p. (p.0, words_of p.1.now)) result }
{
    let Some(op) = Op::of_word(word) else {
        return None;
    };
    op_shape_of(op, text)
}

/// Reads a `sel` node.
fn sel_shape(text: &[u8]) -> Option<(Shape, &[u8])>
    ensures { row_in sel_row (words_of text.now) ≡ option_map (λ p. (p.0, words_of p.1.now)) result }
{
    let (memory, text) = take_index(text)?;
    let (at, text) = take_index(text)?;
    Some((Shape::Sel { memory, at }, text))
}

/// Reads an `upd` node.
fn upd_shape(text: &[u8]) -> Option<(Shape, &[u8])>
    ensures { row_in upd_row (words_of text.now) ≡ option_map (λ p. (p.0, words_of p.1.now)) result }
{
    let (memory, text) = take_index(text)?;
    let (at, text) = take_index(text)?;
    let (value, text) = take_index(text)?;
    Some((Shape::Upd { memory, at, value }, text))
}

/// Reads a `rem` node.
fn rem_shape(text: &[u8]) -> Option<(Shape, &[u8])>
    ensures { row_in rem_row (words_of text.now) ≡ option_map (λ p. (p.0, words_of p.1.now)) result }
{
    let (a, text) = take_index(text)?;
    let (length, text) = take_index(text)?;
    Some((Shape::Rem { a, length }, text))
}

/// Reads a node, given the word after its scope.
fn shape_of<'t>(word: &[u8], text: &'t [u8]) -> Option<(Shape, &'t [u8])>
    ensures { shape_in word.now (words_of text.now) ≡ option_map (λ p. (p.0, words_of p.1.now)) result }
{
    if is_same(word, b"word") {
        return word_shape(text);
    }
    if is_same(word, b"var") {
        return var_shape(text);
    }
    if is_same(word, b"sel") {
        return sel_shape(text);
    }
    if is_same(word, b"memory") {
        return Some((Shape::Memory, text));
    }
    if is_same(word, b"upd") {
        return upd_shape(text);
    }
    if is_same(word, b"rem") {
        return rem_shape(text);
    }
    op_shape(word, text)
}

/// Reads a node.
pub(crate) fn node_of(text: &[u8]) -> Option<Line>
    ensures { result ≡ node_in (words_of text.now) }
{
    let (scope, text) = take_byte(text)?;
    let (word, text) = next_word(text)?;
    let (shape, text) = shape_of(word, text)?;
    end(text, Line::Node(Node { scope, shape }))
}

/// Appends two numbers, with a space between them.
fn put_pair(out: &mut Vec<u8>, a: u32, b: u32) -> Result<(), NoMemory>
    ensures { OnOk result (out.new.items ≡ out.old.items ++ spaced (decimal a ∷ decimal b ∷ [])) }
{
    put_number(out, u64::from(a))?;
    put(out, b" ")?;
    put_number(out, u64::from(b))
}

/// Appends the words of a node after its scope.
fn put_shape(out: &mut Vec<u8>, shape: Shape) -> Result<(), NoMemory>
    ensures { OnOk result (out.new.items ≡ out.old.items ++ spaced (form_words (shape_form shape))) }
{
    match shape {
        Shape::Word(word) => {
            put(out, b"word ")?;
            put_number(out, word)
        }
        Shape::Var(i) => {
            put(out, b"var ")?;
            put_number(out, u64::from(i))
        }
        Shape::Op { op, a, b } => {
            put_op(out, op)?;
            put(out, b" ")?;
            put_pair(out, a, b)
        }
        Shape::Sel { memory, at } => {
            put(out, b"sel ")?;
            put_pair(out, memory, at)
        }
        Shape::Memory => put(out, b"memory"),
        Shape::Upd { memory, at, value } => {
            put(out, b"upd ")?;
            put_pair(out, memory, at)?;
            put(out, b" ")?;
            put_number(out, u64::from(value))
        }
        Shape::Rem { a, length } => {
            put(out, b"rem ")?;
            put_pair(out, a, length)
        }
    }
}

/// Appends the line of a node.
pub(crate) fn put_node(out: &mut Vec<u8>, node: Node) -> Result<(), NoMemory>
    ensures { OnOk result (out.new.items ≡ out.old.items ++ line_text (lines.Node node)) }
{
    put(out, b"node ")?;
    put_number(out, u64::from(node.scope))?;
    put(out, b" ")?;
    put_shape(out, node.shape)?;
    put(out, b"\n")
}
