//! Remainders, and operations on bits.
ghost use Rattle.std.specs.Prelude.{◌≡◌, ◌≤◌, IfOk};
ghost use Rattle.ft_norm.specs.Held.{IsInteger, Keeps};

use ft_isa::{NoMemory, Op};
use ft_norm::{Form, Interner};
use std::test::Fail;

/// Whether `word` modulo `length` is `rest`.
#[tactic(auto, using(ft_norm::proofs::HeldForms::keeps_both))]
fn leaves(forms: &mut Interner, word: u64, length: u32, rest: u64) -> Result<bool, NoMemory>
    requires some { 1 ≤ length }
    requires most { length ≤ 1024 }
    ensures { Keeps forms.old forms.new }
{
    let whole = forms.word(word)?;
    let rest = forms.word(rest)?;
    let folded = forms.rem(whole, length)?;
    Ok(forms.same(folded, rest))
}

fn remainders_of_words_are_words(forms: &mut Interner) -> Result<bool, NoMemory> {
    if !leaves(forms, 0, 1, 0)? {
        return Ok(false);
    }
    if !leaves(forms, 7, 3, 1)? {
        return Ok(false);
    }
    if !leaves(forms, 6, 3, 0)? {
        return Ok(false);
    }
    if !leaves(forms, 2, 1024, 2)? {
        return Ok(false);
    }
    if !leaves(forms, u64::MAX, 1, 0)? {
        return Ok(false);
    }
    if !leaves(forms, u64::MAX, 10, 5)? {
        return Ok(false);
    }
    if !leaves(forms, u64::MAX, 1024, 1023)? {
        return Ok(false);
    }
    Ok(true)
}

/// Whether a form has the same remainder modulo two lengths.
#[tactic(auto, using(ft_norm::proofs::HeldForms::keeps_both))]
fn leave_the_same(forms: &mut Interner, x: Form, length: u32, other: u32) -> Result<bool, NoMemory>
    requires integer { IsInteger forms.old x }
    requires some { 1 ≤ length }
    requires most { length ≤ 1024 }
    requires other_some { 1 ≤ other }
    requires other_most { other ≤ 1024 }
    ensures { Keeps forms.old forms.new }
{
    let left = forms.rem(x, length)?;
    let right = forms.rem(x, other)?;
    Ok(forms.same(left, right))
}

fn remainders_are_told_by_their_length(forms: &mut Interner) -> Result<bool, NoMemory> {
    let x = forms.var(0)?;
    if !leave_the_same(forms, x, 3, 3)? {
        return Ok(false);
    }
    if leave_the_same(forms, x, 3, 4)? {
        return Ok(false);
    }
    let square = forms.op(Op::Mul, x, x)?;
    if !leave_the_same(forms, square, 1024, 1024)? {
        return Ok(false);
    }
    if leave_the_same(forms, square, 1, 1024)? {
        return Ok(false);
    }
    Ok(true)
}

fn remainders_are_atoms(forms: &mut Interner) -> Result<bool, NoMemory> {
    let x = forms.var(0)?;
    let rest = forms.rem(x, 3)?;
    let again = forms.rem(rest, 3)?;
    if forms.same(rest, x) {
        return Ok(false);
    }
    if forms.same(again, rest) {
        return Ok(false);
    }
    let zero = forms.word(0)?;
    let none = forms.rem(x, 1)?;
    if forms.same(none, zero) {
        return Ok(false);
    }
    let twice = forms.op(Op::Add, rest, rest)?;
    let once = forms.op(Op::Sub, twice, rest)?;
    if !forms.same(once, rest) {
        return Ok(false);
    }
    Ok(true)
}

/// Whether an operation on `a` and `b` gives `word`.
#[tactic(auto, using(ft_norm::proofs::HeldForms::keeps_both))]
fn gives(forms: &mut Interner, op: Op, a: u64, b: u64, word: u64) -> Result<bool, NoMemory>
    ensures { Keeps forms.old forms.new }
{
    let a = forms.word(a)?;
    let b = forms.word(b)?;
    let word = forms.word(word)?;
    let folded = forms.op(op, a, b)?;
    Ok(forms.same(folded, word))
}

fn operations_on_bits_of_words_are_words(forms: &mut Interner) -> Result<bool, NoMemory> {
    for (op, a, b, word) in [
        (Op::And, 12, 10, 8),
        (Op::Or, 12, 10, 14),
        (Op::Xor, 12, 10, 6),
        (Op::Shl, 3, 63, 1 << 63),
        (Op::Shl, 1, 64, 0),
        (Op::Shl, 1, u64::MAX, 0),
        (Op::Shr, u64::MAX, 63, 1),
        (Op::Shr, u64::MAX, 64, 0),
    ] {
        if !gives(forms, op, a, b, word)? {
            return Ok(false);
        }
    }
    Ok(true)
}

fn operations_on_bits_are_atoms(forms: &mut Interner) -> Result<bool, NoMemory> {
    let x = forms.var(0)?;
    let zero = forms.word(0)?;
    let differing = forms.op(Op::Xor, x, x)?;
    if forms.same(differing, zero) {
        return Ok(false);
    }
    let left = forms.op(Op::Shl, x, zero)?;
    let right = forms.op(Op::Shr, x, zero)?;
    if forms.same(left, right) {
        return Ok(false);
    }
    let again = forms.op(Op::Xor, x, x)?;
    if !forms.same(differing, again) {
        return Ok(false);
    }
    Ok(true)
}

/// Whether each of these tests passes.
fn all_bits(forms: &mut Interner) -> Result<bool, NoMemory> {
    Ok(
        remainders_of_words_are_words(forms)?
            && remainders_are_told_by_their_length(forms)?
            && remainders_are_atoms(forms)?
            && operations_on_bits_of_words_are_words(forms)?
            && operations_on_bits_are_atoms(forms)?,
    )
}

#[test]
fn operations_on_bits_and_remainders(rt: HostRuntime) -> Result<(), Fail> {
    let mut forms = Interner::new(rt.alloc())?;
    let passed = all_bits(&mut forms)?;
    assert!(rt; passed);
    Ok(())
}
