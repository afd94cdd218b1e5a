//! Where the representation of a form changes: a single atom, terms of at most one atom, and terms of more.
ghost use Rattle.std.specs.Prelude.{◌≡◌, IfOk};
ghost use Rattle.ft_norm.specs.Held.{IsInteger, IsMemory, Keeps};

use crate::forms::sel;
use ft_isa::{NoMemory, Op};
use ft_norm::{Form, Interner};
use std::test::Fail;

/// Whether `(x + y) - y` is `x`.
fn comes_back(forms: &mut Interner, x: Form, y: Form) -> Result<bool, NoMemory>
    requires first { IsInteger forms.old x }
    requires second { IsInteger forms.old y }
    ensures { Keeps forms.old forms.new }
{
    let more = forms.op(Op::Add, x, y)?;
    let back = forms.op(Op::Sub, more, y)?;
    Ok(forms.same(back, x))
}

fn atom_alone_is_one_form(forms: &mut Interner) -> Result<bool, NoMemory> {
    let x = forms.var(0)?;
    let one = forms.word(1)?;
    if !comes_back(forms, x, one)? {
        return Ok(false);
    }
    if !comes_back(forms, one, x)? {
        return Ok(false);
    }
    if !comes_back(forms, x, x)? {
        return Ok(false);
    }
    Ok(true)
}

fn products_come_and_go(forms: &mut Interner) -> Result<bool, NoMemory> {
    let x = forms.var(0)?;
    let y = forms.var(1)?;
    let product = forms.op(Op::Mul, x, y)?;
    if !comes_back(forms, x, product)? {
        return Ok(false);
    }
    if !comes_back(forms, product, x)? {
        return Ok(false);
    }
    if !comes_back(forms, product, product)? {
        return Ok(false);
    }
    Ok(true)
}

/// The product of two products.
#[tactic(auto, using(ft_norm::proofs::HeldForms::keeps_both))]
fn by_pairs(forms: &mut Interner, a: Form, b: Form, c: Form, d: Form) -> Result<Form, NoMemory>
    requires first { IsInteger forms.old a }
    requires second { IsInteger forms.old b }
    requires third { IsInteger forms.old c }
    requires fourth { IsInteger forms.old d }
    ensures kept { Keeps forms.old forms.new }
    ensures sort { IfOk result (λ f. IsInteger forms.new f) }
{
    let left = forms.op(Op::Mul, a, b)?;
    let right = forms.op(Op::Mul, c, d)?;
    Ok(forms.op(Op::Mul, left, right)?)
}

/// The product of four forms, one by one from the last.
#[tactic(auto, using(ft_norm::proofs::HeldForms::keeps_both))]
fn one_by_one(forms: &mut Interner, a: Form, b: Form, c: Form, d: Form) -> Result<Form, NoMemory>
    requires first { IsInteger forms.old a }
    requires second { IsInteger forms.old b }
    requires third { IsInteger forms.old c }
    requires fourth { IsInteger forms.old d }
    ensures kept { Keeps forms.old forms.new }
    ensures sort { IfOk result (λ f. IsInteger forms.new f) }
{
    let two = forms.op(Op::Mul, d, c)?;
    let three = forms.op(Op::Mul, b, two)?;
    Ok(forms.op(Op::Mul, three, a)?)
}

/// Whether the product of four forms is the same when made in pairs and when made one by one from the last.
#[tactic(auto, using(ft_norm::proofs::HeldForms::keeps_both))]
fn commute(forms: &mut Interner, a: Form, b: Form, c: Form, d: Form) -> Result<bool, NoMemory>
    requires first { IsInteger forms.old a }
    requires second { IsInteger forms.old b }
    requires third { IsInteger forms.old c }
    requires fourth { IsInteger forms.old d }
    ensures { Keeps forms.old forms.new }
{
    let pairs = by_pairs(forms, a, b, c, d)?;
    let four = one_by_one(forms, a, b, c, d)?;
    Ok(forms.same(pairs, four))
}

fn four_atoms_are_in_one_order(forms: &mut Interner) -> Result<bool, NoMemory> {
    let a = forms.var(0)?;
    let b = forms.var(1)?;
    let c = forms.var(2)?;
    let d = forms.var(3)?;
    if !commute(forms, a, b, c, d)? {
        return Ok(false);
    }
    if !commute(forms, d, b, c, a)? {
        return Ok(false);
    }
    if !commute(forms, c, a, d, b)? {
        return Ok(false);
    }
    Ok(true)
}

fn equal_atoms_are_kept(forms: &mut Interner) -> Result<bool, NoMemory> {
    let a = forms.var(0)?;
    let b = forms.var(1)?;
    if !commute(forms, a, a, a, a)? {
        return Ok(false);
    }
    if !commute(forms, b, a, b, a)? {
        return Ok(false);
    }
    if !commute(forms, a, a, b, a)? {
        return Ok(false);
    }
    Ok(true)
}

/// Whether `x` times two numbers is 0.
#[tactic(auto, using(ft_norm::proofs::HeldForms::keeps_both))]
fn vanishes(forms: &mut Interner, x: Form, first: u64, second: u64) -> Result<bool, NoMemory>
    requires { IsInteger forms.old x }
    ensures { Keeps forms.old forms.new }
{
    let first = forms.word(first)?;
    let second = forms.word(second)?;
    let once = forms.op(Op::Mul, x, first)?;
    let twice = forms.op(Op::Mul, once, second)?;
    let zero = forms.word(0)?;
    Ok(forms.same(twice, zero))
}

fn coefficients_vanish(forms: &mut Interner) -> Result<bool, NoMemory> {
    let x = forms.var(0)?;
    let square = forms.op(Op::Mul, x, x)?;
    if !vanishes(forms, x, 0, 1)? {
        return Ok(false);
    }
    if !vanishes(forms, x, 1 << 63, 2)? {
        return Ok(false);
    }
    if !vanishes(forms, square, 1 << 32, 1 << 32)? {
        return Ok(false);
    }
    if vanishes(forms, square, 1 << 31, 1 << 32)? {
        return Ok(false);
    }
    Ok(true)
}

/// Whether the word written at `at` is still found there after an update at `past`.
#[tactic(auto, using(ft_norm::proofs::HeldForms::keeps_both))]
fn is_passed(forms: &mut Interner, at: Form, past: Form) -> Result<bool, NoMemory>
    requires first { IsInteger forms.old at }
    requires second { IsInteger forms.old past }
    ensures { Keeps forms.old forms.new }
{
    let memory = forms.memory()?;
    let put = forms.upd(memory, at, at)?;
    let over = forms.upd(put, past, past)?;
    let found = sel(forms, over, at)?;
    Ok(forms.same(found, at))
}

/// Whether a form and that form plus 1 are known to differ as addresses, whichever is written first.
#[tactic(auto, using(ft_norm::proofs::HeldForms::keeps_both))]
fn next_is_passed(forms: &mut Interner, at: Form) -> Result<bool, NoMemory>
    requires { IsInteger forms.old at }
    ensures { Keeps forms.old forms.new }
{
    let one = forms.word(1)?;
    let next = forms.op(Op::Add, at, one)?;
    let up = is_passed(forms, at, next)?;
    let down = is_passed(forms, next, at)?;
    Ok(up && down)
}

fn addresses_differ_by_a_constant(forms: &mut Interner) -> Result<bool, NoMemory> {
    let five = forms.word(5)?;
    if !next_is_passed(forms, five)? {
        return Ok(false);
    }
    let x = forms.var(0)?;
    if !next_is_passed(forms, x)? {
        return Ok(false);
    }
    let double = forms.op(Op::Add, x, x)?;
    if !next_is_passed(forms, double)? {
        return Ok(false);
    }
    let square = forms.op(Op::Mul, x, x)?;
    if !next_is_passed(forms, square)? {
        return Ok(false);
    }
    Ok(true)
}

fn other_addresses_are_not_known_to_differ(forms: &mut Interner) -> Result<bool, NoMemory> {
    let x = forms.var(0)?;
    let double = forms.op(Op::Add, x, x)?;
    let square = forms.op(Op::Mul, x, x)?;
    if is_passed(forms, x, double)? {
        return Ok(false);
    }
    if is_passed(forms, double, square)? {
        return Ok(false);
    }
    if is_passed(forms, square, x)? {
        return Ok(false);
    }
    Ok(true)
}

/// Whether each of these tests passes.
fn all_edges(forms: &mut Interner) -> Result<bool, NoMemory> {
    Ok(
        atom_alone_is_one_form(forms)?
            && products_come_and_go(forms)?
            && four_atoms_are_in_one_order(forms)?
            && equal_atoms_are_kept(forms)?
            && coefficients_vanish(forms)?
            && addresses_differ_by_a_constant(forms)?
            && other_addresses_are_not_known_to_differ(forms)?,
    )
}

#[test]
fn forms_at_the_edges(rt: HostRuntime) -> Result<(), Fail> {
    let mut forms = Interner::new(rt.alloc())?;
    let passed = all_edges(&mut forms)?;
    assert!(rt; passed);
    Ok(())
}
