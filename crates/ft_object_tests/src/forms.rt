ghost use Rattle.std.specs.Prelude.{◌≡◌, ◌+◌, ◌<◌, ◌≤◌, IfOk};
ghost use Rattle.ft_norm.specs.Held.{IsInteger, IsMemory, Keeps};

use ft_isa::{NoMemory, Op, Steps};
use ft_norm::{Form, Interner};
use ft_static::{Node, Nodes, Shape, examples_of_nodes};
use std::marker::Brand;
use std::sync::ledger::{Blank, Ledger};
use std::test::Fail;

/// The sum of `count` variables from `first`, each added on the right or on the left.
#[tactic(auto, using(ft_norm::proofs::HeldForms::keeps_both))]
fn sum(forms: &mut Interner, first: u8, count: u8, on_right: bool) -> Result<Form, NoMemory>
    requires { first + count ≤ 255 }
    ensures kept { Keeps forms.old forms.new }
    ensures sort { IfOk result (λ f. IsInteger forms.new f) }
{
    let mut total = forms.word(0)?;
    for i in 0..count {
        let variable = forms.var(first + i)?;
        total = if on_right {
            forms.op(Op::Add, total, variable)?
        } else {
            forms.op(Op::Add, variable, total)?
        };
    }
    Ok(total)
}

/// The word of a memory at an address, read with a new step counter.
fn counted<L: Ledger>(
    forms: &mut Interner,
    memory: Form,
    at: Form,
    blank: Blank,
) -> Result<Form, NoMemory>
    requires name { blank.name ≡ L.name }
    requires parts { blank.parts ≡ L.parts }
    requires some { 0 < L.parts }
    requires memory { IsMemory forms.old memory }
    requires address { IsInteger forms.old at }
    ensures kept { Keeps forms.old forms.new }
    ensures sort { IfOk result (λ f. IsInteger forms.new f) }
{
    let mut steps = Steps::<L>::new(blank);
    forms.sel(memory, at, &mut steps)
}

/// The same, with the counter in a new ledger.
pub fn sel(forms: &mut Interner, memory: Form, at: Form) -> Result<Form, NoMemory>
    requires memory { IsMemory forms.old memory }
    requires address { IsInteger forms.old at }
    ensures kept { Keeps forms.old forms.new }
    ensures sort { IfOk result (λ f. IsInteger forms.new f) }
{
    counted::<Brand>(forms, memory, at, Blank::new(1))
}

/// A tower of comparisons over a variable, each comparing the one below with itself.
#[tactic(auto, using(ft_norm::proofs::HeldForms::keeps_both))]
fn tower(forms: &mut Interner, variable: u8, height: u32) -> Result<Form, NoMemory>
    ensures kept { Keeps forms.old forms.new }
    ensures sort { IfOk result (λ f. IsInteger forms.new f) }
{
    let mut top = forms.var(variable)?;
    for _ in 0..height {
        top = forms.op(Op::Ltu, top, top)?;
    }
    Ok(top)
}

fn towers_are_compared_by_number(forms: &mut Interner) -> Result<bool, NoMemory> {
    let x = tower(forms, 0, 100_000)?;
    let again = tower(forms, 0, 100_000)?;
    if !forms.same(x, again) {
        return Ok(false);
    }
    let y = tower(forms, 1, 100_000)?;
    let up = forms.op(Op::Add, x, y)?;
    let down = forms.op(Op::Add, y, x)?;
    if !forms.same(up, down) {
        return Ok(false);
    }
    Ok(true)
}

/// Two towers of comparisons, added at each level: each level compares both with the sum of the level below.
#[tactic(auto, using(ft_norm::proofs::HeldForms::keeps_both))]
fn levels(forms: &mut Interner, height: u32) -> Result<Form, NoMemory>
    ensures kept { Keeps forms.old forms.new }
    ensures sort { IfOk result (λ f. IsInteger forms.new f) }
{
    let mut left = forms.var(0)?;
    let mut right = forms.var(1)?;
    let mut sum = forms.op(Op::Add, left, right)?;
    for _ in 0..height {
        left = forms.op(Op::Ltu, left, sum)?;
        right = forms.op(Op::Ltu, right, sum)?;
        sum = forms.op(Op::Add, right, left)?;
    }
    Ok(sum)
}

#[test]
fn sums_at_many_levels_do_not_go_down(rt: HostRuntime) -> Result<(), Fail> {
    let mut forms = Interner::keyed(rt.alloc(), 1, 2)?;
    let top = levels(&mut forms, 100_000)?;
    let again = levels(&mut forms, 100_000)?;
    assert!(rt; forms.same(top, again));
    Ok(())
}

/// Whether the product of the sum and the difference of two forms is the difference of their squares.
fn is_binomial(forms: &mut Interner, p: Form, q: Form) -> Result<bool, NoMemory>
    requires first { IsInteger forms.old p }
    requires second { IsInteger forms.old q }
    ensures { Keeps forms.old forms.new }
{
    let sum = forms.op(Op::Add, p, q)?;
    let difference = forms.op(Op::Sub, p, q)?;
    let product = forms.op(Op::Mul, sum, difference)?;
    let square = forms.op(Op::Mul, p, p)?;
    let other = forms.op(Op::Mul, q, q)?;
    let squares = forms.op(Op::Sub, square, other)?;
    Ok(forms.same(product, squares))
}

fn forms_do_not_depend_on_the_order_of_making(forms: &mut Interner) -> Result<bool, NoMemory> {
    let x = forms.var(0)?;
    let y = forms.var(1)?;
    let p = forms.op(Op::Ltu, x, y)?;
    let q = forms.op(Op::Eq, x, y)?;
    if !is_binomial(forms, p, q)? {
        return Ok(false);
    }
    if !is_binomial(forms, q, p)? {
        return Ok(false);
    }
    Ok(true)
}

fn sums_drop_zeros_and_order_terms(forms: &mut Interner) -> Result<bool, NoMemory> {
    let x = forms.var(0)?;
    let y = forms.var(1)?;
    let up = forms.op(Op::Add, x, y)?;
    let down = forms.op(Op::Add, y, x)?;
    if !forms.same(up, down) {
        return Ok(false);
    }
    let less = forms.op(Op::Sub, up, y)?;
    if !forms.same(less, x) {
        return Ok(false);
    }
    if forms.same(less, y) {
        return Ok(false);
    }
    let turned = forms.op(Op::Sub, y, up)?;
    if forms.same(less, turned) {
        return Ok(false);
    }
    Ok(true)
}

fn words_wrap(forms: &mut Interner) -> Result<bool, NoMemory> {
    let most = forms.word(u64::MAX)?;
    let one = forms.word(1)?;
    let sum = forms.op(Op::Add, most, one)?;
    let zero = forms.word(0)?;
    if !forms.same(sum, zero) {
        return Ok(false);
    }
    if forms.same(sum, one) {
        return Ok(false);
    }
    let memory = forms.memory()?;
    if forms.same(memory, zero) {
        return Ok(false);
    }
    Ok(true)
}

fn limits_are_64_monomials_and_64_products(forms: &mut Interner) -> Result<bool, NoMemory> {
    let right = sum(forms, 0, 64, true)?;
    let left = sum(forms, 0, 64, false)?;
    if !forms.same(right, left) {
        return Ok(false);
    }
    let nothing = forms.op(Op::Sub, right, left)?;
    let zero = forms.word(0)?;
    if !forms.same(nothing, zero) {
        return Ok(false);
    }
    let right = sum(forms, 0, 65, true)?;
    let left = sum(forms, 0, 65, false)?;
    if forms.same(right, left) {
        return Ok(false);
    }
    Ok(true)
}

fn products_within_the_limits_commute(forms: &mut Interner) -> Result<bool, NoMemory> {
    let p = sum(forms, 0, 8, true)?;
    let q = sum(forms, 8, 8, true)?;
    let pq = forms.op(Op::Mul, p, q)?;
    let qp = forms.op(Op::Mul, q, p)?;
    if !forms.same(pq, qp) {
        return Ok(false);
    }
    let p = sum(forms, 0, 5, true)?;
    let q = sum(forms, 5, 13, true)?;
    let pq = forms.op(Op::Mul, p, q)?;
    let qp = forms.op(Op::Mul, q, p)?;
    if forms.same(pq, qp) {
        return Ok(false);
    }
    Ok(true)
}

fn constants_are_tested(forms: &mut Interner) -> Result<bool, NoMemory> {
    let one = forms.word(1)?;
    let two = forms.word(2)?;
    let less = forms.op(Op::Ltu, one, two)?;
    if !forms.same(less, one) {
        return Ok(false);
    }
    let more = forms.op(Op::Ltu, two, one)?;
    if forms.same(more, one) {
        return Ok(false);
    }
    let x = forms.var(0)?;
    let equal = forms.op(Op::Eq, x, x)?;
    if forms.same(equal, one) {
        return Ok(false);
    }
    Ok(true)
}

fn walk_goes_past_a_known_difference(forms: &mut Interner) -> Result<bool, NoMemory> {
    let memory = forms.memory()?;
    let seven = forms.word(7)?;
    let x = forms.var(0)?;
    let at_x = forms.upd(memory, x, seven)?;
    let next = forms.op(Op::Add, x, seven)?;
    let past_x = forms.upd(at_x, next, x)?;
    let found = sel(forms, past_x, x)?;
    if !forms.same(found, seven) {
        return Ok(false);
    }
    Ok(true)
}

fn walk_stops_at_the_unknown(forms: &mut Interner) -> Result<bool, NoMemory> {
    let memory = forms.memory()?;
    let seven = forms.word(7)?;
    let y = forms.var(1)?;
    let x = forms.var(0)?;
    let at_x = forms.upd(memory, x, seven)?;
    let then_y = forms.upd(at_x, y, x)?;
    let unknown = sel(forms, then_y, x)?;
    if forms.same(unknown, seven) {
        return Ok(false);
    }
    Ok(true)
}

fn newest_update_is_replaced(forms: &mut Interner) -> Result<bool, NoMemory> {
    let x = forms.var(0)?;
    let y = forms.var(1)?;
    let memory = forms.memory()?;
    let at_y = forms.upd(memory, x, y)?;
    let at_x = forms.upd(memory, x, x)?;
    if forms.same(at_x, at_y) {
        return Ok(false);
    }
    let again = forms.upd(at_y, x, x)?;
    if !forms.same(again, at_x) {
        return Ok(false);
    }
    Ok(true)
}

/// The nodes of `ft_static`'s examples: the memory variable, variable 0, the word 5, the sum of variable 0 and 5, and
/// the word of the memory at that sum.
struct Example;

impl Nodes for Example {
    ghost use Rattle.ft_static.specs.Examples.{nodes as example};

    ghost nodes = { λ _. example };

    fn node_count(&self) -> u32 {
        5
    }

    fn node(&self, n: u32) -> Node {
        match n {
            0 => Node {
                scope: 0,
                shape: Shape::Memory,
            },
            1 => Node {
                scope: 1,
                shape: Shape::Var(0),
            },
            2 => Node {
                scope: 0,
                shape: Shape::Word(5),
            },
            3 => Node {
                scope: 1,
                shape: Shape::Op {
                    op: Op::Add,
                    a: 1,
                    b: 2,
                },
            },
            _ => Node {
                scope: 1,
                shape: Shape::Sel { memory: 0, at: 3 },
            },
        }
    }
}

/// Whether the sum and the word of the example, under a substitution, are 7 and 2.
fn found<L: Ledger>(forms: &mut Interner, blank: Blank) -> Result<bool, NoMemory>
    requires name { blank.name ≡ L.name }
    requires parts { blank.parts ≡ L.parts }
    requires some { 0 < L.parts }
{
    examples_of_nodes();
    let mut steps = Steps::<L>::new(blank);
    let two = forms.word(2)?;
    let seven = forms.word(7)?;
    let memory = forms.memory()?;
    let memory = forms.upd(memory, seven, two)?;
    let sum = forms.under(&Example, 3, &[two], memory, &mut steps)?;
    let word = forms.under(&Example, 4, &[two], memory, &mut steps)?;
    Ok(forms.same(sum, seven) && forms.same(word, two))
}

fn node_is_found_under_a_substitution(forms: &mut Interner) -> Result<bool, NoMemory> {
    let right = found::<Brand>(forms, Blank::new(1))?;
    if !right {
        return Ok(false);
    }
    Ok(true)
}

/// Whether each of these tests passes.
fn all_tests(forms: &mut Interner) -> Result<bool, NoMemory> {
    Ok(
        towers_are_compared_by_number(forms)?
            && forms_do_not_depend_on_the_order_of_making(forms)?
            && sums_drop_zeros_and_order_terms(forms)?
            && words_wrap(forms)?
            && limits_are_64_monomials_and_64_products(forms)?
            && products_within_the_limits_commute(forms)?
            && constants_are_tested(forms)?
            && walk_goes_past_a_known_difference(forms)?
            && walk_stops_at_the_unknown(forms)?
            && newest_update_is_replaced(forms)?
            && node_is_found_under_a_substitution(forms)?,
    )
}

#[test]
fn forms_are_known_by_hand(rt: HostRuntime) -> Result<(), Fail> {
    let mut forms = Interner::new(rt.alloc())?;
    let passed = all_tests(&mut forms)?;
    assert!(rt; passed);
    Ok(())
}
