//! The interner: a list of distinct normal forms.
ghost use Rattle.std.specs.Prelude.{◌≡◌, ◌↔◌, ◌+◌, ◌*◌, ◌<◌, ◌≤◌, [], Some, IfOk, IfSome, IsTrue, List, length, slice_get, take, true, false};
ghost use Rattle.ft_static.specs.Expression.{Expression, HasWords, IsLawful, Valuation, denotation};
ghost use Rattle.ft_static.specs.Form.{Form as Normal, has_atom, integer_form, memory_form, unchanged, updates, variable_atom};
ghost use Rattle.ft_static.specs.NodeRules.{AreNodes};
ghost use Rattle.ft_static.specs.NodeParts.{is_memory};
ghost use Rattle.ft_static.specs.NodeTree.{tree_at};
ghost use Rattle.ft_static.specs.NormalForm.{alone, constant, form_under, norm, norm_op, norm_rem, norm_sel, norm_upd};
ghost use Rattle.ft_static.specs.declared.node.Node.{Node as Numbered};
ghost use Rattle.ft_norm.specs.Held.{AreIntegers, IsHeld, IsInteger, IsMemory, Keeps, held, polynomial, polynomials, updates_held};
ghost use Rattle.ft_norm.specs.Entries.{IsCanonical, atom_form, entry_form, polynomial_form, reach, reach_of_entry, reach_of_terms};
ghost use Rattle.ft_norm.specs.Orders.{AreTerms};
ghost use Rattle.ft_norm.specs.Parts.{HaveSorts, form_of_parts, updates_of_parts};
ghost use Rattle.ft_norm.specs.Terms.{AreOver, terms_of};
ghost use Rattle.ft_norm.specs.Walks.{EndsWithin, form_of_walk};

use crate::built::{entry_of, place_of_atom};
use crate::entry::{Entry, LinearTerm, MONOMIALS, Term, is_word, word_of};
use crate::form::Form;
use crate::keys::Keys;
use crate::substitution::Memo;
use crate::terms::{Terms, terms_at};
use crate::turns::{Path, note_paths};
use crate::walk::{Walk, below_newest, constant_in, walk_from};
use ft_isa::{NoMemory, Op, apply};
use ft_meter::Meter;
use ft_static::{Nodes, Shape};
use indexmap::{IndexMap, IndexSet};
use smallvec::SmallVec;
use std::alloc::{AllocError, Global};
use std::marker::Model;

/// The size of the cache that gives the place of a word's entry.
const RECENT: usize = 64;

/// The number of forms for which a new interner has room: a check begins with those of 129 variables.
const FIRST_ROOM: usize = 192;

/// How many updates walks pass for each whose path is noted.
const SHARE: u64 = 4;

/// The maximum number of forms, chosen so that the count and each form's number plus one fit in a `u32`.
const FORMS: usize = 4_294_967_294;

/// Normal forms of integers and memories, in a list: a `Form` keeps its meaning until `keep_first` forgets it. An interner
/// holds at most 4,294,967,294 forms. A call that makes a form returns `NoMemory` if memory runs out or that many are
/// held; even then, the forms held before stay.
#[derive(Drop)]
pub struct Interner {
    pub(crate) alloc: Global,
    entries: IndexSet<Entry, Keys>,
    /// The place where a word's entry may be, indexed by the word modulo `RECENT`. It is tried before the table.
    recent: [u32; RECENT],
    /// Paths of updates that walks have passed after many others.
    paths: IndexMap<u32, Path>,
    /// How many updates without a path long walks have passed since paths were noted.
    passed: u64,
    /// How many there must be before paths are noted.
    wanted: u64,
}

impl Model for Interner {
    ghost use Rattle.std.specs.Prelude.{List};
    ghost use Rattle.std.specs.Coded.{coded_list};
    ghost use Rattle.ft_static.specs.Form.{Form as Normal};
    ghost use Rattle.ft_static.proofs.Spelled.{form_code};
    ghost use Rattle.ft_norm.specs.Entries.{forms_of};
    ghost use Rattle.ft_norm.specs.Ways.{AreSound};

    ghost Value = { List Normal };

    ghost coded = { coded_list form_code };

    ghost view = { λ s. forms_of s.entries.keys };

    ghost invariant = { λ s. AreSound s.entries.keys s.paths };
}

impl Interner {
    /// An empty interner.
    pub fn new(alloc: Global) -> Result<Interner, NoMemory>
        ensures { IfOk result (λ s. s ≡ []) }
    {
        Interner::keyed(alloc, 0, 0)
    }

    /// An empty interner whose table hashes with these two keys. The keys affect speed but not the forms. They make it
    /// hard for an attacker who does not know them to slow the table down.
    pub fn keyed(alloc: Global, first: u64, second: u64) -> Result<Interner, NoMemory>
        ensures { IfOk result (λ s. s ≡ []) }
    {
        let keys = Keys::new(first, second);
        let entries = IndexSet::with_capacity_and_hasher(alloc, FIRST_ROOM, keys)?;
        Ok(Interner {
            alloc,
            entries,
            recent: [0; RECENT],
            paths: IndexMap::new(alloc),
            passed: 0,
            wanted: 0,
        })
    }

    /// The form of a word.
    pub fn word(&mut self, w: u64) -> Result<Form, NoMemory>
        ensures kept { Keeps self.old self.new }
        ensures form { IfOk result (λ f. held self.new f ≡ Some (integer_form (constant w))) }
        ensures sort { IfOk result (λ f. IsInteger self.new f) }
    {
        let slot = (w % RECENT as u64) as usize;
        let place = self.recent[slot];
        if self.is_word_at(place, w) {
            return Ok(Form(place));
        }
        let form = self.constant(w)?;
        self.recent[slot] = form.0;
        Ok(form)
    }

    /// The form of the integer variable with this number.
    pub fn var(&mut self, i: u8) -> Result<Form, NoMemory>
        ensures kept { Keeps self.old self.new }
        ensures form { IfOk result (λ f. held self.new f ≡ Some (integer_form (alone (variable_atom i)))) }
        ensures sort { IfOk result (λ f. IsInteger self.new f) }
    {
        let form = self.alone(Shape::Var(i))?;
        Ok(form)
    }

    /// The form of the memory variable.
    pub fn memory(&mut self) -> Result<Form, NoMemory>
        ensures kept { Keeps self.old self.new }
        ensures form { IfOk result (λ f. held self.new f ≡ Some (memory_form unchanged)) }
        ensures sort { IfOk result (λ f. IsMemory self.new f) }
    {
        let form = self.intern(Entry::Unchanged)?;
        Ok(form)
    }

    /// The form of an operation on two integers.
    pub fn op(&mut self, op: Op, a: Form, b: Form) -> Result<Form, NoMemory>
        requires first { IsInteger self.old a }
        requires second { IsInteger self.old b }
        ensures kept { Keeps self.old self.new }
        ensures form { IfOk result (λ f. held self.new f ≡ Some (integer_form (norm_op op (polynomial self.old a) (polynomial self.old b)))) }
        ensures sort { IfOk result (λ f. IsInteger self.new f) }
    {
        let c = self.word_at(a);
        let d = self.word_at(b);
        let form = match (c, d) {
            (Some(c), Some(d)) => self.word(apply(op, c, d))?,
            _ => self.computed(op, a, b)?,
        };
        Ok(form)
    }

    /// The form of an operation, paid for by the terms of its operands: those of a sum or a difference are read and
    /// written, and those of a product are multiplied with each other.
    #[inline]
    pub fn op_within<M: Meter>(
        &mut self,
        op: Op,
        a: Form,
        b: Form,
        meter: &mut M,
    ) -> Result<Form, NoMemory>
        requires first { IsInteger self.old a }
        requires second { IsInteger self.old b }
        ensures kept { Keeps self.old self.new }
        ensures form { IfOk result (λ f. held self.new f ≡ Some (integer_form (norm_op op (polynomial self.old a) (polynomial self.old b)))) }
        ensures sort { IfOk result (λ f. IsInteger self.new f) }
        ensures steps { M.counted meter.new ≡ M.counted meter.old }
    {
        let price = if M::WEIGHS { self.price(op, a, b) } else { 0 };
        meter.pay(price)?;
        self.op(op, a, b)
    }

    /// How many terms an operation reads and writes at most, and one more.
    #[inline(always)]
    fn price(&self, op: Op, a: Form, b: Form) -> u64
        requires first { IsInteger self.now a }
        requires second { IsInteger self.now b }
    {
        let p = self.terms(a).len() as u64;
        let q = self.terms(b).len() as u64;
        match op {
            Op::Add | Op::Sub => p.saturating_add(q).saturating_mul(2).saturating_add(1),
            Op::Mul => p
                .saturating_mul(q)
                .min(MONOMIALS as u64)
                .saturating_mul(2)
                .saturating_add(1),
            _ => 1,
        }
    }

    /// The form of the remainder of an integer divided by a length.
    pub fn rem(&mut self, a: Form, length: u32) -> Result<Form, NoMemory>
        requires integer { IsInteger self.old a }
        requires some { 1 ≤ length }
        requires most { length ≤ 1024 }
        ensures kept { Keeps self.old self.new }
        ensures form { IfOk result (λ f. held self.new f ≡ Some (integer_form (norm_rem (polynomial self.old a) length))) }
        ensures sort { IfOk result (λ f. IsInteger self.new f) }
    {
        let form = match constant_in(self.terms(a)) {
            Some(c) => self.constant(c % u64::from(length))?,
            None => self.alone(Shape::Rem { a: a.0, length })?,
        };
        Ok(form)
    }

    /// The form of the word that a memory holds at an address. A step is counted for each update at which the walk goes on
    /// to an older one.
    pub fn sel<M: Meter>(&mut self, memory: Form, at: Form, meter: &mut M) -> Result<Form, NoMemory>
        requires memory { IsMemory self.old memory }
        requires address { IsInteger self.old at }
        ensures kept { Keeps self.old self.new }
        ensures form { IfOk result (λ f. held self.new f ≡ Some (integer_form (norm_sel (updates_held self.old memory) (polynomial self.old at)))) }
        ensures sort { IfOk result (λ f. IsInteger self.new f) }
        ensures steps { M.counted meter.new ≤ M.counted meter.old + updates (updates_held self.old memory) }
    {
        let walk = self.walked(memory, at, meter)?;
        let form = match walk {
            Walk::Value(value) => Form(value),
            Walk::Stop(older) => self.alone(Shape::Sel {
                memory: older,
                at: at.0,
            })?,
        };
        Ok(form)
    }

    /// The form of a memory with another word at one address.
    pub fn upd(&mut self, memory: Form, at: Form, value: Form) -> Result<Form, NoMemory>
        requires memory { IsMemory self.old memory }
        requires address { IsInteger self.old at }
        requires value { IsInteger self.old value }
        ensures kept { Keeps self.old self.new }
        ensures form { IfOk result (λ f. held self.new f ≡ Some (memory_form (norm_upd (updates_held self.old memory) (polynomial self.old at) (polynomial self.old value)))) }
        ensures sort { IfOk result (λ f. IsMemory self.new f) }
    {
        let older = below_newest(self.entries.as_slice(), memory.0, at.0);
        let form = self.intern(Entry::Update {
            at: at.0,
            value: value.0,
            older,
        })?;
        Ok(form)
    }

    /// The form of node `n` after `ints[i]` is substituted for integer variable `i`, and `memory` for the memory
    /// variable. The nodes obey their rules, and the scope of node `n` is at most the number of `ints`. Each node that
    /// the tree reaches is handled once, after its parts and without recursion. A step is counted for each of these
    /// nodes, and for each update at which a walk goes on.
    pub fn under<N: Nodes, M: Meter>(
        &mut self,
        nodes: &N,
        n: u32,
        ints: &[Form],
        memory: Form,
        meter: &mut M,
    ) -> Result<Form, NoMemory>
        requires nodes { AreNodes (N.nodes nodes.now) }
        requires node { n < length (N.nodes nodes.now) }
        requires scope { (x : Numbered) → slice_get (N.nodes nodes.now) n ≡ Some x → x.scope ≤ length ints.now }
        requires ints { AreIntegers self.old ints.now }
        requires memory { IsMemory self.old memory }
        ensures kept { Keeps self.old self.new }
        ensures form { IfOk result (λ f. held self.new f ≡ Some (form_under (polynomials self.old ints.now) (updates_held self.old memory) (tree_at (N.nodes nodes.now) n))) }
        ensures integer { (x : Numbered) → slice_get (N.nodes nodes.now) n ≡ Some x → is_memory x.shape ≡ false → IfOk result (λ f. IsInteger self.new f) }
        ensures memory { (x : Numbered) → slice_get (N.nodes nodes.now) n ≡ Some x → is_memory x.shape ≡ true → IfOk result (λ f. IsMemory self.new f) }
        ensures count { IfOk result (λ f. updates (updates_held self.new f) ≤ updates (updates_held self.old memory) + n) }
        ensures steps { M.counted meter.new ≤ M.counted meter.old + (n + 1) * (1 + updates (updates_held self.old memory) + n) }
    {
        let mut memo = Memo::new(self.alloc);
        memo.form(self, nodes, n, ints, memory, meter)
    }

    /// Whether two forms, of either sort, are equal. If so, expressions with these forms denote the same value.
    pub fn same(&self, a: Form, b: Form) -> bool
        requires first { IsHeld self.now a }
        requires second { IsHeld self.now b }
        ensures exact { IsTrue result ↔ (held self.now a ≡ held self.now b) }
        ensures denotes { (x y : Expression) (s : Valuation) → IsTrue result → held self.now a ≡ Some (norm x) → held self.now b ≡ Some (norm y) → HasWords x → HasWords y → IsLawful s → denotation x s ≡ denotation y s }
    {
        // The proof knows the invariant, that equal entries have the same number, only where a field is read, so one is
        // read here.
        let _entries = &self.entries;
        a.0 == b.0
    }

    /// Walks the updates of a memory for an address, and notes paths through them if the walk was long.
    fn walked<M: Meter>(&mut self, memory: Form, at: Form, meter: &mut M) -> Result<Walk, NoMemory>
        requires memory { IsMemory self.old memory }
        requires address { IsInteger self.old at }
        ensures same { self.new ≡ self.old }
        ensures ends { IfOk result (EndsWithin self.old) }
        ensures form { IfOk result (λ w. form_of_walk self.old at.0 w ≡ norm_sel (updates_held self.old memory) (polynomial self.old at)) }
        ensures steps { M.counted meter.new ≤ M.counted meter.old + updates (updates_held self.old memory) }
    {
        let mut far = 0;
        let entries = self.entries.as_slice();
        let walk = walk_from(entries, &self.paths, memory.0, at.0, &mut far, meter)?;
        if far > 0 {
            self.note(memory, far)?;
        }
        Ok(walk)
    }

    /// Notes the paths of the updates of a memory as soon as walks have passed `SHARE` times as many updates without a
    /// path. So the time to note them, even in vain, is a fraction of that of the walks.
    #[inline(never)]
    fn note(&mut self, memory: Form, passed: u64) -> Result<(), AllocError>
        requires memory { IsMemory self.old memory }
        ensures same { self.new ≡ self.old }
    {
        self.passed = self.passed.saturating_add(passed);
        if self.passed < self.wanted {
            return Ok(());
        }
        let most = self.passed / SHARE;
        let entries = self.entries.as_slice();
        let noted = note_paths(self.alloc, entries, &mut self.paths, memory.0, most)?;
        if noted {
            self.passed = 0;
            self.wanted = 0;
        } else {
            self.wanted = self.passed.saturating_mul(2);
        }
        Ok(())
    }

    /// How many forms are held.
    pub fn count(&self) -> usize
        ensures { result ≡ length self.now }
    {
        self.entries.len()
    }

    /// Forgets all forms but the first `count`. A `Form` made after these means nothing until its place is taken again.
    /// So does what a memo remembers: `Memo::keep_first` forgets it, too.
    pub fn keep_first(&mut self, count: usize)
        ensures first { self.new ≡ take count self.old }
        ensures kept { (fs : List Normal) → length fs ≡ count → Keeps fs self.old → Keeps fs self.new }
    {
        self.entries.truncate(count);
        self.paths = IndexMap::new(self.alloc);
    }

    /// Interns an entry.
    fn intern(&mut self, entry: Entry) -> Result<Form, AllocError>
        requires reach { reach_of_entry self.old entry ≤ length self.old }
        requires canonical { IsCanonical entry }
        ensures kept { Keeps self.old self.new }
        ensures form { IfOk result (λ f. held self.new f ≡ Some (entry_form self.old entry)) }
    {
        if self.entries.len() >= FORMS {
            return Err(AllocError);
        }
        let (number, _) = self.entries.insert_full(entry)?;
        Ok(Form(number as u32))
    }

    /// The form of an operation, computed from the terms of both operands.
    fn computed(&mut self, op: Op, a: Form, b: Form) -> Result<Form, AllocError>
        requires first { IsInteger self.old a }
        requires second { IsInteger self.old b }
        ensures kept { Keeps self.old self.new }
        ensures form { IfOk result (λ f. held self.new f ≡ Some (integer_form (norm_op op (polynomial self.old a) (polynomial self.old b)))) }
    {
        match op {
            Op::Add => self.add(a, b),
            Op::Sub => self.sub(a, b),
            Op::Mul => self.mul(a, b),
            _ => self.folded(op, a, b),
        }
    }

    /// The word whose form this is. `None` proves nothing.
    fn word_at(&self, form: Form) -> Option<u64>
        ensures { IfSome result (λ w. held self.now form ≡ Some (integer_form (constant w))) }
    {
        let entries = self.entries.as_slice();
        let place = form.0 as usize;
        if place < entries.len() {
            word_of(&entries[place])
        } else {
            None
        }
    }

    /// Whether the entry in this place is that of the word `w`. `false` proves nothing.
    fn is_word_at(&self, place: u32, w: u64) -> bool
        ensures { result ≡ true → slice_get self.now place ≡ Some (integer_form (constant w)) }
    {
        let entries = self.entries.as_slice();
        let place = place as usize;
        if place < entries.len() {
            is_word(&entries[place], w)
        } else {
            false
        }
    }

    /// The terms of an integer.
    pub(crate) fn terms(&self, form: Form) -> Terms<'_>
        requires { IsInteger self.now form }
        ensures form { polynomial_form self.now (terms_of result) ≡ polynomial self.now form }
        ensures over { AreOver self.now (terms_of result) }
        ensures count { length (terms_of result) ≤ 64 }
    {
        terms_at(self.entries.as_slice(), form.0)
    }

    /// The form of these terms.
    pub(crate) fn integer(&mut self, terms: &[Term]) -> Result<Form, AllocError>
        requires terms { AreTerms terms.now }
        requires reach { reach_of_terms self.old terms.now ≤ length self.old }
        requires count { length terms.now ≤ 64 }
        ensures kept { Keeps self.old self.new }
        ensures form { IfOk result (λ f. held self.new f ≡ Some (integer_form (polynomial_form self.old terms.now))) }
    {
        match place_of_atom(terms) {
            Some(place) => Ok(Form(place)),
            None => {
                let entry = entry_of(self.alloc, terms)?;
                self.intern(entry)
            }
        }
    }

    /// The form of a word.
    pub(crate) fn constant(&mut self, w: u64) -> Result<Form, AllocError>
        ensures kept { Keeps self.old self.new }
        ensures form { IfOk result (λ f. held self.new f ≡ Some (integer_form (constant w))) }
    {
        let terms = if w == 0 {
            SmallVec::new(self.alloc)
        } else {
            let term = LinearTerm {
                atom: 0,
                coefficient: w,
            };
            SmallVec::from_buf(self.alloc, [term])
        };
        self.intern(Entry::Linear(terms))
    }

    /// The form of an atom with the coefficient 1, as a node over the forms of its parts.
    pub(crate) fn alone(&mut self, shape: Shape) -> Result<Form, AllocError>
        requires atom { has_atom shape ≡ true }
        requires reach { reach self.old shape ≤ length self.old }
        ensures kept { Keeps self.old self.new }
        ensures form { IfOk result (λ f. held self.new f ≡ Some (integer_form (alone (atom_form self.old shape)))) }
    {
        self.intern(Entry::Atom(shape))
    }
}

/// The form of a node whose parts are given as the numbers of their forms. A variable beyond `ints` is the word 0.
pub(crate) fn form_from<M: Meter>(
    forms: &mut Interner,
    parts: Shape,
    ints: &[Form],
    memory: Form,
    meter: &mut M,
) -> Result<Form, NoMemory>
    requires parts { HaveSorts forms.old parts }
    requires ints { AreIntegers forms.old ints.now }
    requires memory { IsMemory forms.old memory }
    ensures kept { Keeps forms.old forms.new }
    ensures form { IfOk result (λ f. held forms.new f ≡ Some (form_of_parts (polynomials forms.old ints.now) (updates_held forms.old memory) forms.old parts)) }
    ensures steps { M.counted meter.new ≤ M.counted meter.old + updates_of_parts forms.old parts }
{
    match parts {
        Shape::Word(w) => forms.word(w),
        Shape::Var(i) => match ints.get(i as usize) {
            Some(form) => Ok(*form),
            None => forms.word(0),
        },
        Shape::Op { op, a, b } => forms.op_within(op, Form(a), Form(b), meter),
        Shape::Sel { memory: m, at } => forms.sel(Form(m), Form(at), meter),
        Shape::Memory => Ok(memory),
        Shape::Upd {
            memory: m,
            at,
            value,
        } => forms.upd(Form(m), Form(at), Form(value)),
        Shape::Rem { a, length } => forms.rem(Form(a), length),
    }
}
