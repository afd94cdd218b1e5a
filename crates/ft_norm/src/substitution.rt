//! The forms of nodes under one substitution.
ghost use Rattle.std.specs.Prelude.{◌≡◌, ◌+◌, ◌*◌, ◌<◌, ◌≤◌, IfOk, IfSome, List, None, Some, false, length, nat_eq, nat_lt, slice_get, true};
ghost use Rattle.indexmap.specs.IndexMap.{get};
ghost use Rattle.ft_static.specs.Form.{Form as Normal, updates};
ghost use Rattle.ft_static.specs.NormalForm.{form_of, form_under};
ghost use Rattle.ft_static.specs.NodeRules.{AreNodes};
ghost use Rattle.ft_static.specs.NodeParts.{is_memory};
ghost use Rattle.ft_static.specs.NodeTree.{tree_at};
ghost use Rattle.ft_static.specs.declared.node.Node.{Node as Numbered};
ghost use Rattle.ft_norm.specs.Held.{AreIntegers, IsInteger, IsMemory, Keeps, held, polynomials, updates_held};

use crate::form::Form;
use crate::interner::{Interner, form_from};
use crate::parts::parts_of;
use ft_isa::NoMemory;
use ft_meter::Meter;
use ft_static::{Nodes, Shape};
use indexmap::IndexMap;
use std::alloc::Global;

/// When cleared, a memo with at most this many forms keeps its memory.
const FEW: usize = 64;

/// The forms made for nodes so far, under one substitution. A memo serves many calls: the form of a node is made at
/// most once.
#[derive(Drop)]
pub struct Memo {
    alloc: Global,
    made: IndexMap<u32, Form>,
}

/// The form of a variable after `ints[i]` is substituted for integer variable `i`, and `memory` for the memory
/// variable. `None` for any other node, and for a variable beyond `ints`.
fn leaf(shape: Shape, ints: &[Form], memory: Form) -> Option<Form>
    ensures { (fs gs : List Normal) → AreIntegers fs ints.now → IsMemory fs memory → IfSome result (λ f. held fs f ≡ Some (form_of (polynomials fs ints.now) (updates_held fs memory) gs shape)) }
{
    match shape {
        Shape::Var(i) => match ints.get(i as usize) {
            Some(form) => Some(*form),
            None => None,
        },
        Shape::Memory => Some(memory),
        _ => None,
    }
}

impl Memo {
    ghost use Rattle.ft_norm.specs.Memos.{IsFresh, Remembers};

    /// An empty memo.
    pub fn new(alloc: Global) -> Memo
        ensures { IsFresh result }
    {
        Memo {
            alloc,
            made: IndexMap::new(alloc),
        }
    }

    /// For how many nodes it remembers a form.
    #[inline]
    pub fn len(&self) -> usize {
        self.made.len()
    }

    /// Forgets the forms. If there are few, their memory is kept for reuse; if there are more, it is freed, so clearing
    /// never takes longer than making them did.
    pub fn clear(&mut self)
        ensures { IsFresh self.new }
    {
        if self.made.len() <= FEW {
            self.made.clear();
        } else {
            self.made = IndexMap::new(self.alloc);
        }
    }

    /// Forgets the forms that are not among the first `count` of the interner.
    pub fn keep_first(&mut self, count: usize)
        ensures { (ns : List Numbered) (fs gs : List Normal) (ints : List Form) (memory : Form) → Remembers ns gs ints memory self.old → length fs ≡ count → Keeps fs gs → AreIntegers fs ints → IsMemory fs memory → Remembers ns fs ints memory self.new }
    {
        // The proof knows that no node has two forms only from such a call.
        let _nodes = self.made.len();
        self.made.retain(
            |_node: &u32, form: &mut Form| -> bool
                ensures { (result ≡ nat_lt form.old.0 count) × (form.new ≡ form.old) }
            { (form.0 as usize) < count },
        );
    }

    /// The form of node `n` after `ints[i]` is substituted for integer variable `i`, and `memory` for the memory
    /// variable, as `Interner::under` gives it. Forms made before are reused. No memory is needed for a variable within
    /// `ints` or for a node whose form was made before. After an error the forms made so far stay.
    #[inline]
    pub fn form<N: Nodes, M: Meter>(
        &mut self,
        forms: &mut Interner,
        nodes: &N,
        n: u32,
        ints: &[Form],
        memory: Form,
        meter: &mut M,
    ) -> Result<Form, NoMemory>
        requires nodes { AreNodes (N.nodes nodes.now) }
        requires node { n < length (N.nodes nodes.now) }
        requires ints { AreIntegers forms.old ints.now }
        requires memory { IsMemory forms.old memory }
        requires made { Remembers (N.nodes nodes.now) forms.old ints.now memory self.old }
        ensures kept { Keeps forms.old forms.new }
        ensures made { Remembers (N.nodes nodes.now) forms.new ints.now memory self.new }
        ensures form { IfOk result (λ f. held forms.new f ≡ Some (form_under (polynomials forms.old ints.now) (updates_held forms.old memory) (tree_at (N.nodes nodes.now) n))) }
        ensures integer { (x : Numbered) → slice_get (N.nodes nodes.now) n ≡ Some x → is_memory x.shape ≡ false → IfOk result (λ f. IsInteger forms.new f) }
        ensures memory { (x : Numbered) → slice_get (N.nodes nodes.now) n ≡ Some x → is_memory x.shape ≡ true → IfOk result (λ f. IsMemory forms.new f) }
        ensures count { IfOk result (λ f. updates (updates_held forms.new f) ≤ updates (updates_held forms.old memory) + n) }
        ensures steps { M.counted meter.new ≤ M.counted meter.old + (n + 1) * (1 + updates (updates_held forms.old memory) + n) }
    {
        if let Some(form) = leaf(nodes.node(n).shape, ints, memory) {
            meter.take(1)?;
            return Ok(form);
        }
        if let Some(form) = self.made.get(&n) {
            return Ok(*form);
        }
        self.make(forms, nodes, n, ints, memory, meter)
    }

    /// Makes the form of a node that has none yet. Each node of its tree that has no form yet is handled once, after
    /// its parts and without recursion.
    #[inline(never)]
    fn make<N: Nodes, M: Meter>(
        &mut self,
        forms: &mut Interner,
        nodes: &N,
        n: u32,
        ints: &[Form],
        memory: Form,
        meter: &mut M,
    ) -> Result<Form, NoMemory>
        requires nodes { AreNodes (N.nodes nodes.now) }
        requires node { n < length (N.nodes nodes.now) }
        requires ints { AreIntegers forms.old ints.now }
        requires memory { IsMemory forms.old memory }
        requires made { Remembers (N.nodes nodes.now) forms.old ints.now memory self.old }
        requires absent { get nat_eq self.old.made n ≡ None }
        ensures kept { Keeps forms.old forms.new }
        ensures made { Remembers (N.nodes nodes.now) forms.new ints.now memory self.new }
        ensures form { IfOk result (λ f. held forms.new f ≡ Some (form_under (polynomials forms.old ints.now) (updates_held forms.old memory) (tree_at (N.nodes nodes.now) n))) }
        ensures steps { M.counted meter.new ≤ M.counted meter.old + (n + 1) * (1 + updates (updates_held forms.old memory) + n) }
    {
        let mut open: Vec<u32> = Vec::new(self.alloc);
        let mut k = n;
        loop {
            match parts_of(&self.made, nodes.node(k).shape) {
                Err(part) => {
                    match open.push(k) {
                        Ok(()) => {}
                        Err(_) => return Err(NoMemory),
                    }
                    k = part;
                }
                Ok(parts) => {
                    meter.take(1)?;
                    let form = form_from(forms, parts, ints, memory, meter)?;
                    match self.made.insert(k, form) {
                        Ok(_) => {}
                        Err(_) => return Err(NoMemory),
                    }
                    match open.pop() {
                        Some(above) => k = above,
                        None => return Ok(form),
                    }
                }
            }
        }
    }
}
