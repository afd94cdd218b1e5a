//! What the transfers of an object share.
ghost use Rattle.std.specs.Prelude.{◌≡◌, ◌+◌, ◌*◌, ◌≤◌, IfOk, List, OnOk, length};
ghost use Rattle.ft_static.specs.Form.{Form as Normal, updates};
ghost use Rattle.ft_norm.specs.Held.{Keeps, updates_held};
ghost use Rattle.ft_typing.specs.Context.{replacement};
ghost use Rattle.ft_types.specs.Spellable.{IsSpellable, IsSubst};
ghost use Rattle.ft_contexts.specs.Costs.{tree_cost};

use crate::sequence::Sequence;
use crate::variables::{OwnVariables, Variables};
use ft_isa::{NoMemory, Subst};
use ft_meter::Meter;
use ft_norm::{Form, Interner, Memo};
use ft_types::Program;
use std::alloc::Global;
use std::mem::swap;

/// What the blocks of an object share: the variables, substituted for themselves, and what the last transfer
/// substituted for its target's variables, each with the forms made for nodes under that substitution.
#[derive(Drop)]
pub struct Shared {
    pub own: OwnVariables,
    pub put: Variables,
    pub made: Memo,
    /// The forms that the next transfer substitutes for integer variables, while they are made.
    next: Sequence<Form>,
}

impl Shared {
    ghost use Rattle.ft_types.specs.declared.object.Object.{Object};
    ghost use Rattle.ft_contexts.specs.Contexts.{HoldsOwn, HoldsShared, HoldsVariables, RemembersUnder, replacement_in};

    /// No node has a form yet, and nothing is substituted for variables.
    pub fn new(alloc: Global, forms: &mut Interner) -> Result<Shared, NoMemory>
        ensures kept { Keeps forms.old forms.new }
        ensures shared { (o : Object) → IfOk result (HoldsShared o forms.new) }
    {
        let own = OwnVariables::new(alloc, forms)?;
        let put = Variables {
            integers: Sequence::empty(alloc),
            memory: own.memory_variable(),
        };
        Ok(Shared {
            own,
            put,
            made: Memo::new(alloc),
            next: Sequence::empty(alloc),
        })
    }

    /// Sets what is substituted for the target's variables: the forms of the substitution's nodes, in the block's own
    /// variables. If these are the forms of the last transfer, what was made for nodes is kept.
    pub fn replace<P: Program, M: Meter>(
        &mut self,
        program: &P,
        subst: Subst,
        forms: &mut Interner,
        meter: &mut M,
    ) -> Result<(), NoMemory>
        requires spellable { IsSpellable (P.object program.now) }
        requires subst { IsSubst (P.object program.now).nodes (length (P.object program.now).substs) subst.first subst }
        requires shared { HoldsShared (P.object program.now) forms.old self.old }
        ensures kept { Keeps forms.old forms.new }
        ensures shared { HoldsShared (P.object program.now) forms.new self.new }
        ensures replaced { OnOk result (replacement_in forms.new self.new.put ≡ replacement (P.object program.now) subst) }
        ensures count { OnOk result (updates (updates_held forms.new self.new.put.memory) ≤ length (P.object program.now).nodes) }
        ensures steps { M.counted meter.new ≤ M.counted meter.old + 129 * tree_cost (P.object program.now) 0 }
    {
        self.next.clear();
        for n in subst.first..subst.past {
            let row = program.subst_row(n);
            let form = self.own.integer(program, row, forms, meter)?;
            self.next.push(form)?;
        }
        let memory = self.own.memory(program, subst.memory, forms, meter)?;
        self.substitute(memory);
        Ok(())
    }

    /// Substitutes the next forms, and this memory. Unless they are those substituted before, what was made for nodes is
    /// forgotten.
    fn substitute(&mut self, memory: Form)
        ensures own { self.new.own ≡ self.old.own }
        ensures integers { self.new.put.integers ≡ self.old.next }
        ensures memory { self.new.put.memory ≡ memory }
        ensures made { (o : Object) (fs : List Normal) → RemembersUnder o fs self.old.put self.old.made → RemembersUnder o fs self.new.put self.new.made }
    {
        if self.put.memory == memory && self.put.integers.as_slice() == self.next.as_slice() {
            return;
        }
        self.made.clear();
        swap(&mut self.put.integers, &mut self.next);
        self.put.memory = memory;
    }

    /// Forgets the forms other than the interner's first `count`, which what is shared must not need.
    pub fn forget(&mut self, count: usize, forms: &mut Interner)
        ensures kept { (fs : List Normal) → length fs ≡ count → Keeps fs forms.old → Keeps fs forms.new }
        ensures shared { (o : Object) (fs : List Normal) → length fs ≡ count → Keeps fs forms.old → HoldsOwn o fs self.old.own → HoldsVariables fs self.old.put
            → RemembersUnder o forms.old self.old.put self.old.made → HoldsShared o forms.new self.new }
    {
        if count < forms.count() {
            self.made.keep_first(count);
            forms.keep_first(count);
        }
    }
}
