//! Forms that are substituted for variables.
ghost use Rattle.std.specs.Prelude.{◌≡◌, ◌+◌, ◌≤◌, IfOk, Some, false, true, length, []};
ghost use Rattle.ft_static.specs.Form.{integer_form, memory_form, updates};
ghost use Rattle.ft_norm.specs.Held.{Keeps, held, updates_held};
ghost use Rattle.ft_typing.specs.Context.{integer_form_after, integer_form_of, memory_form_after, memory_form_of};
ghost use Rattle.ft_types.specs.Spellable.{IsNodeIn, IsSpellable};
ghost use Rattle.ft_contexts.specs.Costs.{tree_cost};

use crate::sequence::Sequence;
use ft_isa::NoMemory;
use ft_meter::Meter;
use ft_norm::{Form, Interner, Memo};
use ft_types::Program;
use std::alloc::Global;

/// The maximum number of integer variables of a code type.
const MOST_INTS: u8 = 128;

/// A form for each integer variable, in order, and one for the memory variable.
#[derive(Drop)]
pub struct Variables {
    pub integers: Sequence<Form>,
    pub memory: Form,
}

impl Variables {
    ghost use Rattle.ft_contexts.specs.Contexts.{HoldsVariables, RemembersUnder, replacement_in};

    /// The form of integer node `n`, with these substituted for the variables. Forms made before are reused.
    pub fn integer<P: Program, M: Meter>(
        &self,
        program: &P,
        n: u32,
        made: &mut Memo,
        forms: &mut Interner,
        meter: &mut M,
    ) -> Result<Form, NoMemory>
        requires spellable { IsSpellable (P.object program.now) }
        requires node { IsNodeIn (P.object program.now).nodes (length self.now.integers) false n }
        requires held { HoldsVariables forms.old self.now }
        requires made { RemembersUnder (P.object program.now) forms.old self.now made.old }
        ensures kept { Keeps forms.old forms.new }
        ensures made { RemembersUnder (P.object program.now) forms.new self.now made.new }
        ensures form { IfOk result (λ f. held forms.new f ≡ Some (integer_form (integer_form_after (P.object program.now) (replacement_in forms.old self.now) n))) }
        ensures steps { M.counted meter.new ≤ M.counted meter.old + tree_cost (P.object program.now) (updates (updates_held forms.old self.now.memory)) }
    {
        let ints = self.integers.as_slice();
        let form = made.form(forms, program, n, ints, self.memory, meter)?;
        Ok(form)
    }

    /// The form of memory node `n`, with these substituted for the variables. Forms made before are reused.
    pub fn memory<P: Program, M: Meter>(
        &self,
        program: &P,
        n: u32,
        made: &mut Memo,
        forms: &mut Interner,
        meter: &mut M,
    ) -> Result<Form, NoMemory>
        requires spellable { IsSpellable (P.object program.now) }
        requires node { IsNodeIn (P.object program.now).nodes (length self.now.integers) true n }
        requires held { HoldsVariables forms.old self.now }
        requires made { RemembersUnder (P.object program.now) forms.old self.now made.old }
        ensures kept { Keeps forms.old forms.new }
        ensures made { RemembersUnder (P.object program.now) forms.new self.now made.new }
        ensures form { IfOk result (λ f. held forms.new f ≡ Some (memory_form (memory_form_after (P.object program.now) (replacement_in forms.old self.now) n))) }
        ensures count { IfOk result (λ f. updates (updates_held forms.new f) ≤ updates (updates_held forms.old self.now.memory) + length (P.object program.now).nodes) }
        ensures steps { M.counted meter.new ≤ M.counted meter.old + tree_cost (P.object program.now) (updates (updates_held forms.old self.now.memory)) }
    {
        let ints = self.integers.as_slice();
        let form = made.form(forms, program, n, ints, self.memory, meter)?;
        Ok(form)
    }
}

/// As many variables as a code type may have, each substituted for itself, and the forms of nodes made so far under
/// that substitution. They serve all blocks of an object.
#[derive(Drop)]
pub struct OwnVariables {
    variables: Variables,
    made: Memo,
}

impl OwnVariables {
    ghost use Rattle.ft_types.specs.declared.object.Object.{Object};
    ghost use Rattle.ft_contexts.specs.Contexts.{HoldsOwn};

    /// No node has a form yet.
    pub fn new(alloc: Global, forms: &mut Interner) -> Result<OwnVariables, NoMemory>
        ensures kept { Keeps forms.old forms.new }
        ensures own { (o : Object) → IfOk result (HoldsOwn o forms.new) }
    {
        let mut integers = Sequence::with_room(alloc, MOST_INTS as usize)?;
        for i in 0..MOST_INTS {
            let form = forms.var(i)?;
            integers.push(form)?;
        }
        let memory = forms.memory()?;
        let variables = Variables { integers, memory };
        Ok(OwnVariables {
            variables,
            made: Memo::new(alloc),
        })
    }

    /// The form of the memory variable.
    pub(crate) fn memory_variable(&self) -> Form
        ensures { result ≡ self.now.variables.memory }
    {
        self.variables.memory
    }

    /// The form of integer node `n`, with the variables unchanged.
    pub fn integer<P: Program, M: Meter>(
        &mut self,
        program: &P,
        n: u32,
        forms: &mut Interner,
        meter: &mut M,
    ) -> Result<Form, NoMemory>
        requires spellable { IsSpellable (P.object program.now) }
        requires node { IsNodeIn (P.object program.now).nodes 128 false n }
        requires own { HoldsOwn (P.object program.now) forms.old self.old }
        ensures kept { Keeps forms.old forms.new }
        ensures own { HoldsOwn (P.object program.now) forms.new self.new }
        ensures form { IfOk result (λ f. held forms.new f ≡ Some (integer_form (integer_form_of (P.object program.now) n))) }
        ensures steps { M.counted meter.new ≤ M.counted meter.old + tree_cost (P.object program.now) 0 }
    {
        let form = self
            .variables
            .integer(program, n, &mut self.made, forms, meter)?;
        Ok(form)
    }

    /// The form of memory node `n`, with the variables unchanged.
    pub fn memory<P: Program, M: Meter>(
        &mut self,
        program: &P,
        n: u32,
        forms: &mut Interner,
        meter: &mut M,
    ) -> Result<Form, NoMemory>
        requires spellable { IsSpellable (P.object program.now) }
        requires node { IsNodeIn (P.object program.now).nodes 128 true n }
        requires own { HoldsOwn (P.object program.now) forms.old self.old }
        ensures kept { Keeps forms.old forms.new }
        ensures own { HoldsOwn (P.object program.now) forms.new self.new }
        ensures form { IfOk result (λ f. held forms.new f ≡ Some (memory_form (memory_form_of (P.object program.now) n))) }
        ensures count { IfOk result (λ f. updates (updates_held forms.new f) ≤ length (P.object program.now).nodes) }
        ensures steps { M.counted meter.new ≤ M.counted meter.old + tree_cost (P.object program.now) 0 }
    {
        let form = self
            .variables
            .memory(program, n, &mut self.made, forms, meter)?;
        Ok(form)
    }
}
