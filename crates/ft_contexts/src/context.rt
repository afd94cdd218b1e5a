//! Contexts.
ghost use Rattle.std.specs.Prelude.{◌≡◌, ◌+◌, ◌*◌, ◌<◌, ◌≤◌, ◌++◌, ◌∷◌, [], IfOk, IfSome, OnErr, OnOk, List, Some, drop, length, slice_get};
ghost use Rattle.std.specs.Option.{option_map};
ghost use Rattle.ft_static.specs.Form.{Form as Normal, memory_form, updates};
ghost use Rattle.ft_norm.specs.Held.{IsInteger, IsMemory, Keeps, held, updates_held};
ghost use Rattle.ft_typing.specs.Context.{start_context, typed, with_type};
ghost use Rattle.ft_types.specs.Spellable.{IsBase, IsSpellable};
ghost use Rattle.ft_typing.specs.RowWords.{seen_memory};
ghost use Rattle.ft_contexts.specs.Costs.{tree_cost};

use crate::destination::StateD;
use crate::register::RegForm;
use crate::sequence::Sequence;
use crate::start::{QUEUE_ROOM, start_queue, start_registers};
use crate::variables::OwnVariables;
use ft_isa::{Colour, NoMemory, Reg};
use ft_meter::Meter;
use ft_norm::{Form, Interner};
use ft_types::Program;
use std::alloc::Global;

/// What is known at a place in a block: the number of the block's integer variables, what is known of each register and
/// of d, the static queue with the oldest pair first, and the form of the memory. Its forms belong to the interner with
/// which it was made.
#[derive(Drop)]
pub struct Context {
    pub(crate) alloc: Global,
    pub(crate) ints: u8,
    pub(crate) registers: [Option<RegForm>; 64],
    pub(crate) d: StateD,
    pub(crate) queue: Sequence<(Form, Form)>,
    pub(crate) memory: Form,
}

impl Context {
    ghost use Rattle.ft_types.specs.declared.object.Object.{Object};
    ghost use Rattle.ft_contexts.specs.Contexts.{DNamesType, HoldsD, HoldsForms, HoldsOwn, NamesTypes, context_in, d_in, pair_in, pending_count, typed_in};

    /// The context at the start of a block of code type `t`: the type's registers, queue and memory, with its variables
    /// unchanged, and 0 in d.
    pub fn start<P: Program, M: Meter>(
        alloc: Global,
        program: &P,
        t: u32,
        forms: &mut Interner,
        meter: &mut M,
    ) -> Result<Context, NoMemory>
        requires spellable { IsSpellable (P.object program.now) }
        requires there { t < length (P.object program.now).types }
        ensures kept { Keeps forms.old forms.new }
        ensures context { IfOk result (λ c. context_in forms.new c ≡ start_context (P.object program.now) t) }
        ensures held { IfOk result (HoldsForms forms.new) }
        ensures types { IfOk result (NamesTypes (P.object program.now)) }
        ensures pending { IfOk result (λ c. pending_count c ≤ 8) }
        ensures count { IfOk result (λ c. updates (context_in forms.new c).memory ≤ length (P.object program.now).nodes) }
        ensures steps { M.counted meter.new ≤ M.counted meter.old + 81 * tree_cost (P.object program.now) 0 }
    {
        let mut own = OwnVariables::new(alloc, forms)?;
        Context::start_over(alloc, program, t, &mut own, forms, meter)
    }

    /// The same context as `start` makes, over variables that earlier blocks may have used.
    pub fn start_over<P: Program, M: Meter>(
        alloc: Global,
        program: &P,
        t: u32,
        own: &mut OwnVariables,
        forms: &mut Interner,
        meter: &mut M,
    ) -> Result<Context, NoMemory>
        requires spellable { IsSpellable (P.object program.now) }
        requires there { t < length (P.object program.now).types }
        requires own { HoldsOwn (P.object program.now) forms.old own.old }
        ensures kept { Keeps forms.old forms.new }
        ensures own { HoldsOwn (P.object program.now) forms.new own.new }
        ensures context { IfOk result (λ c. context_in forms.new c ≡ start_context (P.object program.now) t) }
        ensures held { IfOk result (HoldsForms forms.new) }
        ensures types { IfOk result (NamesTypes (P.object program.now)) }
        ensures pending { IfOk result (λ c. pending_count c ≤ 8) }
        ensures count { IfOk result (λ c. updates (context_in forms.new c).memory ≤ length (P.object program.now).nodes) }
        ensures steps { M.counted meter.new ≤ M.counted meter.old + 81 * tree_cost (P.object program.now) 0 }
    {
        let head = program.code_type(t);
        let memory = own.memory(program, head.memory, forms, meter)?;
        let registers = start_registers(program, t, head.regs, own, forms, meter)?;
        let queue = start_queue(alloc, program, t, head.queue, own, forms, meter)?;
        Ok(Context {
            alloc,
            ints: head.ints,
            registers,
            d: StateD::Zero,
            queue,
            memory,
        })
    }

    /// A context in which nothing is known of any register, and nothing is pending.
    pub fn empty(alloc: Global, own: &OwnVariables) -> Result<Context, NoMemory> {
        Ok(Context {
            alloc,
            ints: 0,
            registers: [None; 64],
            d: StateD::Zero,
            queue: Sequence::with_room(alloc, QUEUE_ROOM)?,
            memory: own.memory_variable(),
        })
    }

    /// Copies another context, reusing its own memory. If memory runs out, the copy may be incomplete.
    pub fn copy_from(&mut self, other: &Context) -> Result<(), NoMemory>
        ensures { OnOk result (self.new ≡ other.now) }
    {
        self.queue.copy_from(&other.queue)?;
        self.alloc = other.alloc;
        self.ints = other.ints;
        self.registers = other.registers;
        self.d = other.d;
        self.memory = other.memory;
        Ok(())
    }

    /// The allocator of the context.
    pub fn alloc(&self) -> Global {
        self.alloc
    }

    /// The number of the block's integer variables.
    pub fn ints(&self) -> u8
        ensures { (fs : List Normal) → (context_in fs self.now).ints ≡ result }
    {
        self.ints
    }

    /// What is known of a register; `None` exactly when it has no type.
    pub fn reg(&self, r: Reg) -> Option<RegForm>
        ensures known { (fs : List Normal) → typed (context_in fs self.now) r.number ≡ option_map (typed_in fs) result }
        ensures held { (fs : List Normal) → HoldsForms fs self.now → IfSome result (λ x. IsInteger fs x.form) }
        ensures types { (o : Object) → NamesTypes o self.now → IfSome result (λ x. IsBase (length o.types) x.basic.base) }
    {
        self.registers[r.number() as usize]
    }

    /// What is known of the destination register.
    pub fn d(&self) -> StateD
        ensures known { (fs : List Normal) → (context_in fs self.now).d ≡ d_in fs result }
        ensures held { (fs : List Normal) → HoldsForms fs self.now → HoldsD fs result }
    {
        self.d
    }

    /// How many pairs the static queue has.
    pub fn queue_len(&self) -> usize
        ensures count { result ≡ pending_count self.now }
        ensures pairs { (fs : List Normal) → length (context_in fs self.now).queue ≡ result }
    {
        self.queue.len()
    }

    /// The forms of the address and the value of pair `i`; pair 0 is the oldest.
    pub fn queue_at(&self, i: usize) -> (Form, Form)
        requires { i < pending_count self.now }
        ensures pair { (fs : List Normal) → slice_get (context_in fs self.now).queue i ≡ Some (pair_in fs result) }
        ensures held { (fs : List Normal) → HoldsForms fs self.now → IsInteger fs result.0 × IsInteger fs result.1 }
    {
        self.queue.at(i)
    }

    /// The form of the memory.
    pub fn memory(&self) -> Form
        ensures form { (fs : List Normal) → (context_in fs self.now).memory ≡ updates_held fs result }
        ensures held { (fs : List Normal) → HoldsForms fs self.now → IsMemory fs result }
    {
        self.memory
    }

    /// The form of the memory after the pending stores, oldest first.
    fn pending<M: Meter>(&self, forms: &mut Interner, meter: &mut M) -> Result<Form, NoMemory>
        requires { HoldsForms forms.old self.now }
        ensures kept { Keeps forms.old forms.new }
        ensures form { IfOk result (λ f. held forms.new f ≡ Some (memory_form (seen_memory Colour.Green (context_in forms.old self.now)))) }
        ensures count { IfOk result (λ f. updates (updates_held forms.new f) ≤ updates (context_in forms.old self.now).memory + pending_count self.now) }
        ensures steps { M.counted meter.new ≤ M.counted meter.old + pending_count self.now }
    {
        let mut memory = self.memory;
        for j in 0..self.queue.len() {
            let (address, value) = self.queue.at(j);
            meter.take(1)?;
            memory = forms.upd(memory, address, value)?;
        }
        Ok(memory)
    }

    /// The form of the memory that a load of this colour sees: a green load sees the pending stores. Each update
    /// applied counts as a step.
    pub fn seen<M: Meter>(
        &self,
        colour: Colour,
        forms: &mut Interner,
        meter: &mut M,
    ) -> Result<Form, NoMemory>
        requires { HoldsForms forms.old self.now }
        ensures kept { Keeps forms.old forms.new }
        ensures form { IfOk result (λ f. held forms.new f ≡ Some (memory_form (seen_memory colour (context_in forms.old self.now)))) }
        ensures count { IfOk result (λ f. updates (updates_held forms.new f) ≤ updates (context_in forms.old self.now).memory + pending_count self.now) }
        ensures steps { M.counted meter.new ≤ M.counted meter.old + pending_count self.now }
    {
        match colour {
            Colour::Green => self.pending(forms, meter),
            Colour::Blue => Ok(self.memory),
        }
    }

    /// Notes what is known of a register.
    pub fn put(&mut self, rd: Reg, known: RegForm)
        ensures context { (fs : List Normal) → context_in fs self.new ≡ with_type rd.number (typed_in fs known) (context_in fs self.old) }
        ensures held { (fs : List Normal) → HoldsForms fs self.old → IsInteger fs known.form → HoldsForms fs self.new }
        ensures types { (o : Object) → NamesTypes o self.old → IsBase (length o.types) known.basic.base → NamesTypes o self.new }
    {
        self.registers[rd.number() as usize] = Some(known);
    }

    /// Notes what is known of the destination register.
    pub fn put_d(&mut self, d: StateD)
        ensures context { (fs : List Normal) → context_in fs self.new ≡ record (context_in fs self.old) { d = d_in fs d } }
        ensures held { (fs : List Normal) → HoldsForms fs self.old → HoldsD fs d → HoldsForms fs self.new }
        ensures types { (o : Object) → NamesTypes o self.old → DNamesType (length o.types) d → NamesTypes o self.new }
    {
        self.d = d;
    }

    /// Adds a pair to the static queue, as the newest. If memory runs out, nothing changes.
    pub fn pend(&mut self, pair: (Form, Form)) -> Result<(), NoMemory>
        ensures context { OnOk result ((fs : List Normal) → context_in fs self.new ≡ record (context_in fs self.old) { queue = (context_in fs self.old).queue ++ pair_in fs pair ∷ [] }) }
        ensures held { OnOk result ((fs : List Normal) → HoldsForms fs self.old → IsInteger fs pair.0 × IsInteger fs pair.1 → HoldsForms fs self.new) }
        ensures types { OnOk result ((o : Object) → NamesTypes o self.old → NamesTypes o self.new) }
        ensures err { OnErr result (self.new ≡ self.old) }
    {
        self.queue.push(pair)
    }

    /// Removes the oldest pair from the static queue, and sets the form of the memory.
    pub fn commit(&mut self, memory: Form)
        requires { 0 < pending_count self.old }
        ensures context { (fs : List Normal) → context_in fs self.new ≡ record (context_in fs self.old) { queue = drop 1 (context_in fs self.old).queue; memory = updates_held fs memory } }
        ensures held { (fs : List Normal) → HoldsForms fs self.old → IsMemory fs memory → HoldsForms fs self.new }
        ensures types { (o : Object) → NamesTypes o self.old → NamesTypes o self.new }
    {
        self.queue.remove_first();
        self.memory = memory;
    }
}
