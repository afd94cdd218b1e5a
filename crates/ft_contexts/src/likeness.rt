//! Whether a context meets the requirements of a transfer's target, after a substitution.
ghost use Rattle.std.specs.Prelude.{◌≡◌, ◌+◌, ◌*◌, ◌<◌, ◌≤◌, ◌&&◌, IfOk, length, nat_le};
ghost use Rattle.std.specs.List.{list_all};
ghost use Rattle.ft_static.specs.Form.{updates, same_polynomial};
ghost use Rattle.ft_norm.specs.Held.{IsInteger, Keeps, polynomial, updates_held};
ghost use Rattle.ft_typing.specs.Context.{integer_form_after, rows_of};
ghost use Rattle.ft_types.specs.Objects.{scope_of};
ghost use Rattle.ft_types.specs.Spellable.{IsQueueRow, IsSpellable, IsSubst};
ghost use Rattle.ft_typing.specs.TypedWord.{is_seen_as};
ghost use Rattle.ft_typing.specs.RowWords.{same_colour};
ghost use Rattle.ft_contexts.specs.Contexts.{HoldsVariables, RemembersUnder, replacement_in};
ghost use Rattle.ft_contexts.specs.Costs.{tree_cost};

use crate::context::Context;
use crate::forms::{same_integers, same_memories};
use crate::register::RegForm;
use crate::variables::Variables;
use ft_isa::{NoMemory, Subst};
use ft_meter::Meter;
use ft_norm::{Form, Interner, Memo};
use ft_types::{Program, RegType};
use ft_typing::{is_seen_as, same_colour};

/// Whether a node's scope is at most this many variables.
fn is_within<P: Program>(program: &P, ints: u8, n: u32) -> bool
    requires { n < length (P.object program.now).nodes }
    ensures { result ≡ nat_le (scope_of (P.object program.now) n) ints }
{
    program.node(n).scope <= ints
}

/// Whether the scopes of a substitution's rows are at most this many variables.
fn are_within<P: Program>(program: &P, ints: u8, subst: Subst) -> bool
    requires spellable { IsSpellable (P.object program.now) }
    requires subst { IsSubst (P.object program.now).nodes (length (P.object program.now).substs) subst.first subst }
    ensures { result ≡ list_all (λ n. nat_le (scope_of (P.object program.now) n) ints) (rows_of (P.object program.now) subst) }
{
    for n in subst.first..subst.past {
        let within = is_within(program, ints, program.subst_row(n));
        if !within {
            return false;
        }
    }
    true
}

/// Whether a register has the colour that a row requires, and a basic type that is accepted as the row's.
fn is_typed_like(known: RegForm, row: RegType) -> bool
    ensures { result ≡ (same_colour known.colour row.colour && is_seen_as known.basic row.basic) }
{
    same_colour(known.colour, row.colour) && is_seen_as(known.basic, row.basic)
}

/// Whether a pair of the static queue meets a row of the target.
fn pair_is_like<P: Program, M: Meter>(
    pair: (Form, Form),
    put: &Variables,
    made: &mut Memo,
    program: &P,
    row: (u32, u32),
    forms: &mut Interner,
    meter: &mut M,
) -> Result<bool, NoMemory>
    requires spellable { IsSpellable (P.object program.now) }
    requires row { IsQueueRow (P.object program.now).nodes (length put.now.integers) row }
    requires address { IsInteger forms.old pair.0 }
    requires value { IsInteger forms.old pair.1 }
    requires put { HoldsVariables forms.old put.now }
    requires made { RemembersUnder (P.object program.now) forms.old put.now made.old }
    ensures kept { Keeps forms.old forms.new }
    ensures made { RemembersUnder (P.object program.now) forms.new put.now made.new }
    ensures like { IfOk result (λ b. b ≡ (same_polynomial (polynomial forms.old pair.0) (integer_form_after (P.object program.now) (replacement_in forms.old put.now) row.0) && same_polynomial (polynomial forms.old pair.1) (integer_form_after (P.object program.now) (replacement_in forms.old put.now) row.1))) }
    ensures steps { M.counted meter.new ≤ M.counted meter.old + 2 * tree_cost (P.object program.now) (updates (updates_held forms.old put.now.memory)) }
{
    let address = put.integer(program, row.0, made, forms, meter)?;
    if !same_integers(forms, pair.0, address) {
        return Ok(false);
    }
    let value = put.integer(program, row.1, made, forms, meter)?;
    Ok(same_integers(forms, pair.1, value))
}

impl Context {
    ghost use Rattle.std.specs.Prelude.{◌==◌};
    ghost use Rattle.ft_static.specs.Form.{same_updates};
    ghost use Rattle.ft_typing.specs.Context.{memory_form_after, typed};
    ghost use Rattle.ft_types.specs.Objects.{ints_of, memory_of, queue_rows, reg_rows};
    ghost use Rattle.ft_types.specs.Spellable.{IsRegRow};
    ghost use Rattle.ft_typing.specs.RowWords.{are_like, is_annotated, is_like, is_queue_like};
    ghost use Rattle.ft_contexts.specs.Contexts.{HoldsForms, context_in, variable_count};

    /// Whether a substitution has a row for each variable of code type `t`, and stays within the scope
    /// of the block's own variables.
    #[tactic(auto, unfolding(ft_typing::specs::RowWords::is_annotated))]
    pub fn is_annotated<P: Program>(&self, program: &P, subst: Subst, t: u32) -> bool
        requires spellable { IsSpellable (P.object program.now) }
        requires there { t < length (P.object program.now).types }
        requires subst { IsSubst (P.object program.now).nodes (length (P.object program.now).substs) subst.first subst }
        ensures { result ≡ is_annotated (P.object program.now) (variable_count self.now) subst t }
    {
        let wanted = program.code_type(t).ints;
        subst.past - subst.first == wanted as u32
            && are_within(program, self.ints, subst)
            && is_within(program, self.ints, subst.memory)
    }

    /// Whether a register meets a row of the target.
    #[tactic(auto, unfolding(ft_typing::specs::RowWords::is_like))]
    fn register_is_like<P: Program, M: Meter>(
        &self,
        put: &Variables,
        made: &mut Memo,
        program: &P,
        row: RegType,
        forms: &mut Interner,
        meter: &mut M,
    ) -> Result<bool, NoMemory>
        requires spellable { IsSpellable (P.object program.now) }
        requires row { IsRegRow (length (P.object program.now).types) (P.object program.now).nodes (length put.now.integers) row }
        requires held { HoldsForms forms.old self.now }
        requires put { HoldsVariables forms.old put.now }
        requires made { RemembersUnder (P.object program.now) forms.old put.now made.old }
        ensures kept { Keeps forms.old forms.new }
        ensures made { RemembersUnder (P.object program.now) forms.new put.now made.new }
        ensures like { IfOk result (λ b. b ≡ is_like (P.object program.now) (replacement_in forms.old put.now) (typed (context_in forms.old self.now) row.reg.number) row) }
        ensures steps { M.counted meter.new ≤ M.counted meter.old + tree_cost (P.object program.now) (updates (updates_held forms.old put.now.memory)) }
    {
        let known = match self.reg(row.reg) {
            Some(known) => known,
            None => return Ok(false),
        };
        if !is_typed_like(known, row) {
            return Ok(false);
        }
        let wanted = put.integer(program, row.expr, made, forms, meter)?;
        Ok(same_integers(forms, known.form, wanted))
    }

    /// Whether each register that has a row in code type `t` meets that row, with these substituted for the type's
    /// variables.
    pub fn registers_are_like<P: Program, M: Meter>(
        &self,
        put: &Variables,
        made: &mut Memo,
        program: &P,
        t: u32,
        forms: &mut Interner,
        meter: &mut M,
    ) -> Result<bool, NoMemory>
        requires spellable { IsSpellable (P.object program.now) }
        requires there { t < length (P.object program.now).types }
        requires count { length put.now.integers ≡ ints_of (P.object program.now) t }
        requires held { HoldsForms forms.old self.now }
        requires put { HoldsVariables forms.old put.now }
        requires made { RemembersUnder (P.object program.now) forms.old put.now made.old }
        ensures kept { Keeps forms.old forms.new }
        ensures made { RemembersUnder (P.object program.now) forms.new put.now made.new }
        ensures like { IfOk result (λ b. b ≡ are_like (P.object program.now) (replacement_in forms.old put.now) (context_in forms.old self.now) (reg_rows (P.object program.now) t)) }
        ensures steps { M.counted meter.new ≤ M.counted meter.old + 64 * tree_cost (P.object program.now) (updates (updates_held forms.old put.now.memory)) }
    {
        for j in 0..program.code_type(t).regs {
            let row = program.reg_row(t, j);
            let like = self.register_is_like(put, made, program, row, forms, meter)?;
            if !like {
                return Ok(false);
            }
        }
        Ok(true)
    }

    /// Whether the static queue is as code type `t` requires, with these substituted for the type's variables.
    pub fn queue_is_like<P: Program, M: Meter>(
        &self,
        put: &Variables,
        made: &mut Memo,
        program: &P,
        t: u32,
        forms: &mut Interner,
        meter: &mut M,
    ) -> Result<bool, NoMemory>
        requires spellable { IsSpellable (P.object program.now) }
        requires there { t < length (P.object program.now).types }
        requires count { length put.now.integers ≡ ints_of (P.object program.now) t }
        requires held { HoldsForms forms.old self.now }
        requires put { HoldsVariables forms.old put.now }
        requires made { RemembersUnder (P.object program.now) forms.old put.now made.old }
        ensures kept { Keeps forms.old forms.new }
        ensures made { RemembersUnder (P.object program.now) forms.new put.now made.new }
        ensures like { IfOk result (λ b. b ≡ is_queue_like (P.object program.now) (replacement_in forms.old put.now) (context_in forms.old self.now).queue (queue_rows (P.object program.now) t)) }
        ensures steps { M.counted meter.new ≤ M.counted meter.old + 16 * tree_cost (P.object program.now) (updates (updates_held forms.old put.now.memory)) }
    {
        let rows = program.code_type(t).queue;
        if self.queue.len() != rows as usize {
            return Ok(false);
        }
        for j in 0..rows {
            let row = program.queue_row(t, j);
            let like = pair_is_like(
                self.queue.at(j as usize),
                put,
                made,
                program,
                row,
                forms,
                meter,
            )?;
            if !like {
                return Ok(false);
            }
        }
        Ok(true)
    }

    /// Whether the memory is as code type `t` requires, with these substituted for the type's variables.
    pub fn memory_is_like<P: Program, M: Meter>(
        &self,
        put: &Variables,
        made: &mut Memo,
        program: &P,
        t: u32,
        forms: &mut Interner,
        meter: &mut M,
    ) -> Result<bool, NoMemory>
        requires spellable { IsSpellable (P.object program.now) }
        requires there { t < length (P.object program.now).types }
        requires count { length put.now.integers ≡ ints_of (P.object program.now) t }
        requires held { HoldsForms forms.old self.now }
        requires put { HoldsVariables forms.old put.now }
        requires made { RemembersUnder (P.object program.now) forms.old put.now made.old }
        ensures kept { Keeps forms.old forms.new }
        ensures made { RemembersUnder (P.object program.now) forms.new put.now made.new }
        ensures like { IfOk result (λ b. b ≡ same_updates (context_in forms.old self.now).memory (memory_form_after (P.object program.now) (replacement_in forms.old put.now) (memory_of (P.object program.now) t))) }
        ensures steps { M.counted meter.new ≤ M.counted meter.old + tree_cost (P.object program.now) (updates (updates_held forms.old put.now.memory)) }
    {
        let wanted = put.memory(program, program.code_type(t).memory, made, forms, meter)?;
        Ok(same_memories(forms, self.memory, wanted))
    }
}
