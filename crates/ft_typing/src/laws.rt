//! Laws of typing, for all objects and contexts. Each function does nothing: its clause is the law.
ghost use Rattle.std.specs.Prelude.{◌≡◌, ◌↔◌, ◌+◌, ◌≤◌, ℕ, None, Some, Decides, length};
ghost use Rattle.ft_isa.specs.declared.basic.Basic.{Basic};
ghost use Rattle.ft_isa.specs.declared.instr.Instr.{Instr};
ghost use Rattle.ft_types.specs.declared.object.Object.{Object};
ghost use Rattle.ft_typing.specs.Context.{Context};
ghost use Rattle.ft_typing.specs.TypingRow.{IsTheRow};
ghost use Rattle.ft_typing.specs.TypedWord.{HasType, IsRunOf, IsSeenAs, has_type, is_seen_as, run_type};
ghost use Rattle.ft_typing.specs.Accepted.{IsAccepted, refusal};

/// The typing rows agree with the table of typing rows: for every object and context, the row of an instruction gives
/// the premise of the first of its tests that fails, or its effect if none fails.
pub fn rows_are_the_table()
    ensures { (o : Object) (c : Context) (i : Instr) → IsTheRow o c i }
{}

/// The typing rows' tests of words and of basic types decide whether a word has a type and whether a type is accepted
/// as another. The type of a run of cells is the one that all of them have, if a `ref` can refer to it.
pub fn types_are_tested()
    ensures words { (o : Object) (w : ℕ) (b : Basic) → Decides (has_type o w b) (HasType o w b) }
    ensures seen { (a b : Basic) → Decides (is_seen_as a b) (IsSeenAs a b) }
    ensures runs { (o : Object) (first m : ℕ) (b : Basic) → 1 ≤ m → first + m ≤ length o.cells → run_type o first m ≡ Some b ↔ IsRunOf o first m b }
{}

/// An object is accepted exactly when it has no refusal.
pub fn acceptance_is_no_refusal()
    ensures { (o : Object) → IsAccepted o ↔ refusal o ≡ None }
{}
