//! Laws of modules, over the definitions only. Each function does nothing: its clause is the law.
ghost use Rattle.std.specs.Prelude.{◌≡◌, ◌≤◌, ◌↔◌, ◌∷◌, ◌++◌, [], ℕ, List, None, Some, length, slice_get};
ghost use Rattle.std.specs.Option.{option_or};
ghost use Rattle.ft_static.specs.declared.node.Node.{Node};
ghost use Rattle.ft_static.specs.NodeRules.{AreNodes};
ghost use Rattle.ft_static.specs.NodeTree.{tree_at};
ghost use Rattle.ft_types.specs.declared.object.Cell.{Cell};
ghost use Rattle.ft_types.specs.declared.object.Object.{Object};
ghost use Rattle.ft_types.specs.Spellable.{IsSpellable};
ghost use Rattle.ft_typing.specs.Accepted.{IsAccepted};
ghost use Rattle.ft_link_map.specs.declared.link_map.LinkMap.{LinkMap};
ghost use Rattle.ft_modules.specs.Linkable.{AreLinkable};
ghost use Rattle.ft_modules.specs.LinkRefusals.{link_refusal, module_refusal, modules_refusal};
ghost use Rattle.ft_modules.specs.TreeKeys.{AreTreeNumbers, key_of};

/// Modules that are spellable and accepted can be linked exactly when no refusal applies to them or to the map.
pub fn linkable_modules_are_not_refused()
    ensures { (linkage : LinkMap) (first : Object) (others : List Object) → ((m : ℕ) (o : Object) → slice_get (first ∷ others) m ≡ Some o → IsSpellable o × IsAccepted o) → AreLinkable linkage first others ↔ link_refusal linkage first others ≡ None }
{}

/// Modules are tested in the order in which they are added: each is tested after those before it, and the first refusal
/// is the result.
pub fn modules_are_refused_in_turn()
    ensures { (cells : List Cell) (modules : List Object) (next : Object) → modules_refusal [] 0 cells (modules ++ next ∷ []) ≡ option_or (modules_refusal [] 0 cells modules) (module_refusal modules (length modules) cells next) }
{}

/// Trees are compared without walking them: if the nodes below node n are numbered by their trees, two nodes up to node
/// n have the same tree exactly when their shapes, with the numbers of their parts, are equal.
pub fn equal_keys_are_of_equal_trees()
    ensures { (nodes : List Node) (cs : List ℕ) (n : ℕ) → AreNodes nodes → AreTreeNumbers nodes cs n → (i j : ℕ) (y z : Node) → i ≤ n → j ≤ n → slice_get nodes i ≡ Some y → slice_get nodes j ≡ Some z → key_of cs y.shape ≡ key_of cs z.shape ↔ tree_at nodes i ≡ tree_at nodes j }
{}
