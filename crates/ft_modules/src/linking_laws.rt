//! Laws of linked objects, over the definitions only. Each function does nothing: its clause is the
//! law.
ghost use Rattle.std.specs.Prelude.{◌≡◌, ◌≤◌, ◌+◌, [], ℕ, List, None, Option, Some, length, slice_get, sum_by};
ghost use Rattle.ft_isa.specs.declared.plan.Strike.{Strike};
ghost use Rattle.ft_isa.specs.declared.plan.Wild.{Wild};
ghost use Rattle.ft_static.specs.declared.node.Node.{Node};
ghost use Rattle.ft_static.specs.NodeRules.{AreNodes};
ghost use Rattle.ft_static.specs.NodeTree.{tree_at};
ghost use Rattle.ft_types.specs.declared.object.Object.{Object};
ghost use Rattle.ft_types.specs.Spellable.{IsSpellable};
ghost use Rattle.ft_semantics.specs.Agrees.{Agrees};
ghost use Rattle.ft_semantics.specs.Run.{outputs_after, status_after};
ghost use Rattle.ft_typing.specs.Accepted.{IsAccepted};
ghost use Rattle.ft_link_map.specs.declared.link_map.LinkMap.{LinkMap};
ghost use Rattle.ft_modules.specs.Linkable.{AreLinkable};
ghost use Rattle.ft_modules.specs.Linked.{before_module, laid, linked, nodes_part, nothing_before};
ghost use Rattle.ft_modules.specs.ModulesRun.{modules_outputs, modules_status};

/// If no refusal applies to accepted modules, the object linked from them is spellable and accepted.
pub fn linked_objects_are_accepted()
    ensures spelled { (linkage : LinkMap) (first : Object) (others : List Object) → AreLinkable linkage first others → IsSpellable (linked linkage first others) }
    ensures accepted { (linkage : LinkMap) (first : Object) (others : List Object) → AreLinkable linkage first others → IsAccepted (linked linkage first others) }
{}

/// Without a fault and without answers to wild loads, the run of the linked object has, after each number of steps, the
/// outputs and the status of the modules' run.
pub fn linked_objects_run_as_their_modules()
    ensures outputs { (linkage : LinkMap) (first : Object) (others : List Object) (n : ℕ) → AreLinkable linkage first others → outputs_after (linked linkage first others) None [] n ≡ modules_outputs linkage first others n }
    ensures status { (linkage : LinkMap) (first : Object) (others : List Object) (n : ℕ) → AreLinkable linkage first others → status_after (linked linkage first others) None [] n ≡ modules_status linkage first others n }
{}

/// One fault in the run of the linked object is masked or detected, whatever the answers to wild loads: the outputs and
/// the status are those of the modules' run after the same number of steps, or the run is detected and its outputs are
/// a prefix of those.
pub fn linked_objects_tolerate_one_fault()
    ensures { (linkage : LinkMap) (first : Object) (others : List Object) (strike : Option Strike) (w : List Wild) (n : ℕ) → AreLinkable linkage first others → Agrees (outputs_after (linked linkage first others) strike w n) (status_after (linked linkage first others) strike w n) (modules_outputs linkage first others n) (modules_status linkage first others n) }
{}

/// The nodes of spellable modules, laid one after another with their numbers raised, obey the rules of nodes if there
/// are not too many of them, and each stands for the same tree as in its module.
pub fn laid_nodes_stand_for_the_same_trees()
    ensures nodes { (modules : List Object) → ((m : ℕ) (o : Object) → slice_get modules m ≡ Some o → IsSpellable o) → sum_by (λ (o : Object). length o.nodes) modules ≤ 1048576 → AreNodes (laid nodes_part nothing_before modules) }
    ensures trees { (modules : List Object) → ((m : ℕ) (o : Object) → slice_get modules m ≡ Some o → IsSpellable o) → sum_by (λ (o : Object). length o.nodes) modules ≤ 1048576 → (m n : ℕ) (o : Object) (y : Node) → slice_get modules m ≡ Some o → slice_get o.nodes n ≡ Some y → tree_at (laid nodes_part nothing_before modules) ((before_module nothing_before modules m).nodes + n) ≡ tree_at o.nodes n }
{}
