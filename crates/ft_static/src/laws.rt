//! Laws of expressions and of their normal forms. The functions do nothing: their clauses are the laws.
ghost use Rattle.std.specs.Prelude.{◌≡◌, ◌↔◌, ◌+◌, ◌%◌, ◌^◌, ◌<◌, ◌≤◌, true, List, Some, map, slice_get, slice_index_or, ℕ, []};
ghost use Rattle.std.specs.Cmp.{IsTotalOrder};
ghost use Rattle.std.specs.Ordering.{nat_cmp};
ghost use Rattle.ft_isa.specs.Words.{IsWord, apply};
ghost use Rattle.ft_isa.specs.declared.op.Op.{Op};
ghost use Rattle.ft_static.specs.Coefficient.{coefficient, count, share_of_products};
ghost use Rattle.ft_static.specs.Expression.{Expression, HasVariablesBelow, HasWords, Integer, IsLawful, IsWithin, IsMemoryWithin, Memory, Valuation, AreWords, AreWordsOfMemory, denotation, integer_of, memory_value, substitute, substitute_memory, value, valuation_after, with_word, word_at};
ghost use Rattle.ft_static.specs.Form.{Atom, Monomial, Polynomial, Updates, atoms, monomials, nought, stores, unchanged, variable_atom, cmp_atom, cmp_lists, cmp_monomial, cmp_pairs, cmp_polynomial, cmp_updates, same_polynomial, same_updates, form_denotation, value_polynomial, value_updates, valuation_under, AreProperUpdates, IsNormal, IsProper};
ghost use Rattle.ft_static.specs.NodeRules.{AreNodes};
ghost use Rattle.ft_static.specs.NodeTree.{StandsFor, tree_at, trees};
ghost use Rattle.ft_static.specs.NormalForm.{add_products, alone, constant, degree, join, norm, norm_integer, norm_memory, norm_op, norm_rem, norm_sel, norm_upd, same, total, form_of, form_under, forms_of_nodes, norm_memory_under, norm_under};
ghost use Rattle.ft_static.specs.declared.node.Node.{Node};

use std::cmp::Ordering;

/// The order of forms is total, and two forms compare as equal exactly when they are the same. Forms compare as lists
/// do: by length, then by the first elements that differ. A polynomial is a list of pairs of monomial and coefficient,
/// and a memory form a list of pairs of address and value.
pub fn forms_are_ordered()
    ensures atoms { IsTotalOrder cmp_atom }
    ensures monomials { IsTotalOrder cmp_monomial }
    ensures polynomials { IsTotalOrder cmp_polynomial }
    ensures updates { IsTotalOrder cmp_updates }
    ensures equal_atoms { (a b : Atom) → cmp_atom a b ≡ Ordering.Equal ↔ a ≡ b }
    ensures equal_monomials { (m n : Monomial) → cmp_monomial m n ≡ Ordering.Equal ↔ m ≡ n }
    ensures equal_polynomials { (p q : Polynomial) → same_polynomial p q ≡ true ↔ p ≡ q }
    ensures equal_updates { (u w : Updates) → same_updates u w ≡ true ↔ u ≡ w }
    ensures lists_of_atoms { (m n : Monomial) → cmp_monomial m n ≡ cmp_lists cmp_atom (atoms m) (atoms n) }
    ensures lists_of_monomials { (p q : Polynomial) → cmp_polynomial p q ≡ cmp_lists (cmp_pairs cmp_monomial nat_cmp) (monomials p) (monomials q) }
    ensures lists_of_stores { (u w : Updates) → cmp_updates u w ≡ cmp_lists (cmp_pairs cmp_polynomial cmp_polynomial) (stores u) (stores w) }
{}

/// Every normal form is in order: its atoms increase, its monomials increase strictly and have at most 4 atoms, its
/// coefficients are words other than 0, and a polynomial has at most 64 monomials. The form built for each kind of
/// expression from parts in order is in order too, and so is every form after a substitution of forms in order.
pub fn forms_are_in_order()
    ensures integers { (e : Integer) → IsNormal (norm_integer e) }
    ensures memories { (m : Memory) → AreProperUpdates (norm_memory m) }
    ensures operations { (o : Op) (p q : Polynomial) → IsNormal p → IsNormal q → IsNormal (norm_op o p q) }
    ensures selections { (u : Updates) (p : Polynomial) → AreProperUpdates u → IsNormal p → IsNormal (norm_sel u p) }
    ensures remainders { (p : Polynomial) (m : ℕ) → IsNormal p → IsNormal (norm_rem p m) }
    ensures updates { (u : Updates) (p v : Polynomial) → AreProperUpdates u → IsNormal p → IsNormal v → AreProperUpdates (norm_upd u p v) }
    ensures integers_under { (e : Integer) (ps : List Polynomial) (u : Updates) → ((i : ℕ) → IsNormal (slice_index_or ps i nought)) → AreProperUpdates u → IsNormal (norm_under e ps u) }
    ensures memories_under { (m : Memory) (ps : List Polynomial) (u : Updates) → ((i : ℕ) → IsNormal (slice_index_or ps i nought)) → AreProperUpdates u → AreProperUpdates (norm_memory_under m ps u) }
{}

/// At each monomial, the coefficient of a sum of polynomials in order is the sum of their coefficients modulo 2^64. If
/// their degrees add up to at most 4, the coefficient of their product is the sum, modulo 2^64, of the products of
/// coefficients over all pairs of monomials whose product is that monomial. Polynomials in order with the same
/// coefficients are the same. An atom occurs in the product of two monomials as often as in the two together.
pub fn forms_are_known_by_coefficients()
    ensures sum { (k : Monomial) (p q : Polynomial) → IsProper p → IsProper q → coefficient k (total p q) ≡ (coefficient k p + coefficient k q) % 2 ^ 64 }
    ensures product { (k : Monomial) (p q : Polynomial) → degree p + degree q ≤ 4 → IsProper p → IsProper q → coefficient k (add_products p q nought) ≡ share_of_products k p q % 2 ^ 64 }
    ensures known { (p q : Polynomial) → IsProper p → IsProper q → ((k : Monomial) → coefficient k p ≡ coefficient k q) → p ≡ q }
    ensures counts { (k : Atom) (m n : Monomial) → count k (join m n) ≡ count k m + count k n }
{}

/// Two expressions are the same exactly when their normal forms are equal. If the numbers in an expression are words,
/// its form denotes the same value as the expression, under every valuation of the integer variables and of the memory
/// by words. So if two such expressions are the same, they denote the same value.
pub fn forms_denote_as_expressions()
    ensures same_forms { (a b : Expression) → same a b ≡ true ↔ norm a ≡ norm b }
    ensures denotes { (e : Expression) (s : Valuation) → IsLawful s → HasWords e → form_denotation (norm e) s ≡ denotation e s }
    ensures same { (a b : Expression) (s : Valuation) → IsLawful s → HasWords a → HasWords b → same a b ≡ true → denotation a s ≡ denotation b s }
{}

/// The form built for each kind of expression, from any forms of its parts, denotes the value of that expression given
/// the values of the parts, under every valuation by words.
pub fn rows_denote()
    ensures words { (w : ℕ) (s : Valuation) → IsWord w → value_polynomial (constant w) s ≡ w }
    ensures variables { (i : ℕ) (s : Valuation) → IsLawful s → value_polynomial (alone (variable_atom i)) s ≡ integer_of s i }
    ensures operations { (o : Op) (p q : Polynomial) (s : Valuation) → IsLawful s → value_polynomial (norm_op o p q) s ≡ apply o (value_polynomial p s) (value_polynomial q s) }
    ensures selections { (u : Updates) (p : Polynomial) (s : Valuation) → IsLawful s → value_polynomial (norm_sel u p) s ≡ word_at (value_updates u s) (value_polynomial p s) }
    ensures remainders { (p : Polynomial) (m : ℕ) (s : Valuation) → IsLawful s → value_polynomial (norm_rem p m) s ≡ value_polynomial p s % m }
    ensures updates { (u : Updates) (p v : Polynomial) (s : Valuation) → value_updates (norm_upd u p v) s ≡ with_word (value_updates u s) (value_polynomial p s) (value_polynomial v s) }
    ensures memory_variables { (s : Valuation) → value_updates unchanged s ≡ s.memory }
    ensures words_only { (p : Polynomial) (s : Valuation) → IsWord (value_polynomial p s) }
    ensures memories_of_words { (u : Updates) (s : Valuation) (a : ℕ) → IsLawful s → IsWord (word_at (value_updates u s) a) }
{}

/// The form of an expression after a substitution is its form under the substituted forms. If the numbers in the
/// expression are words, that form denotes, under every valuation by words, the value that the expression has in the
/// valuation that the substitution gives. Under the variables' own forms, an expression has its normal form.
pub fn substitution_is_on_forms()
    ensures integer_forms { (e : Integer) (es : List Integer) (k : Memory) → norm_integer (substitute e es k) ≡ norm_under e (map norm_integer es) (norm_memory k) }
    ensures memory_forms { (m : Memory) (es : List Integer) (k : Memory) → norm_memory (substitute_memory m es k) ≡ norm_memory_under m (map norm_integer es) (norm_memory k) }
    ensures integer_values { (e : Integer) (es : List Integer) (k : Memory) (s : Valuation) → value (substitute e es k) s ≡ value e (valuation_after es k s) }
    ensures memory_values { (m : Memory) (es : List Integer) (k : Memory) (s : Valuation) → memory_value (substitute_memory m es k) s ≡ memory_value m (valuation_after es k s) }
    ensures integers_under { (e : Integer) (ps : List Polynomial) (u : Updates) (s : Valuation) → IsLawful s → AreWords e → value_polynomial (norm_under e ps u) s ≡ value e (valuation_under ps u s) }
    ensures memories_under { (m : Memory) (ps : List Polynomial) (u : Updates) (s : Valuation) → IsLawful s → AreWordsOfMemory m → value_updates (norm_memory_under m ps u) s ≡ memory_value m (valuation_under ps u s) }
    ensures lawful { (ps : List Polynomial) (u : Updates) (s : Valuation) → IsLawful s → IsLawful (valuation_under ps u s) }
    ensures own_integers { (e : Integer) (n : ℕ) (ps : List Polynomial) → ((i : ℕ) → i < n → slice_index_or ps i nought ≡ alone (variable_atom i)) → IsWithin n e → norm_under e ps unchanged ≡ norm_integer e }
    ensures own_memories { (m : Memory) (n : ℕ) (ps : List Polynomial) → ((i : ℕ) → i < n → slice_index_or ps i nought ≡ alone (variable_atom i)) → IsMemoryWithin n m → norm_memory_under m ps unchanged ≡ norm_memory m }
{}

/// Each node of a valid list stands for exactly one tree. The numbers in the tree are words, and its variables are
/// within the node's scope. The form of a node, computed from the forms of its parts, is that of its tree.
pub fn nodes_stand_for_trees()
    ensures stands { (nodes : List Node) (n : ℕ) (node : Node) → AreNodes nodes → slice_get nodes n ≡ Some node → StandsFor nodes n (tree_at nodes n) }
    ensures one { (nodes : List Node) (n : ℕ) (t : Expression) → AreNodes nodes → StandsFor nodes n t → tree_at nodes n ≡ t }
    ensures words { (nodes : List Node) (n : ℕ) (node : Node) → AreNodes nodes → slice_get nodes n ≡ Some node → HasWords (tree_at nodes n) }
    ensures variables { (nodes : List Node) (n : ℕ) (node : Node) → AreNodes nodes → slice_get nodes n ≡ Some node → HasVariablesBelow node.scope (tree_at nodes n) }
    ensures forms { (ps : List Polynomial) (u : Updates) (nodes : List Node) → forms_of_nodes ps u [] nodes ≡ map (form_under ps u) (trees nodes) }
    ensures form { (ps : List Polynomial) (u : Updates) (nodes : List Node) (n : ℕ) (node : Node) → AreNodes nodes → slice_get nodes n ≡ Some node → form_under ps u (tree_at nodes n) ≡ form_of ps u (map (form_under ps u) (trees nodes)) node.shape }
{}
