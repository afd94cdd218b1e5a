//! Pairs of expressions that have the same normal form, and pairs that don't. The functions do nothing: their clauses
//! are computed from the definitions.
ghost use Rattle.std.specs.Prelude.{◌≡◌, ◌-◌, ◌^◌, true, false, [], ◌∷◌};
ghost use Rattle.ft_isa.specs.declared.op.Op.TheVariants.{And};
ghost use Rattle.ft_static.specs.Examples.{x, y, z, add, sub, mul, ltu, eq, and, or, xor, shl, shr, sum_up, sum_down, at_x, past_x, then_y, nodes};
ghost use Rattle.ft_static.specs.Expression.{integer, memory, word, sel, rem, upd, memory_variable};
ghost use Rattle.ft_static.specs.Form.{integer_form, nought, one, operation_atom, plus, rem_atom, times, unchanged};
ghost use Rattle.ft_static.specs.NodeRules.{AreNodes};
ghost use Rattle.ft_static.specs.NodeTree.{tree_at};
ghost use Rattle.ft_static.specs.NormalForm.{alone, constant, norm, norm_add, norm_integer, norm_rem, same, form_under};

/// Words and variables.
pub fn examples_of_words()
    ensures words_wrap { same (integer (add (word (2 ^ 64 - 1)) (word 1))) (integer (word 0)) ≡ true }
    ensures words_differ { same (integer (word 1)) (integer (word 2)) ≡ false }
    ensures one_variable { same (integer x) (integer (add x (word 0))) ≡ true }
    ensures two_variables { same (integer x) (integer y) ≡ false }
{}

/// Sums and differences.
pub fn examples_of_sums()
    ensures order_of_terms { same (integer (add x y)) (integer (add y x)) ≡ true }
    ensures another_term { same (integer (add x y)) (integer (add x x)) ≡ false }
    ensures halves_vanish { same (integer (add (mul (word (2 ^ 63)) x) (mul (word (2 ^ 63)) x))) (integer (word 0)) ≡ true }
    ensures quarters_stay { same (integer (add (mul (word (2 ^ 62)) x) (mul (word (2 ^ 62)) x))) (integer (word 0)) ≡ false }
    ensures sum_less_a_term { same (integer (sub (add x y) y)) (integer x) ≡ true }
    ensures difference_turned_round { same (integer (sub x y)) (integer (sub y x)) ≡ false }
    ensures sum_of_64 { same (integer (sum_up 0 63)) (integer (sum_down 0 63)) ≡ true }
    ensures sum_of_65 { same (integer (sum_up 0 64)) (integer (sum_down 0 64)) ≡ false }
    ensures zeros_are_dropped_first { same (integer (add (sum_up 0 63) (sub z x))) (integer (sum_up 1 63)) ≡ true }
    ensures sum_less_itself { same (integer (sub (sum_up 0 63) (sum_up 0 63))) (integer (word 0)) ≡ true }
    ensures difference_of_65 { same (integer (sub (sum_up 0 63) z)) (integer (add (sum_up 0 63) (mul (word (2 ^ 64 - 1)) z))) ≡ true }
{}

/// Products.
pub fn examples_of_products()
    ensures square { same (integer (mul (add x y) (add x y))) (integer (add (add (mul x x) (mul (mul (word 2) x) y)) (mul y y))) ≡ true }
    ensures square_with_one_middle_term { same (integer (mul (add x y) (add x y))) (integer (add (add (mul x x) (mul x y)) (mul y y))) ≡ false }
    ensures degree_4 { same (integer (mul (mul x y) (mul x y))) (integer (mul (mul x x) (mul y y))) ≡ true }
    ensures degree_5 { same (integer (mul (mul (mul x y) (mul x y)) x)) (integer (mul x (mul (mul x y) (mul x y)))) ≡ false }
    ensures products_64 { same (integer (mul (sum_up 0 7) (sum_up 8 7))) (integer (mul (sum_down 8 7) (sum_up 0 7))) ≡ true }
    ensures products_65 { same (integer (mul (sum_up 0 4) (sum_up 5 12))) (integer (mul (sum_up 5 12) (sum_up 0 4))) ≡ false }
    ensures degrees_add_up { same (integer (mul (mul (word (2 ^ 63)) (mul x (mul x x))) (mul (word 2) (mul y y)))) (integer (word 0)) ≡ false }
    ensures products_72 { same (integer (mul (sum_up 0 7) (sum_up 0 8))) (integer (mul (sum_up 0 8) (sum_up 0 7))) ≡ false }
{}

/// Tests.
pub fn examples_of_tests()
    ensures less { same (integer (ltu (word 1) (word 2))) (integer (word 1)) ≡ true }
    ensures not_less { same (integer (ltu (word 2) (word 1))) (integer (word 1)) ≡ false }
    ensures less_of_forms { same (integer (ltu (add x y) x)) (integer (ltu (add y x) x)) ≡ true }
    ensures less_than_itself { same (integer (ltu x x)) (integer (word 0)) ≡ false }
    ensures equal { same (integer (eq (word 3) (word 3))) (integer (word 1)) ≡ true }
    ensures not_equal { same (integer (eq (word 3) (word 4))) (integer (word 1)) ≡ false }
    ensures equal_differences { same (integer (eq (sub x x) (word 0))) (integer (word 1)) ≡ true }
    ensures equal_to_itself { same (integer (eq x x)) (integer (word 1)) ≡ false }
    ensures equal_turned_round { same (integer (eq x y)) (integer (eq y x)) ≡ false }
{}

/// Operations on bits.
pub fn examples_of_bits()
    ensures and_of_words { same (integer (and (word 12) (word 10))) (integer (word 8)) ≡ true }
    ensures or_of_words { same (integer (or (word 12) (word 10))) (integer (word 14)) ≡ true }
    ensures xor_of_words { same (integer (xor (word 12) (word 10))) (integer (word 6)) ≡ true }
    ensures left { same (integer (shl (word 3) (word 2))) (integer (word 12)) ≡ true }
    ensures left_out_of_a_word { same (integer (shl (word (2 ^ 63)) (word 1))) (integer (word 0)) ≡ true }
    ensures left_by_64 { same (integer (shl (word 1) (word 64))) (integer (word 0)) ≡ true }
    ensures right { same (integer (shr (word 13) (word 2))) (integer (word 3)) ≡ true }
    ensures right_by_64 { same (integer (shr (word (2 ^ 64 - 1)) (word 64))) (integer (word 0)) ≡ true }
    ensures an_atom { norm (integer (and x y)) ≡ integer_form (alone (operation_atom And (norm_integer x) (norm_integer y))) }
    ensures bits_of_forms { same (integer (or (add x y) x)) (integer (or (add y x) x)) ≡ true }
    ensures turned_round { same (integer (and x y)) (integer (and y x)) ≡ false }
    ensures with_itself { same (integer (xor x x)) (integer (word 0)) ≡ false }
    ensures left_by_one { same (integer (shl x (word 1))) (integer (mul x (word 2))) ≡ false }
    ensures right_by_none { same (integer (shr x (word 0))) (integer x) ≡ false }
{}

/// Remainders, and the form of the address of a cell in a run.
pub fn examples_of_remainders()
    ensures of_a_word { same (integer (rem (word 7) 3)) (integer (word 1)) ≡ true }
    ensures of_a_difference { same (integer (rem (sub (add x (word 7)) x) 3)) (integer (word 1)) ≡ true }
    ensures of_a_sum { norm (integer (rem (add x y) 3)) ≡ integer_form (alone (rem_atom (norm_integer (add x y)) 3)) }
    ensures of_forms { same (integer (rem (add x y) 3)) (integer (rem (add y x) 3)) ≡ true }
    ensures another_length { same (integer (rem x 3)) (integer (rem x 4)) ≡ false }
    ensures of_a_remainder { same (integer (rem (rem x 3) 3)) (integer (rem x 3)) ≡ false }
    ensures by_one { same (integer (rem x 1)) (integer (word 0)) ≡ false }
    ensures in_a_run { norm_add (constant 1048578) (norm_rem (norm_integer x) 3) ≡ plus one 1048578 (plus (times (rem_atom (norm_integer x) 3) one) 1 nought) }
    ensures in_a_run_at_a_word { norm_add (constant 1048578) (norm_rem (constant 7) 3) ≡ constant 1048579 }
{}

/// Memories.
pub fn examples_of_memories()
    ensures unchanged { same (memory memory_variable) (memory memory_variable) ≡ true }
    ensures changed { same (memory memory_variable) (memory at_x) ≡ false }
    ensures two_sorts { same (memory memory_variable) (integer (word 0)) ≡ false }
    ensures newest_address { same (memory (upd at_x (sub (add x y) y) (word 9))) (memory (upd memory_variable x (word 9))) ≡ true }
    ensures older_address { same (memory (upd past_x x (word 9))) (memory (upd (upd memory_variable x (word 9)) (add x (word 1)) (word 8))) ≡ false }
    ensures older_update_stays { same (memory (upd past_x x (word 9))) (memory (upd (upd memory_variable (add x (word 1)) (word 8)) x (word 9))) ≡ false }
{}

/// Words of memories.
pub fn examples_of_selections()
    ensures at_the_newest { same (integer (sel at_x x)) (integer (word 7)) ≡ true }
    ensures past_a_known_difference { same (integer (sel past_x x)) (integer (word 7)) ≡ true }
    ensures to_the_end { same (integer (sel past_x (sub x (word 1)))) (integer (sel memory_variable (sub x (word 1)))) ≡ true }
    ensures stops_at_the_unknown { same (integer (sel then_y x)) (integer (word 7)) ≡ false }
    ensures keeps_the_rest { same (integer (sel (upd then_y (add x (word 1)) (word 9)) x)) (integer (sel then_y x)) ≡ true }
    ensures another_address { same (integer (sel memory_variable x)) (integer (sel memory_variable y)) ≡ false }
{}

/// Numbered nodes, their trees, and a form with the word 2 substituted for the variable.
pub fn examples_of_nodes()
    ensures lawful { AreNodes nodes }
    ensures sum { tree_at nodes 3 ≡ integer (add x (word 5)) }
    ensures selection { tree_at nodes 4 ≡ integer (sel memory_variable (add x (word 5))) }
    ensures substituted { form_under (constant 2 ∷ []) unchanged (tree_at nodes 3) ≡ norm (integer (word 7)) }
{}
