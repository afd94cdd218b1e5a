//! Modules, and the objects that they are linked into, as definitions and laws.
//!
//! A module is an accepted object. `specs/Linked.antt` defines the object into which a map links modules,
//! `specs/LinkRefusals.antt` why it cannot link them, and `specs/ModulesRun.antt` the run that goes from module to
//! module. The crate promises in `laws` that modules can be linked exactly when nothing is refused, that they are
//! tested in turn, and that trees of expressions can be compared by their numbers (`specs/TreeKeys.antt`). It promises
//! in `module_laws` that a module to which refusals 3, 4 and 5 do not apply (`IsModule`) is refused only because of
//! totals, and that permitted exchanges leave it such a module. It promises in `linking_laws` that the linked object is
//! spellable and accepted, that it runs as its modules do, and that one fault in it is masked or detected.
#![tactic(auto)]

mod before;
mod examples;
mod laws;
mod linking_laws;
mod module_laws;

pub use before::Before;
pub use laws::{
    equal_keys_are_of_equal_trees, linkable_modules_are_not_refused, modules_are_refused_in_turn,
};
pub use linking_laws::{
    laid_nodes_stand_for_the_same_trees, linked_objects_are_accepted,
    linked_objects_run_as_their_modules, linked_objects_tolerate_one_fault,
};
pub use module_laws::{exchanges_keep_modules, modules_are_refused_for_totals_alone};
