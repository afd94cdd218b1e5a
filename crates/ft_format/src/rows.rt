//! Records as structs of their numbers.

pub(crate) mod cell_row;
pub(crate) mod code_row;
pub(crate) mod node_row;
pub(crate) mod pair_row;
pub(crate) mod reg_row;
pub(crate) mod subst_row;
pub(crate) mod type_row;
