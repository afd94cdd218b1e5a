//! The store queue: the stores that wait for their blue counterparts.
//!
//! The crate promises that a queue is a list of at most eight pairs of address and value, oldest first, and that no
//! call but `new` allocates. `PendingStores` has the same clauses for a queue in any representation, so that one loop
//! runs a machine over each. `specs/Pending.antt` of `ft_isa` defines what the calls do, and the definition of the
//! machine uses the same file.
#![tactic(auto)]

mod pending_stores;
mod queue;

pub use pending_stores::PendingStores;
pub use queue::{Full, ROOM, StoreQueue};

#[cfg(test)]
mod tests;
