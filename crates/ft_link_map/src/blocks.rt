//! Sets of blocks that earlier lines exported or imported.
ghost use Rattle.std.specs.Prelude.{◌≡◌, ◌||◌, ◌&&◌, ◌==◌, not, false, ℕ, IfOk, OnOk};
ghost use Rattle.ft_link_map.specs.Held.{knows_block};

use std::alloc::{AllocError, Global};
use std::collections::BTreeSet;

/// An ordered set of blocks, each given by its module and its number in that module.
#[derive(Drop)]
pub(crate) struct Blocks {
    places: BTreeSet<(u32, u32)>,
}

impl Blocks {
    /// The empty set.
    #[tactic(auto, unfolding(crate::specs::Held::knows_block))]
    pub(crate) fn new(alloc: Global) -> Blocks
        ensures { (m b : ℕ) → knows_block result m b ≡ false }
    {
        Blocks {
            places: BTreeSet::new(alloc),
        }
    }

    /// Whether a block is in the set.
    #[tactic(auto, unfolding(crate::specs::Held::knows_block))]
    pub(crate) fn has(&self, module: u32, block: u32) -> bool
        ensures { result ≡ knows_block self.now «module» block }
    {
        self.places.contains(&(module, block))
    }

    /// Adds a block; returns whether the set already had it.
    #[tactic(auto, unfolding(crate::specs::Held::knows_block))]
    pub(crate) fn note(&mut self, module: u32, block: u32) -> Result<bool, AllocError>
        ensures told { IfOk result (λ known. known ≡ knows_block self.old «module» block) }
        ensures noted { OnOk result ((m b : ℕ) → knows_block self.new m b ≡ (((«module» == m) && (block == b)) || knows_block self.old m b)) }
    {
        let added = self.places.insert((module, block))?;
        Ok(!added)
    }
}
