//! The set of names that earlier lines exported.
ghost use Rattle.std.specs.Prelude.{◌≡◌, ◌||◌, not, false, ℕ, List, IfOk, OnOk};
ghost use Rattle.std.specs.Str.{bytes_eq};
ghost use Rattle.ft_link_map.specs.Held.{knows_name};

use std::alloc::{AllocError, Global};
use std::collections::BTreeSet;

/// An ordered set of names.
#[derive(Drop)]
pub(crate) struct Names<'t> {
    texts: BTreeSet<&'t [u8]>,
}

impl<'t> Names<'t> {
    /// The empty set.
    #[tactic(auto, unfolding(crate::specs::Held::knows_name))]
    pub(crate) fn new(alloc: Global) -> Names<'t>
        ensures { (text : List ℕ) → knows_name result text ≡ false }
    {
        Names {
            texts: BTreeSet::new(alloc),
        }
    }

    /// Adds a name; returns whether the set already had it.
    #[tactic(auto, unfolding(crate::specs::Held::knows_name))]
    pub(crate) fn note(&mut self, name: &'t [u8]) -> Result<bool, AllocError>
        ensures told { IfOk result (λ known. known ≡ knows_name self.old name.now) }
        ensures noted { OnOk result ((text : List ℕ) → knows_name self.new text ≡ (bytes_eq name.now text || knows_name self.old text)) }
    {
        let added = self.texts.insert(name)?;
        Ok(!added)
    }
}
