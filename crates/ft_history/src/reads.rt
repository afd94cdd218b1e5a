//! What reads returned.
ghost use Rattle.std.specs.Prelude.{◌≡◌, ℕ, List, [], ◌∷◌};
ghost use Rattle.std.specs.Borrow.{ftrue};

use std::marker::{Model, PhantomData};

/// What each read returned, the newest first.
#[derive(Drop)]
pub struct Reads {
    marker: PhantomData<u8>,
    pub ghost all: { List (List ℕ) },
}

impl Model for Reads {
    ghost also_owns = { λ _. ftrue };
}

impl Reads {
    /// Nothing was read.
    pub fn new() -> Reads
        ensures { result.all ≡ [] }
    {
        Reads {
            marker: PhantomData,
        }
    }

    /// A read returned these bytes.
    pub fn note(&mut self, _bytes: &[u8])
        ensures { self.new.all ≡ _bytes.now ∷ self.old.all }
    {}
}
