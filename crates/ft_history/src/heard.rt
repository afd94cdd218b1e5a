//! What opened files gave.
ghost use Rattle.std.specs.Prelude.{◌≡◌, List, [], ◌∷◌};
ghost use Rattle.std.specs.Borrow.{ftrue};
ghost use Rattle.ft_history.specs.Files.{HeardFile, opened, gave};

use std::marker::{Model, PhantomData};

/// The files that were opened, the newest first, each with what its reads returned.
#[derive(Drop)]
pub struct Heard {
    marker: PhantomData<u8>,
    pub ghost files: { List HeardFile },
}

impl Model for Heard {
    ghost also_owns = { λ _. ftrue };
}

impl Heard {
    /// No file was opened.
    pub fn new() -> Heard
        ensures { result.files ≡ [] }
    {
        Heard {
            marker: PhantomData,
        }
    }

    /// A file with this name was opened.
    pub fn opened(&mut self, _name: &[u8])
        ensures { self.new.files ≡ opened self.old.files _name.now }
    {}

    /// A read of the newest file returned these bytes, or none at its end.
    pub fn gave(&mut self, _bytes: &[u8])
        ensures { self.new.files ≡ gave self.old.files _bytes.now }
    {}
}
