//! The linker's interface: modules are added one by one, then linked.
ghost use Rattle.std.specs.Prelude.{◌≡◌, [], ◌∷◌, ◌++◌, None, length, IfErr, IfOk, OnErr, OnOk};
ghost use Rattle.ft_link_map.specs.Sound.{IsSound};
ghost use Rattle.ft_linker.specs.LinkErrors.{IsRefusalOf};
ghost use Rattle.ft_linker.specs.Linking.{IsLinked, added_refusal, refusal_of};

use crate::link_error::LinkError;
use crate::modules::Modules;
use ft_checker::Checked;
use ft_isa::NoMemory;
use ft_link_map::LinkMap;
use ft_types::{Object, Program, copy_object};
use std::alloc::Global;
use std::marker::Model;

/// The modules that were added, in order. The linker keeps a copy of each.
#[derive(Drop)]
pub struct Linker {
    alloc: Global,
    modules: Modules,
}

impl Model for Linker {
    ghost use Rattle.std.specs.Prelude.{List};
    ghost use Rattle.ft_types.specs.declared.object.Object.{Object};

    ghost Value = { List Object };

    ghost view = { λ l. l.modules };
}

impl Linker {
    /// A linker without modules.
    pub fn new(alloc: Global) -> Result<Linker, NoMemory>
        ensures { IfOk result (λ l. l ≡ []) }
    {
        Ok(Linker {
            alloc,
            modules: Modules::new(alloc),
        })
    }

    /// Adds a checked program as the next module. It is refused exactly as `added_refusal` says: if its cells differ
    /// from the first module's or have a `code` base, if a register row has a `code` base, if the walk fails, or if a
    /// total exceeds its limit. After an error the linker is unchanged.
    pub fn add<'a, P: Program>(&mut self, checked: &Checked<'a, P>) -> Result<(), LinkError>
        ensures ok { OnOk result (self.new ≡ self.old ++ P.object checked.now ∷ []) }
        ensures unrefused { OnOk result (added_refusal self.old (P.object checked.now) ≡ None) }
        ensures refused { IfErr result (λ e. IsRefusalOf (added_refusal self.old (P.object checked.now)) e) }
        ensures err { OnErr result (self.new ≡ self.old) }
    {
        let program = checked.program();
        match copy_object(self.alloc, program) {
            Ok(object) => self.modules.add(object),
            Err(_) => Err(LinkError::NoMemory),
        }
    }

    /// Links the modules by a sound map and consumes the linker. The map has as many files as there are modules; they
    /// correspond in order. The linked object obeys the rules of the format, is accepted, runs as the modules do, and
    /// tolerates one fault. The errors are `Block`, `Stub`, `Missing` and `Types`, exactly as `refusal_of` says, and
    /// `NoMemory`.
    pub fn finish(self, linkage: &LinkMap) -> Result<Object, LinkError>
        requires sound { IsSound linkage.now }
        requires modules { length self ≡ length linkage.now.files }
        ensures linked { IfOk result (λ o. IsLinked linkage.now self o) }
        ensures unrefused { OnOk result (refusal_of linkage.now self ≡ None) }
        ensures refused { IfErr result (λ e. IsRefusalOf (refusal_of linkage.now self) e) }
    {
        self.modules.link(linkage)
    }
}
