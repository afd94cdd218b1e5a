//! The modules of a linker, as objects.
ghost use Rattle.std.specs.Prelude.{◌≡◌, [], ◌∷◌, ◌++◌, None, length, IfErr, IfOk, OnErr, OnOk};
ghost use Rattle.ft_types.specs.Spellable.{IsSpellable};
ghost use Rattle.ft_typing.specs.Accepted.{IsAccepted};
ghost use Rattle.ft_link_map.specs.Sound.{IsSound};

use crate::assembling::put_together;
use crate::checks::{check_lines, check_module};
use crate::imports::check_imports;
use crate::laying::lay;
use crate::link_error::LinkError;
use crate::numbers::number_trees;
use crate::totals::Totals;
use ft_link_map::LinkMap;
use ft_types::Object;
use std::alloc::Global;
use std::marker::Model;

/// The objects that were added, in order. Each obeys the rules of the format, is accepted and was not refused.
#[derive(Drop)]
pub struct Modules {
    alloc: Global,
    objects: Vec<Object>,
    totals: Totals,
}

impl Model for Modules {
    ghost use Rattle.std.specs.Prelude.{◌≡◌, List};
    ghost use Rattle.ft_types.specs.declared.object.Object.{Object};
    ghost use Rattle.ft_linker.specs.Linking.{AreAdded};
    ghost use Rattle.ft_linker.specs.Totals.{totals_of};

    ghost Value = { List Object };

    ghost view = { λ m. m.objects.items };

    ghost invariant = { λ m. AreAdded m.objects.items × (m.totals ≡ totals_of m.objects.items) };
}

impl Modules {
    ghost use Rattle.ft_linker.specs.LinkErrors.{IsRefusalOf};
    ghost use Rattle.ft_linker.specs.Linking.{IsLinked, added_refusal, refusal_of};

    /// No objects.
    pub fn new(alloc: Global) -> Modules
        ensures { result ≡ [] }
    {
        Modules {
            alloc,
            objects: Vec::new(alloc),
            totals: Totals::none(),
        }
    }

    /// Adds an object. If it is refused or memory runs out, the objects are unchanged.
    pub fn add(&mut self, object: Object) -> Result<(), LinkError>
        requires spelled { IsSpellable object }
        requires accepted { IsAccepted object }
        ensures ok { OnOk result (self.new ≡ self.old ++ object ∷ []) }
        ensures unrefused { OnOk result (added_refusal self.old object ≡ None) }
        ensures refused { IfErr result (λ e. IsRefusalOf (added_refusal self.old object) e) }
        ensures err { OnErr result (self.new ≡ self.old) }
    {
        let totals = self.totals.with(&object);
        let few = totals.are_few();
        match check_module(self.objects.as_slice(), &object, few) {
            Ok(()) => {}
            Err(error) => return Err(error),
        }
        match self.objects.push(object) {
            Ok(()) => {}
            Err(_) => return Err(LinkError::NoMemory),
        }
        self.totals = totals;
        Ok(())
    }

    /// Links the objects by a sound map with as many files as there are objects.
    pub fn link(&self, linkage: &LinkMap) -> Result<Object, LinkError>
        requires sound { IsSound linkage.now }
        requires modules { length self.now ≡ length linkage.now.files }
        ensures linked { IfOk result (λ o. IsLinked linkage.now self.now o) }
        ensures unrefused { OnOk result (refusal_of linkage.now self.now ≡ None) }
        ensures refused { IfErr result (λ e. IsRefusalOf (refusal_of linkage.now self.now) e) }
    {
        let objects = self.objects.as_slice();
        match check_lines(objects, linkage) {
            Ok(()) => {}
            Err(error) => return Err(error),
        }
        let Ok(laid) = lay(self.alloc, objects) else {
            return Err(LinkError::NoMemory);
        };
        let Ok(numbers) = number_trees(self.alloc, laid.nodes.as_slice()) else {
            return Err(LinkError::NoMemory);
        };
        match check_imports(
            objects,
            &laid,
            numbers.as_slice(),
            &linkage.exports,
            &linkage.imports,
        ) {
            Ok(()) => {}
            Err(error) => return Err(error),
        }
        match put_together(self.alloc, objects, linkage, laid) {
            Ok(object) => Ok(object),
            Err(_) => Err(LinkError::NoMemory),
        }
    }
}
