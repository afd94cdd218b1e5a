//! A law about the spelling of any object that fits.
ghost use Rattle.std.specs.Prelude.{◌≡◌, None};
ghost use Rattle.ft_types.specs.declared.object.Object.{Object};
ghost use Rattle.ft_types.specs.Spellable.{IsSpellable};
ghost use Rattle.ft_format.specs.Broken.{broken, object_of, version_at};
ghost use Rattle.ft_format.specs.Format.{AreBytes};
ghost use Rattle.ft_format.specs.Rows.{spelling};
ghost use Rattle.ft_format.specs.declared.version.Version.{Version};
ghost use Rattle.ft_format.specs.declared.version.Version.TheVariants.{Second};
ghost use Rattle.ft_format.specs.Fits.{Fits};

/// If an object fits into the records, reading its spelling gives it back, whether or not it obeys the rules.
pub fn fitting_objects_are_read()
    ensures read { (v : Version) (o : Object) → Fits o → object_of (spelling v o) ≡ o }
    ensures version { (v : Version) (o : Object) → Fits o → version_at (spelling v o) ≡ v }
    // So if the spelling breaks no rule, the object obeys the rules.
    ensures lawful { (o : Object) → Fits o → AreBytes (spelling Second o) → broken (spelling Second o) ≡ None → IsSpellable o }
{}
