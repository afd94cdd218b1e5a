//! Laws of the format's definitions, for all bytes and objects.
ghost use Rattle.std.specs.Prelude.{◌≡◌, ◌↔◌, ◌++◌, ℕ, [], None, Some, List, set, slice_get};
ghost use Rattle.ft_types.specs.declared.object.Object.{Object};
ghost use Rattle.ft_types.specs.Spellable.{IsSpellable};
ghost use Rattle.ft_format.specs.Broken.{broken, object_of, version_at};
ghost use Rattle.ft_format.specs.Format.{AreBytes, Spells};
ghost use Rattle.ft_format.specs.Versions.{number};
ghost use Rattle.ft_format.specs.declared.version.Version.{Version};
ghost use Rattle.ft_format.specs.declared.version.Version.TheVariants.{First, Second};

/// Bytes break no rule exactly when they spell an object, and the object and the version are unique.
pub fn rules_are_exact()
    // Bytes that break no rule spell an object, in the version that they name.
    ensures spelled { (bytes : List ℕ) → AreBytes bytes → broken bytes ≡ None → Spells bytes (version_at bytes) (object_of bytes) }
    // Bytes that spell an object break no rule.
    ensures unbroken { (bytes : List ℕ) (v : Version) (o : Object) → Spells bytes v o → broken bytes ≡ None }
    // They spell no other object, and in no other version.
    ensures one { (bytes : List ℕ) (v : Version) (o : Object) → Spells bytes v o → object_of bytes ≡ o }
    ensures version { (bytes : List ℕ) (v : Version) (o : Object) → Spells bytes v o → version_at bytes ≡ v }
    // Byte 7 is the number of the version.
    ensures number { (bytes : List ℕ) (v : Version) (o : Object) → Spells bytes v o → slice_get bytes 7 ≡ Some (number v) }
{}

/// An object obeys the rules of its tables exactly when some version 2 bytes spell it. These are the version 2 bytes
/// that break no rule and stand for it, and each version has at most one such list of bytes. The clauses `exact` and
/// `one` judge bytes by `broken` and read them by `object_of`; they don't mention how an object is written.
pub fn spellings_are_one()
    // The objects that obey the rules are those that some version 2 bytes spell.
    ensures spelled { (o : Object) → IsSpellable o ↔ ((bytes : List ℕ) × Spells bytes Second o) }
    // They are those that valid version 2 bytes stand for.
    ensures exact { (o : Object) → IsSpellable o ↔ ((bytes : List ℕ) × AreBytes bytes × (broken bytes ≡ None) × (version_at bytes ≡ Second) × (object_of bytes ≡ o)) }
    // Valid bytes of the same version that stand for the same object are equal.
    ensures one { (a b : List ℕ) → AreBytes a → AreBytes b → broken a ≡ None → broken b ≡ None → version_at a ≡ version_at b → object_of a ≡ object_of b → a ≡ b }
{}

/// No spelling is a prefix of another, whatever their versions.
pub fn spellings_are_apart()
    ensures { (bytes rest : List ℕ) (v w : Version) (o other : Object) → Spells bytes v o → Spells (bytes ++ rest) w other → rest ≡ [] }
{}

/// A version 1 spelling with byte 7 set to 2 is a version 2 spelling of the same object.
pub fn versions_differ_in_byte_7()
    ensures { (bytes : List ℕ) (o : Object) → Spells bytes First o → Spells (set bytes 7 2) Second o }
{}
