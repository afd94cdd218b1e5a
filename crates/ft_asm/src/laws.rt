//! Laws of texts.
ghost use Rattle.std.specs.Prelude.{◌≡◌, ℕ, List};
ghost use Rattle.ft_types.specs.declared.object.Object.{Object};
ghost use Rattle.ft_types.specs.Spellable.{IsSpellable};
ghost use Rattle.ft_asm.specs.Reads.{Reads, text_of, Answer, Applies};

/// A text reads as at most one object.
pub fn readings_are_one()
    ensures { (text : List ℕ) (a b : Object) → Reads text a → Reads text b → a ≡ b }
{}

/// The text of an object that obeys the rules reads as that object and no other.
pub fn texts_are_read()
    ensures reads { (object : Object) → IsSpellable object → Reads (text_of object) object }
    ensures only { (object other : Object) → IsSpellable object → Reads (text_of object) other → other ≡ object }
{}

/// Each text has one outcome: one object, or one refusal.
pub fn answers_are_one()
    ensures some { (text : List ℕ) → (x : Answer) × Applies text x }
    ensures one { (text : List ℕ) (x y : Answer) → Applies text x → Applies text y → x ≡ y }
{}
