//! Reading objects.
ghost use Rattle.std.specs.Prelude.{◌≡◌, ◌↔◌, None, Some, IfOk, IsErrOf};
ghost use Rattle.ft_types.specs.declared.object.Object.{Object};
ghost use Rattle.ft_object.specs.Judged.{Judges, Gives};
ghost use Rattle.ft_format.specs.Broken.{front_broken, broken, object_of, version_at};
ghost use Rattle.ft_format.specs.Format.{Spells};
ghost use Rattle.ft_format.specs.declared.version.Version.{Version};

use crate::copying::copy_object;
use crate::decode_error::DecodeError;
use ft_format::ObjectError;
use ft_types::Object;
use ft_view::View;
use std::alloc::Global;

/// Reads the object, or returns the first rule that is broken.
#[tactic(auto, using(ft_types::proofs::Counted::spellable_counted), unfolding(ft_format::specs::Broken::broken))]
fn read_object(alloc: Global, bytes: &[u8]) -> Result<Object, DecodeError>
    ensures judged { Judges result (broken bytes.now) }
    ensures front { (e : ObjectError) → front_broken bytes.now ≡ Some e → IsErrOf result (DecodeError.Object e) }
    ensures read { IfOk result (λ o. o ≡ object_of bytes.now) }
{
    match View::over(bytes) {
        Ok(view) => copy_object(alloc, &view),
        Err(error) => Err(DecodeError::Object(error)),
    }
}

/// Returns the object that the bytes spell, or the first rule of the format that they break, with its place, or
/// `NoMemory`.
pub fn decode(alloc: Global, bytes: &[u8]) -> Result<Object, DecodeError>
    // The result is the object that the bytes spell, in the version that they name.
    ensures spelled { IfOk result (Spells bytes.now (version_at bytes.now)) }
    // An object that the bytes spell is returned, unless memory runs out.
    ensures given { (v : Version) (o : Object) → Spells bytes.now v o → Gives result o }
    // An error is the first rule broken, and none is broken if an object is returned.
    ensures judged { Judges result (broken bytes.now) }
    // No rule is broken exactly when the bytes spell some object, and they spell only one.
    ensures exact { (broken bytes.now ≡ None) ↔ ((v : Version) × (o : Object) × Spells bytes.now v o) }
    ensures one { (v w : Version) (o other : Object) → Spells bytes.now v o → Spells bytes.now w other → o ≡ other }
    // If a rule for the length, the header or the total is broken, its error is returned, even if there is no memory.
    ensures front { (e : ObjectError) → front_broken bytes.now ≡ Some e → IsErrOf result (DecodeError.Object e) }
{
    read_object(alloc, bytes)
}
