//! Comparisons of forms.
ghost use Rattle.std.specs.Prelude.{◌≡◌};
ghost use Rattle.ft_static.specs.Form.{same_polynomial, same_updates};
ghost use Rattle.ft_norm.specs.Held.{IsInteger, IsMemory, polynomial, updates_held};

use ft_norm::{Form, Interner};

/// Whether two integers have the same form.
pub fn same_integers(forms: &Interner, a: Form, b: Form) -> bool
    requires first { IsInteger forms.now a }
    requires second { IsInteger forms.now b }
    ensures { result ≡ same_polynomial (polynomial forms.now a) (polynomial forms.now b) }
{
    forms.same(a, b)
}

/// Whether two memories have the same form.
pub fn same_memories(forms: &Interner, a: Form, b: Form) -> bool
    requires first { IsMemory forms.now a }
    requires second { IsMemory forms.now b }
    ensures { result ≡ same_updates (updates_held forms.now a) (updates_held forms.now b) }
{
    forms.same(a, b)
}
