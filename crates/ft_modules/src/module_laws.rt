//! Laws of one module, over the definitions only. Each function does nothing: its clause is the law.
ghost use Rattle.std.specs.Prelude.{◌≡◌, ◌∷◌, ◌++◌, [], ℕ, List, None};
ghost use Rattle.ft_types.specs.declared.object.Cell.{Cell};
ghost use Rattle.ft_types.specs.declared.object.Object.{Object};
ghost use Rattle.ft_exchange.specs.Scheduled.{ComesFrom};
ghost use Rattle.ft_modules.specs.Linkable.{IsModule};
ghost use Rattle.ft_modules.specs.LinkRefusals.{TooBig, are_few, module_refusal, modules_refusal, unless};

/// A module to which refusals 3, 4 and 5 do not apply (`IsModule`) is refused, after any other modules, exactly when
/// the totals exceed their limits. By itself it is never refused.
pub fn modules_are_refused_for_totals_alone()
    ensures behind { (cells : List Cell) (o : Object) → IsModule cells o → (earlier : List Object) (m : ℕ) → module_refusal earlier m cells o ≡ unless (are_few (earlier ++ o ∷ [])) (TooBig m) }
    ensures alone { (o : Object) → IsModule o.cells o → modules_refusal [] 0 o.cells (o ∷ []) ≡ None }
{}

/// An object that comes from a module by permitted exchanges, such as a schedule, is a module too: the walk of its
/// blocks does not fail.
pub fn exchanges_keep_modules()
    ensures { (cells : List Cell) (o s : Object) → IsModule cells o → ComesFrom o s → IsModule cells s }
{}
