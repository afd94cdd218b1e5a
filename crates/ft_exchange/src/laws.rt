//! Laws of exchanges, over the definitions only. Each function does nothing: its clause is the law.
ghost use Rattle.std.specs.Prelude.{◌≡◌, ℕ, List, None, Option};
ghost use Rattle.ft_isa.specs.declared.plan.Strike.{Strike};
ghost use Rattle.ft_isa.specs.declared.plan.Wild.{Wild};
ghost use Rattle.ft_types.specs.declared.object.Object.{Object};
ghost use Rattle.ft_typing.specs.Accepted.{IsAccepted};
ghost use Rattle.ft_semantics.specs.Agrees.{Agrees};
ghost use Rattle.ft_semantics.specs.Run.{outputs_after, status_after};
ghost use Rattle.ft_types.specs.Spellable.{IsSpellable};
ghost use Rattle.ft_exchange.specs.Exchange.{IsPermitted, after_exchange};
ghost use Rattle.ft_exchange.specs.Scheduled.{ComesFrom, IsScheduled};
ghost use Rattle.ft_exchange.specs.Alike.{RunsAlike};

/// A permitted exchange keeps an object spellable and accepted.
pub fn exchanges_keep_acceptance()
    ensures spellable { (o : Object) (b k : ℕ) → IsSpellable o → IsPermitted o b k → IsSpellable (after_exchange o b k) }
    ensures accepted { (o : Object) (b k : ℕ) → IsSpellable o → IsAccepted o → IsPermitted o b k → IsAccepted (after_exchange o b k) }
{}

/// Any number of permitted exchanges, one after another, keep an accepted object spellable and accepted.
pub fn schedules_are_accepted()
    ensures spellable { (o s : Object) → IsSpellable o → IsAccepted o → ComesFrom o s → IsSpellable s }
    ensures accepted { (o s : Object) → IsSpellable o → IsAccepted o → ComesFrom o s → IsAccepted s }
{}

/// Permitted exchanges keep the statuses of runs without a fault, and their outputs, which may come
/// up to 131,072 steps later.
pub fn exchanges_keep_runs()
    ensures { (o s : Object) (w : List Wild) (n : ℕ) → IsSpellable o → IsAccepted o → ComesFrom o s → RunsAlike o s w n }
{}

/// One fault is masked or detected in an object that comes from an accepted one by permitted exchanges.
pub fn schedules_tolerate_one_fault()
    ensures { (o s : Object) (strike : Option Strike) (w : List Wild) (n : ℕ) → IsSpellable o → IsAccepted o → ComesFrom o s → Agrees (outputs_after s strike w n) (status_after s strike w n) (outputs_after s None w n) (status_after s None w n) }
{}

/// An object has at most one schedule: leading instructions keep their order among themselves, and so do trailing ones,
/// so which instructions pass each other does not depend on the order of the exchanges.
pub fn schedules_are_equal()
    ensures { (o s t : Object) → IsSpellable o → IsScheduled o s → IsScheduled o t → s ≡ t }
{}
