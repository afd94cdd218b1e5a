//! Laws of sessions.
ghost use Rattle.std.specs.Prelude.{◌≡◌, ℕ, List, [], ◌∷◌, Some, None};
ghost use Rattle.ft_isa.specs.declared.plan.Wild.{Wild};
ghost use Rattle.ft_isa.specs.declared.plan.Strike.{Strike};
ghost use Rattle.ft_types.specs.declared.object.Object.{Object};
ghost use Rattle.ft_semantics.specs.Strike.{struck_before};
ghost use Rattle.ft_semantics.specs.Run.{state_after, wild_after};
ghost use Rattle.ft_debug.specs.Sessions.{shown};

/// With at most one strike, a session shows at each position the state of a run of the machine after that many steps,
/// and the remaining answers to wild loads: without a strike, those of the run without a fault; with one, those of the
/// run whose plan has that strike. At the strike's own position the state shown is already struck, while the run makes
/// the strike in its next step.
pub fn sessions_show_runs()
    ensures state { (o : Object) (w : List Wild) (n : ℕ) → (shown o w [] n).state ≡ state_after o None w n }
    ensures wild { (o : Object) (w : List Wild) (n : ℕ) → (shown o w [] n).wild ≡ wild_after o None w n }
    ensures struck_state { (o : Object) (w : List Wild) (s : Strike) (n : ℕ) → (shown o w (s ∷ []) n).state ≡ struck_before (Some s) n (state_after o (Some s) w n) }
    ensures struck_wild { (o : Object) (w : List Wild) (s : Strike) (n : ℕ) → (shown o w (s ∷ []) n).wild ≡ wild_after o (Some s) w n }
{}
