//! Laws of points, over the definitions only. Each function does nothing: its clauses are the law.
ghost use Rattle.std.specs.Prelude.{◌≡◌, ◌<◌, ◌≤◌, ◌+◌, ℕ, true, List, None, Option, Some};
ghost use Rattle.ft_isa.specs.declared.colour.Colour.{Colour};
ghost use Rattle.ft_isa.specs.declared.plan.Strike.{Strike};
ghost use Rattle.ft_isa.specs.declared.plan.Wild.{Wild};
ghost use Rattle.ft_types.specs.declared.object.Object.{Object};
ghost use Rattle.ft_types.specs.declared.object.Block.{Block};
ghost use Rattle.ft_types.specs.Spellable.{IsSpellable};
ghost use Rattle.ft_typing.specs.Accepted.{IsAccepted};
ghost use Rattle.ft_typing.specs.TypedWord.{block_at};
ghost use Rattle.ft_semantics.specs.declared.status.Status.TheVariants.{Running};
ghost use Rattle.ft_semantics.specs.State.{State, start};
ghost use Rattle.ft_semantics.specs.Strike.{struck_before};
ghost use Rattle.ft_semantics.specs.Run.{state_after};
ghost use Rattle.ft_semantics.specs.Step.{step};
ghost use Rattle.ft_tolerance.specs.Alike.{AreAlike};
ghost use Rattle.ft_tolerance.specs.TypedState.{Fits, IsPlace, Place, next_place};
ghost use Rattle.ft_points.specs.Certified.{is_certified, is_paired};
ghost use Rattle.ft_points.specs.Points.{AreTogether, Completes, GoTogether, GoesOnFrom, IsMaskedFrom, IsPoint, IsRight, Leg};
ghost use Rattle.ft_points.specs.Points.{after_leg, after_legs, run_from, unstruck};

/// A certified state that is alike to a state that fits a place of an accepted object fits that place itself, under
/// the same valuation: so its typed words are those of the other state.
pub fn certified_states_fit()
    ensures { (c : Colour) (o : Object) (p : Place) (s t : State) → IsSpellable o → IsAccepted o → IsPlace o p → Fits o p s →
        AreAlike c s t → is_certified o t ≡ true → Fits o p t }
{}

/// A running state that fits a place of an accepted object at the start of a block whose rows have partners, with
/// nothing fetched, is certified. So a run without a fault is certified wherever it may be, and a state there that is
/// not certified shows a fault.
pub fn faultless_states_are_certified()
    ensures { (o : Object) (p : Place) (s : State) (b : Block) → IsSpellable o → IsAccepted o → IsPlace o p → s.status ≡ Running →
        Fits o p s → s.fetched ≡ None → block_at o s.pc_green ≡ Some b → is_paired o b.code_type ≡ true →
        is_certified o s ≡ true }
{}

/// Two states that fit one place of an accepted object under one valuation, with the same fetched, go on alike: a step
/// from each has the same output and leads to states that fit one place again, or ends both runs. Words in registers
/// without a type may differ.
pub fn states_at_one_place_go_together()
    ensures { (o : Object) (p : Place) (s t : State) (w v : List Wild) → IsSpellable o → IsAccepted o → AreTogether o p s t →
        GoTogether o (next_place o s.fetched s p) (step o s w) (step o t v) }
{}

/// After any legs of a run of an accepted object, each under at most one strike, and each from the state that was
/// certified last: the outputs are a prefix of those of the run without a fault; they are all of them if the last leg
/// ended as done; and from the state kept, the run without a fault goes on. So any number of faults, at most one in
/// each leg, leaves the output right.
pub fn legs_are_right()
    ensures { (o : Object) (xs : List Leg) → IsSpellable o → IsAccepted o → IsRight o (after_legs o xs) }
{}

/// After any legs, a leg without a strike is never detected; if it takes at least as many steps as the run without a
/// fault takes until it is done, it ends as done, with the whole output.
pub fn faultless_legs_complete()
    ensures { (o : Object) (xs : List Leg) (w : List Wild) (n : ℕ) → IsSpellable o → IsAccepted o →
        Completes o w n (after_leg o (unstruck w n) (after_legs o xs)) }
{}

/// If the state of a run of an accepted object is certified some time after a strike, the strike is masked from then
/// on: the run has the outputs and the status of the run without the strike.
pub fn certified_runs_are_masked()
    ensures { (o : Object) (strike : Strike) (w : List Wild) (n : ℕ) → IsSpellable o → IsAccepted o → strike.step < n →
        is_certified o (state_after o (Some strike) w n) ≡ true → IsMaskedFrom o strike w n }
{}

/// The start of an accepted object is a point. After a point and at most one strike, a certified state is a point again,
/// even right after the strike. From a point, the run without a fault goes on.
pub fn points_are_renewed()
    ensures first { (o : Object) → IsSpellable o → IsAccepted o → IsPoint o 0 (start o) }
    ensures renewed { (o : Object) (n : ℕ) (s : State) (strike : Option Strike) (w : List Wild) (k : ℕ) → IsSpellable o →
        IsAccepted o → IsPoint o n s → ((x : Strike) → strike ≡ Some x → x.step ≤ k) →
        is_certified o (struck_before strike k (run_from o s strike w k).state) ≡ true →
        IsPoint o (n + k) (struck_before strike k (run_from o s strike w k).state) }
    ensures rest { (o : Object) (n : ℕ) (s : State) → IsSpellable o → IsAccepted o → IsPoint o n s → GoesOnFrom o n s }
{}
