//! Laws of runs of accepted objects, over the definitions only. Each function does nothing: its
//! clause is the law.
ghost use Rattle.std.specs.Prelude.{◌≡◌, ℕ, List, None, Option};
ghost use Rattle.ft_isa.specs.declared.colour.Colour.{Colour};
ghost use Rattle.ft_isa.specs.declared.plan.Site.{Site};
ghost use Rattle.ft_isa.specs.declared.plan.Strike.{Strike};
ghost use Rattle.ft_isa.specs.declared.plan.Wild.{Wild};
ghost use Rattle.ft_types.specs.declared.object.Object.{Object};
ghost use Rattle.ft_semantics.specs.declared.status.Status.TheVariants.{Running};
ghost use Rattle.ft_typing.specs.Accepted.{IsAccepted};
ghost use Rattle.ft_semantics.specs.Agrees.{Agrees};
ghost use Rattle.ft_semantics.specs.Run.{outputs_after, status_after};
ghost use Rattle.ft_types.specs.Spellable.{IsSpellable};
ghost use Rattle.ft_semantics.specs.State.{State};
ghost use Rattle.ft_semantics.specs.Step.{step};
ghost use Rattle.ft_semantics.specs.Strike.{struck_state};
ghost use Rattle.ft_tolerance.specs.Alike.{AreAlike, Follows, IsAlikeLater, StaysAlike, colour_of_site};
ghost use Rattle.ft_tolerance.specs.Soundness.{FitsAfter, Keeps};
ghost use Rattle.ft_tolerance.specs.TypedState.{Fits, IsPlace, Place};

/// Every row of the table of steps preserves typing: from every running state that fits a place of an accepted
/// object, whatever answers to wild loads are left, the step ends the run or leads to a state that fits the next place.
/// It makes no fetch outside the code, no wild load, no green store into a full queue and no blue store from an empty
/// one.
pub fn rows_keep_what_fits()
    ensures { (o : Object) (p : Place) (s : State) (w : List Wild) → IsSpellable o → IsAccepted o → IsPlace o p → s.status ≡ Running → Fits o p s → Keeps o p s w }
{}

/// Without a fault, the run of an accepted object fits its place as long as it is running, takes no answer to a wild
/// load, and is never detected.
pub fn accepted_objects_fit_their_types()
    ensures { (o : Object) (w : List Wild) (n : ℕ) → IsSpellable o → IsAccepted o → FitsAfter o w n }
{}

/// The states before and after a strike are alike, for the colour of the struck site.
pub fn strikes_leave_states_alike()
    ensures { (s : State) (site : Site) (v : ℕ) → AreAlike (colour_of_site s site) s (struck_state s site v) }
{}

/// If two states are alike, and the first is running and fits a place of an accepted object, then a step from each
/// leads to alike states with the same output, or the second is detected without one, whatever answers to wild loads
/// are left to either.
pub fn steps_keep_states_alike()
    ensures { (c : Colour) (o : Object) (p : Place) (s t : State) (w v : List Wild) → IsSpellable o → IsAccepted o → IsPlace o p → s.status ≡ Running → Fits o p s → AreAlike c s t → Follows c (step o s w) (step o t v) }
{}

/// Right after a strike, and after each later step, the struck run of an accepted object and the run without the
/// strike, after the same number of steps, are in states that are alike for the colour of the struck site, or the
/// struck run is detected.
pub fn struck_runs_stay_alike()
    ensures from_strike { (o : Object) (strike : Strike) (w : List Wild) (n : ℕ) → IsSpellable o → IsAccepted o → StaysAlike o strike w n }
    ensures later { (o : Object) (strike : Strike) (w : List Wild) (n : ℕ) → IsSpellable o → IsAccepted o → IsAlikeLater o strike w n }
{}

/// One fault is masked or detected: after any number of steps, the run of an accepted object under a plan with at most
/// one strike has the outputs and the status of the run without the strike, or it is detected and its outputs are a
/// prefix of that run's outputs.
pub fn one_fault_is_masked_or_detected()
    ensures { (o : Object) (strike : Option Strike) (w : List Wild) (n : ℕ) → IsSpellable o → IsAccepted o → Agrees (outputs_after o strike w n) (status_after o strike w n) (outputs_after o None w n) (status_after o None w n) }
{}
