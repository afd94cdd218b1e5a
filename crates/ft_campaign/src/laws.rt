//! Laws of verdicts and of fault lists, over the definitions only. Each function does nothing: its
//! clauses are the law.
ghost use Rattle.std.specs.Prelude.{◌≡◌, ◌≢◌, ◌≤◌, ℕ, List};
ghost use Rattle.ft_isa.specs.declared.plan.Strike.{Strike};
ghost use Rattle.ft_isa.specs.declared.plan.Wild.{Wild};
ghost use Rattle.ft_types.specs.declared.object.Object.{Object};
ghost use Rattle.ft_typing.specs.Accepted.{IsAccepted};
ghost use Rattle.ft_types.specs.Spellable.{IsSpellable};
ghost use Rattle.ft_campaign.specs.declared.fault_list.ListError.{ListError};
ghost use Rattle.ft_campaign.specs.declared.fault_list.ListError.TheVariants.{NoMemory};
ghost use Rattle.ft_campaign.specs.declared.verdict.Verdict.{Verdict};
ghost use Rattle.ft_campaign.specs.declared.verdict.Verdict.TheVariants.{Corrupt};
ghost use Rattle.ft_campaign.specs.FaultList.{IsFaultList, IsListError};
ghost use Rattle.ft_campaign.specs.Verdicts.{IsVerdict};
ghost use Rattle.ft_campaign.specs.Snapshots.{Meets, HasMet};

/// No fault of an accepted object is corrupt.
pub fn faults_of_accepted_objects_are_not_corrupt()
    ensures { (o : Object) (x : Strike) (w : List Wild) (n : ℕ) → IsSpellable o → IsAccepted o → ¬ (IsVerdict o x w n Corrupt) }
{}

/// A fault has at most one verdict.
pub fn verdicts_are_one()
    ensures { (o : Object) (x : Strike) (w : List Wild) (n : ℕ) (u v : Verdict) → IsVerdict o x w n u → IsVerdict o x w n v → u ≡ v }
{}

/// A text is at most one fault list, has at most one refusal apart from `NoMemory`, and is never both a list and
/// refused.
pub fn one_text_has_one_list()
    ensures list { (text : List ℕ) (xs ys : List Strike) → IsFaultList text xs → IsFaultList text ys → xs ≡ ys }
    ensures refusal { (text : List ℕ) (e f : ListError) → e ≢ NoMemory → f ≢ NoMemory → IsListError text e → IsListError text f → e ≡ f }
    ensures either { (text : List ℕ) (xs : List Strike) (e : ListError) → e ≢ NoMemory → IsFaultList text xs → ¬ (IsListError text e) }
{}

/// If two runs meet, they reach the same states from then on, and the rest of their outputs is the same.
pub fn runs_that_meet_stay_together()
    ensures { (o : Object) (x : Strike) (w : List Wild) (m n : ℕ) → Meets o x w m → m ≤ n → HasMet o x w m n }
{}
