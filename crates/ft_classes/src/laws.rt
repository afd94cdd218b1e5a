//! Laws of classes of faults, over the definitions only: for any object, accepted or not. Each function does nothing: its
//! clauses are the law.
ghost use Rattle.std.specs.Prelude.{◌≡◌, ◌≢◌, ◌↔◌, ◌^◌, length, ◌<◌, ℕ, List, Some, None, true, false};
ghost use Rattle.ft_isa.specs.declared.plan.Site.{Site};
ghost use Rattle.ft_isa.specs.declared.plan.Strike.{Strike};
ghost use Rattle.ft_isa.specs.declared.plan.Wild.{Wild};
ghost use Rattle.ft_isa.specs.Words.{IsWord};
ghost use Rattle.ft_types.specs.declared.object.Object.{Object};
ghost use Rattle.ft_semantics.specs.declared.status.Status.TheVariants.{Running, Detected};
ghost use Rattle.ft_semantics.specs.Strike.{is_there};
ghost use Rattle.ft_semantics.specs.Run.{state_after, status_after, is_struck};
ghost use Rattle.ft_campaign.specs.declared.verdict.Verdict.{Verdict};
ghost use Rattle.ft_campaign.specs.declared.verdict.Verdict.TheVariants.{Masked, Corrupt};
ghost use Rattle.ft_campaign.specs.Verdicts.{IsVerdict};
ghost use Rattle.ft_access.specs.Access.{reads_site};
ghost use Rattle.ft_access.specs.Lasting.{fetched_at, Lasts, IsDead, strike_at};
ghost use Rattle.ft_access.specs.Fates.{representative};
ghost use Rattle.ft_access.specs.Changed.{change_at};
ghost use Rattle.ft_access.specs.Counters.{is_counter, counter_of};
ghost use Rattle.ft_classes.specs.CounterVerdicts.{counter_verdict};

/// Two strikes of a word that lasts from the first to the second have the same verdict in a campaign. A strike of a word
/// that is never read is masked.
pub fn verdicts_wait()
    ensures lasting { (o : Object) (w : List Wild) (n k : ℕ) (x : Site) (v l : ℕ) (y : Site) → Lasts o w k x l y → l < n →
        (u : Verdict) → IsVerdict o (strike_at k x v) w n u ↔ IsVerdict o (strike_at l y v) w n u }
    ensures dead { (o : Object) (w : List Wild) (n k : ℕ) (x : Site) (v : ℕ) → IsDead o w n k x → k < n →
        IsVerdict o (strike_at k x v) w n Masked }
{}

/// A fault that strikes has the verdict of the representative of its class, and is masked if it has none.
pub fn representatives_have_the_verdicts()
    ensures some { (o : Object) (w : List Wild) (n : ℕ) (x z : Strike) → is_struck o (Some x) w n ≡ true →
        representative o w n x ≡ Some z → (u : Verdict) → IsVerdict o x w n u ↔ IsVerdict o z w n u }
    ensures none { (o : Object) (w : List Wild) (n : ℕ) (x : Strike) → is_struck o (Some x) w n ≡ true →
        representative o w n x ≡ None → IsVerdict o x w n Masked }
{}

/// If no fault that writes a word just before a step that reads the site is corrupt, then no fault that writes this word is
/// corrupt, at any step and any site. If the run without a fault is not detected, counters need not be struck at all.
pub fn faults_before_reads_are_enough()
    ensures any { (o : Object) (w : List Wild) (n : ℕ) (x : Strike) →
        ((l : ℕ) (y : Site) → l < n → is_there (state_after o None w l) y ≡ true → reads_site (fetched_at o w l) y ≡ true →
        ¬ (IsVerdict o (strike_at l y x.value) w n Corrupt)) → ¬ (IsVerdict o x w n Corrupt) }
    ensures but_counters { (o : Object) (w : List Wild) (n : ℕ) → status_after o None w n ≢ Detected → length o.instrs < 2 ^ 64 →
        (x : Strike) → IsWord x.value →
        ((l : ℕ) (y : Site) → l < n → is_there (state_after o None w l) y ≡ true → is_counter y ≡ false →
        reads_site (fetched_at o w l) y ≡ true → ¬ (IsVerdict o (strike_at l y x.value) w n Corrupt)) →
        ¬ (IsVerdict o x w n Corrupt) }
{}

/// Changes of a word that lasts, such as a flip of one bit, have the same verdict before the first step and before the last.
pub fn changes_wait()
    ensures { (o : Object) (w : List Wild) (n : ℕ) (f : ℕ → ℕ) (k : ℕ) (x : Site) (l : ℕ) (y : Site) →
        Lasts o w k x l y → l < n → (u : Verdict) →
        IsVerdict o (change_at o w f k x) w n u ↔ IsVerdict o (change_at o w f l y) w n u }
{}

/// The verdict of a strike of a program counter follows from a run without a fault that is not detected: another word is
/// detected by the next fetch, unless no fetch comes or a transfer overwrites the word first; the same word is masked.
pub fn counters_need_no_run()
    ensures other { (o : Object) (w : List Wild) (n k : ℕ) (x : Site) (v : ℕ) → is_counter x ≡ true → k < n →
        status_after o None w k ≡ Running → status_after o None w n ≢ Detected → length o.instrs < 2 ^ 64 → IsWord v →
        v ≢ counter_of x (state_after o None w k) → IsVerdict o (strike_at k x v) w n (counter_verdict o w n k) }
    ensures same { (o : Object) (w : List Wild) (n k : ℕ) (x : Site) → is_counter x ≡ true → k < n →
        status_after o None w k ≡ Running → IsVerdict o (strike_at k x (counter_of x (state_after o None w k))) w n Masked }
{}
