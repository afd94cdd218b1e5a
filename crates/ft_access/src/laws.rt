//! Laws of accesses, over the definitions only: for any object, accepted or not. Each function does nothing: its clauses
//! are the law.
ghost use Rattle.std.specs.Prelude.{◌≡◌, ◌↔◌, ◌<◌, ◌≤◌, ℕ, suc, List, Some, None, true, false};
ghost use Rattle.ft_isa.specs.declared.plan.Site.{Site};
ghost use Rattle.ft_isa.specs.declared.plan.Wild.{Wild};
ghost use Rattle.ft_types.specs.declared.object.Object.{Object};
ghost use Rattle.ft_semantics.specs.declared.status.Status.TheVariants.{Running};
ghost use Rattle.ft_semantics.specs.State.{State};
ghost use Rattle.ft_semantics.specs.Step.{step};
ghost use Rattle.ft_semantics.specs.Strike.{is_there, struck_state};
ghost use Rattle.ft_semantics.specs.Run.{run, state_after, status_after};
ghost use Rattle.ft_access.specs.Access.{reads_site, overwrites, site_after};
ghost use Rattle.ft_access.specs.Lasting.{IsUnnoticed, IsPostponed, IsUntouched, fetched_at, Lasts, IsDead, strike_at};
ghost use Rattle.ft_access.specs.Lasting.{IsSameAfter};
ghost use Rattle.ft_access.specs.Fates.{IsReadAt, representative};
ghost use Rattle.ft_access.specs.Changed.{word_at};

/// A step that does not read a word has the same output, answers left and status if the word is struck before the step.
/// If the machine still runs after it, a word that the step overwrites leaves no trace, and any other may as well be
/// struck after the step.
pub fn unread_words_wait()
    ensures unnoticed { (o : Object) (s : State) (w : List Wild) (x : Site) (v : ℕ) → is_there s x ≡ true →
        reads_site s.fetched x ≡ false → IsUnnoticed (step o s w) (step o (struck_state s x v) w) }
    ensures gone { (o : Object) (s : State) (w : List Wild) (x : Site) (v : ℕ) → is_there s x ≡ true →
        reads_site s.fetched x ≡ false → overwrites s.fetched x ≡ true → (step o s w).state.status ≡ Running →
        step o (struck_state s x v) w ≡ step o s w }
    ensures postponed { (o : Object) (s : State) (w : List Wild) (x : Site) (v : ℕ) → is_there s x ≡ true →
        reads_site s.fetched x ≡ false → overwrites s.fetched x ≡ false → (step o s w).state.status ≡ Running →
        IsPostponed (site_after s.fetched x) v (step o s w) (step o (struck_state s x v) w) }
{}

/// A word that is there lasts, at its site, for as long as the machine runs and no step touches it.
pub fn untouched_words_last()
    ensures { (o : Object) (w : List Wild) (k : ℕ) (x : Site) → is_there (state_after o None w k) x ≡ true → (l : ℕ) → k ≤ l →
        status_after o None w l ≡ Running → ((i : ℕ) → k ≤ i → i < l → IsUntouched (fetched_at o w i) x) → Lasts o w k x l x }
{}

/// If a word lasts from one step to a later one, two strikes that write it before the one and before the other give the
/// same outputs and the same status after each step, and the same runs after the later step.
pub fn faults_may_come_later()
    ensures outputs { (o : Object) (w : List Wild) (k : ℕ) (x : Site) (v l : ℕ) (y : Site) → Lasts o w k x l y → (n : ℕ) →
        IsSameAfter o (Some (strike_at k x v)) (Some (strike_at l y v)) w n }
    ensures runs { (o : Object) (w : List Wild) (k : ℕ) (x : Site) (v l : ℕ) (y : Site) → Lasts o w k x l y → (n : ℕ) → l < n →
        run o (Some (strike_at k x v)) w n ≡ run o (Some (strike_at l y v)) w n }
{}

/// A strike of a word that is never read changes no output and no status. After a step that overwrites the word, if the
/// machine still runs, nothing is left of the strike.
pub fn dead_words_change_nothing()
    ensures outputs { (o : Object) (w : List Wild) (n k : ℕ) (x : Site) (v : ℕ) → IsDead o w n k x → (m : ℕ) → m ≤ n →
        IsSameAfter o (Some (strike_at k x v)) None w m }
    ensures runs { (o : Object) (w : List Wild) (k : ℕ) (x : Site) (v l : ℕ) (y : Site) → Lasts o w k x l y →
        reads_site (fetched_at o w l) y ≡ false → overwrites (fetched_at o w l) y ≡ true →
        status_after o None w (suc l) ≡ Running → (n : ℕ) → l < n → run o (Some (strike_at k x v)) w n ≡ run o None w n }
{}

/// The faults that a strike represents are exactly those whose word lasts until the strike's step and is read there.
pub fn classes_are_exact()
    ensures { (o : Object) (w : List Wild) (n k : ℕ) (x : Site) (v l : ℕ) (y : Site) → k ≤ n →
        is_there (state_after o None w k) x ≡ true →
        (representative o w n (strike_at k x v) ≡ Some (strike_at l y v)) ↔ IsReadAt o w n k x l y }
{}

/// A word that lasts keeps its value.
pub fn lasting_words_keep_their_values()
    ensures { (o : Object) (w : List Wild) (k : ℕ) (x : Site) (l : ℕ) (y : Site) → Lasts o w k x l y →
        word_at y (state_after o None w l) ≡ word_at x (state_after o None w k) }
{}
