//! What holds of every pool and of every history.

ghost use Rattle.std.specs.Prelude.{◌≡◌, ◌<◌, ℕ, List, [], ◌∷◌, ◌++◌, None, IsSome};
ghost use Rattle.ad_eval.specs.Judgement.{Judgement};
ghost use Rattle.claim_id.specs.declared.numbers.JobId.{JobId};
ghost use Rattle.claim_id.specs.declared.numbers.SlotId.{SlotId};
ghost use Rattle.pool_mail.specs.declared.end.End.{End};
ghost use Rattle.pool_view.specs.AbstractStep.{Takes};
ghost use Rattle.thin_pool.specs.declared.event.Event.{Event};
ghost use Rattle.thin_pool.specs.declared.event.Event.TheVariants.{Start, Ended};
ghost use Rattle.thin_pool.specs.declared.history.Step.{Step};
ghost use Rattle.thin_pool.specs.declared.slot.PoolSlot.{PoolSlot};
ghost use Rattle.thin_pool.specs.PoolValue.{PoolValue, IsConsistent, slot_at};
ghost use Rattle.thin_pool.specs.Reactions.{opening_pool, refusal, pool_after};
ghost use Rattle.thin_pool.specs.Histories.{Reacts, LeadsTo, Shows};
ghost use Rattle.thin_pool.specs.View.{view_of};
ghost use Rattle.thin_pool.specs.Moving.{steps_of, EachMoves};
ghost use Rattle.thin_pool.specs.Resting.{IsResting, StartsThen, idle_count};
ghost use Rattle.thin_pool.specs.Sound.{IsSound};

/// A history goes on by one more accepted event.
pub fn histories_grow()
    ensures { (p q r : PoolValue) (list : List Step) (s : Step) → LeadsTo p list q
        → Reacts q s.event s.kept r → LeadsTo p (list ++ s ∷ []) r }
{}

/// An event that a pool accepts keeps what always holds of a pool.
pub fn events_keep_consistent()
    ensures { (p : PoolValue) (ev : Event) → IsConsistent p → refusal p ev ≡ None
        → IsConsistent (pool_after p ev) }
{}

/// It keeps what holds of every pool that a `Pool` may be.
pub fn events_keep_sound()
    ensures { (p : PoolValue) (ev : Event) → IsSound p → refusal p ev ≡ None
        → IsSound (pool_after p ev) }
{}

/// A job that starts where nothing runs may end in every way and at every reading. Then nothing
/// runs again, and fewer jobs are idle.
pub fn runs_end_in_rest()
    ensures may_end { StartsThen (λ p q job. (end : End) (late : ℕ)
        → refusal q (Ended job end late) ≡ None) }
    ensures rests { StartsThen (λ p q job. (end : End) (late : ℕ)
        → IsResting (pool_after q (Ended job end late))) }
    ensures fewer { StartsThen (λ p q job. (end : End) (late : ℕ)
        → idle_count (pool_after q (Ended job end late)) < idle_count p) }
{}

/// A slot whose start a pool accepts is one of its slots.
pub fn starts_are_placed()
    ensures { (p : PoolValue) (job : JobId) (slot : SlotId) (judged : Judgement) (reading : ℕ)
        → refusal p (Start job slot judged reading) ≡ None → IsSome (slot_at slot p.slots) }
{}

/// No event changes a pool's slots.
pub fn events_keep_slots()
    ensures { (p : PoolValue) (ev : Event) → (pool_after p ev).slots ≡ p.slots }
{}

/// An event that a pool accepts makes the abstract steps named for it.
pub fn events_make_steps()
    ensures { (p : PoolValue) (ev : Event) → IsConsistent p → refusal p ev ≡ None
        → Takes (view_of p) (steps_of p ev) (view_of (pool_after p ev)) }
{}

/// Whatever the events and their readings, each moves the pool by steps of the abstract pool, and
/// every pool is safe.
pub fn histories_are_safe()
    ensures { (slots : List PoolSlot) (list : List Step) (p : PoolValue)
        → LeadsTo (opening_pool slots) list p → EachMoves (opening_pool slots) list }
{}

/// A pool shows what its history says.
pub fn histories_are_shown()
    ensures { (slots : List PoolSlot) (list : List Step) (p : PoolValue)
        → LeadsTo (opening_pool slots) list p → Shows slots list p }
{}
