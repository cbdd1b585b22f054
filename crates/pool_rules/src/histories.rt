//! What holds of every list of events that a pool accepts, from its opening on, in the words of the
//! abstract pool.

ghost use Rattle.std.specs.Prelude.{◌≡◌, ◌↔◌, ◌⊎◌, ℕ, List, Option, Some, IfSome};
ghost use Rattle.claim_id.specs.declared.numbers.ClaimId.{ClaimId};
ghost use Rattle.claim_id.specs.declared.numbers.JobId.{JobId};
ghost use Rattle.pool_parts.specs.declared.answer.Answer.TheVariants.{Launch};
ghost use Rattle.pool_parts.specs.declared.answer.Stepped.{Stepped};
ghost use Rattle.pool_parts.specs.declared.event.Event.{Event};
ghost use Rattle.pool_parts.specs.declared.event.Event.TheVariants.{Logged};
ghost use Rattle.pool_rules.specs.Launched.{IsPermitOf};
ghost use Rattle.pool_rules.specs.Shown.{IsKnown, LeftRightly};
ghost use Rattle.pool_rules.specs.Happens.{Reacts};
ghost use Rattle.pool_rules.specs.Logging.{cluster_jobs};
ghost use Rattle.pool_rules.specs.Parts.{finished_in, parts_of};
ghost use Rattle.pool_parts.specs.declared.pending.Pending.{Pending};
ghost use Rattle.pool_parts.specs.declared.pending.Unfinished.TheVariants.{Submission};
ghost use Rattle.pool_view.specs.Protocol.{Protocol};
ghost use Rattle.pool_state.specs.Openings.{IsOpenedBy};
ghost use Rattle.pool_state.specs.PoolViews.{IsViewOf};
ghost use Rattle.pool_state.specs.declared.opening.Opening.{Opening};
ghost use Rattle.pool_state.specs.declared.state.PoolState.{PoolState};
ghost use Rattle.pool_view.specs.AbstractPool.{AbstractPool, IsIn, Stands};
ghost use Rattle.pool_view.specs.AbstractStep.{AbstractStep, Moves, Takes};
ghost use Rattle.pool_view.specs.Safe.{AreAcknowledgedKept, AreEndingsSaid, AreRunsMatched, HasOneLeasePerJob, HasOneRunPerSlot, Safe};
ghost use Rattle.pool_view.specs.Views.{pool_of};
ghost use Rattle.pool_view.specs.declared.job.Outcome.{Outcome};
ghost use Rattle.pool_view.specs.declared.job.State.TheVariants.{Done};
ghost use Rattle.pool_view.specs.declared.view.View.{View};
ghost use Rattle.queue_tx.specs.Operations.{Operation};
ghost use Rattle.receipt_roll.specs.Values.{ReceiptValue};
ghost use Rattle.schedd_state.specs.Reopening.{IsReader};
ghost use Rattle.schedd_core.specs.ScheddParts.{IsMarked, IsThere};
ghost use Rattle.startd_core.specs.declared.answer.Permit.{Permit};
ghost use Rattle.pool_rules.specs.Histories.{IsEvent, IsHistory, IsOrderedIn, LeadsTo, OfHistories, OrdersOnly, HasView, Step, latest_in};
ghost use Rattle.pool_rules.specs.Kept.{IsKept};
ghost use Rattle.pool_rules.specs.Orders.{OrdersRemoval};
ghost use Rattle.pool_rules.specs.Steps.{AreStepsOf};

/// Every pool of a history is kept to a protocol. It shows an abstract pool, which its views are.
pub fn histories_are_kept()
    ensures kept { (o : Opening) (list : List Step) (s : PoolState) → IsHistory o list s
        → (p : Protocol) × IsKept p s }
    ensures shown { (o : Opening) (list : List Step) (s : PoolState) → IsHistory o list s
        → (v : AbstractPool) × HasView s v }
    ensures views { (read : List ℕ → Option ClaimId) → IsReader read → (o : Opening)
        (list : List Step) (s : PoolState) (view : View) → IsHistory o list s → IsViewOf read s view
        → HasView s (pool_of view) }
{}

/// It is safe: each run and its slot match; no slot has two runs, and no run's number is there
/// twice; no job has two runs whose leases end later than the greatest reading; each acknowledged
/// job is in the queue or has left it; and each job that has left it did so by an end that a startd
/// said, or by an order.
pub fn histories_are_safe()
    ensures safe { OfHistories Safe }
    ensures matched { OfHistories AreRunsMatched }
    ensures one_run_per_slot { OfHistories HasOneRunPerSlot }
    ensures one_lease_per_job { OfHistories HasOneLeasePerJob }
    ensures acknowledged_kept { OfHistories AreAcknowledgedKept }
    ensures endings_said { OfHistories AreEndingsSaid }
{}

/// An event moves the abstract pool by steps of its own that may be made, one after the other, and
/// all events from one pool of a history to another move it by steps that may be made. A step of an
/// event orders a job's removal only where the event does.
pub fn events_make_steps()
    ensures event { (o : Opening) (list : List Step) (s : PoolState) (e : Event) (r : Stepped)
        (new : PoolState) (v w : AbstractPool) → IsEvent o list s e r new v w
        → (steps : List AbstractStep) × Takes v steps w × AreStepsOf e s steps
        × OrdersOnly e s steps }
    ensures all { (o : Opening) (list more : List Step) (s t : PoolState) (v w : AbstractPool)
        → IsHistory o list s → LeadsTo s more t → HasView s v → HasView t w → Moves v w }
{}

/// The pool's moment is the greatest reading of its events.
pub fn moments_are_readings()
    ensures { (o : Opening) (list : List Step) (s : PoolState) → IsHistory o list s
        → s.latest ≡ latest_in list 0 }
{}

/// What a startd launches is a run of the abstract pool after the event, of the permit's job and of
/// what that job's ad says, and it was started by a match of its slot's ad and its job's.
pub fn launches_are_matched()
    ensures { (o : Opening) (list : List Step) (s : PoolState) (e : Event) (r : Stepped)
        (new : PoolState) (v w : AbstractPool) (permit : Permit) → IsEvent o list s e r new v w
        → r.answer ≡ Launch permit → IsPermitOf w permit }
{}

/// The jobs of the opening queue are acknowledged, and those of a submission once it is logged.
pub fn jobs_are_acknowledged()
    ensures opening { (o : Opening) (s : PoolState) (job : JobId) → IsOpenedBy o s
        → (IsIn job s.acked ↔ IsThere o.queue job) }
    ensures submitted { (s new : PoolState) (r : Stepped) (boot : ℕ)
        (receipt : ReceiptValue (List Operation)) (p : Pending) (cluster count : ℕ) (job : JobId)
        → Reacts s (Logged boot receipt) r new → s.pending ≡ Some p
        → p.what ≡ Submission cluster count → IsIn job (cluster_jobs cluster count)
        → IsIn job new.acked }
{}

/// An acknowledged job stays acknowledged. It is in the queue as logged or has left it; and one
/// that has left did so by the end of a run that a startd reported, or by an order, and stays so.
pub fn acknowledged_jobs_stay()
    ensures acknowledged { (s : PoolState) (list : List Step) (t : PoolState) (job : JobId)
        → LeadsTo s list t → IsIn job s.acked → IsIn job t.acked }
    ensures known { (o : Opening) (list : List Step) (s : PoolState) (job : JobId)
        → IsHistory o list s → IsIn job s.acked → IsKnown (parts_of s) job }
    ensures rightly { (o : Opening) (list : List Step) (s : PoolState) (job : JobId)
        → IsHistory o list s
        → IfSome (finished_in s.finished job) (λ e. LeftRightly (parts_of s) job e.state) }
    ensures done { (o : Opening) (list more : List Step) (s t : PoolState) (v w : AbstractPool)
        (job : JobId) (by : Outcome) → IsHistory o list s → LeadsTo s more t → HasView s v
        → HasView t w → Stands v job (Done by) → Stands w job (Done by) }
{}

/// A job's removal is ordered only where the schedd receives a Remove of it, or looks at it while
/// its PeriodicRemove holds; or the opening queue marks the job as one to be removed. No order is
/// forgotten.
pub fn orders_are_asked()
    ensures event { (s : PoolState) (e : Event) (r : Stepped) (new : PoolState) (job : JobId)
        → Reacts s e r new → IsIn job new.ordered → IsIn job s.ordered ⊎ OrdersRemoval e s job }
    ensures kept { (s : PoolState) (e : Event) (r : Stepped) (new : PoolState) (job : JobId)
        → Reacts s e r new → IsIn job s.ordered → IsIn job new.ordered }
    ensures history { (o : Opening) (list : List Step) (s : PoolState) (h : IsHistory o list s)
        (job : JobId) → IsIn job s.ordered → IsMarked o.queue job ⊎ IsOrderedIn h.opening list job }
{}
