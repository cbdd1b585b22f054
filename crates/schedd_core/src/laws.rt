//! What holds of every schedd over its queue.

ghost use Rattle.std.specs.Prelude.{◌≡◌, ◌↔◌, ℕ, ◌≤◌, true, false, List, Option, Some, None, Ok, IfSome};
ghost use Rattle.std.specs.Ordering.{is_gt};
ghost use Rattle.claim_id.specs.declared.numbers.ClaimId.{ClaimId};
ghost use Rattle.claim_id.specs.declared.numbers.JobId.{JobId};
ghost use Rattle.pool_mail.specs.declared.mail.Mail.{Mail};
ghost use Rattle.pool_mail.specs.declared.settings.Settings.{Settings};
ghost use Rattle.pool_view.specs.Facts.{Facts};
ghost use Rattle.pool_view.specs.Protocol.{Protocol, change_steps, view_after_all};
ghost use Rattle.pool_view.specs.ProtocolMove.{MayAll, protocol_after_all};
ghost use Rattle.pool_view.specs.AbstractPool.{AbstractPool, IsIn};
ghost use Rattle.queue_tx.specs.declared.key.Key.{Key};
ghost use Rattle.queue_tx.specs.declared.key.Key.TheVariants.{Proc};
ghost use Rattle.queue_tx.specs.Keys.{key_cmp};
ghost use Rattle.queue_tx.specs.Operations.{Operation};
ghost use Rattle.queue_tx.specs.Periodic.{IsPeriodic};
ghost use Rattle.queue_tx.specs.Queues.{KeyedAds, QueueOf, queue_after};
ghost use Rattle.schedd_plan.specs.declared.plan.JobPlan.{JobPlan};
ghost use Rattle.schedd_plan.specs.Plans.{plan_ops};
ghost use Rattle.schedd_plan.specs.declared.claims.KeptClaim.{KeptClaim};
ghost use Rattle.schedd_plan.specs.JobPlaces.{is_left};
ghost use Rattle.schedd_state.specs.declared.answer.ScheddStep.{ScheddStep};
ghost use Rattle.schedd_core.specs.Checks.{after_check};
ghost use Rattle.schedd_state.specs.DueChecks.{IsPassed, Passes, with_new};
ghost use Rattle.schedd_core.specs.JobStates.{ShowsJobs};
ghost use Rattle.schedd_core.specs.Logging.{IsReopened, after_plan, mails_of_plan, run_of_job};
ghost use Rattle.schedd_core.specs.PlanChanges.{change_of, moves_of_logged, moves_of_mail, moves_of_order, pends};
ghost use Rattle.schedd_state.specs.Reopening.{IsReader};
ghost use Rattle.schedd_core.specs.Rows.{after_mail};
ghost use Rattle.schedd_core.specs.ScheddParts.{Fits, FitsOn, IsAllowed, IsFitting, IsHeard, IsLeased, IsOfClaim, IsOrdered, IsPart, LeasesGrow};
ghost use Rattle.schedd_state.specs.Schedds.{IsOpened, ScheddValue, crashed, engages_job};
ghost use Rattle.schedd_core.specs.Ticks.{IsTicked};

/// The keys of a queue that transactions build stand in order, and the names of each of its ads
/// differ.
pub fn queues_are_ordered()
    ensures { (txs : List (List Operation)) (q : KeyedAds) → QueueOf txs q → IsOrdered q }
{}

/// What an event of a schedd plans is a move of the protocol that may be made: where the queue and
/// the schedd are a part of the protocol and fit each other, nothing is unfinished, what a startd
/// says to be over was said, and no reading is later than the pool's moment. So a job is let go
/// only where a startd said that this very run is over, where its lease is past, or where it was
/// left; and it is removed only by an order.
pub fn plans_are_moves()
    ensures mails { (p : Protocol) (q : KeyedAds) (v : ScheddValue) (mail : Mail) (reading : ℕ)
        → IsPart p q v → Fits q v → p.pending ≡ None → IsHeard p mail
        → MayAll p (moves_of_mail p.pool.jobs v q mail reading) }
    ensures ticks { (p : Protocol) (q : KeyedAds) (v new : ScheddValue) (step : ScheddStep)
        (reading : ℕ) → IsPart p q v → Fits q v → p.pending ≡ None → reading ≤ p.pool.moment
        → IsTicked v q reading new step → MayAll p (pends p.pool.jobs step.plan) }
    ensures checks { (p : Protocol) (q : KeyedAds) (v : ScheddValue) (job : JobId) (reading : ℕ)
        → IsPart p q v → Fits q v → p.pending ≡ None
        → MayAll p (moves_of_order p.pool.jobs (after_check v q job reading).step.plan) }
{}

/// What a logged plan does to the queue is what its change does to the jobs of the abstract pool.
/// So the queue that came of it and the schedd are a part of the protocol after the moves that are
/// named for it, which may be made; and each Activate and Alive that is sent then has its lease.
pub fn logged_plans_are_their_changes()
    ensures jobs { (pool : AbstractPool) (q new : KeyedAds) (v : ScheddValue) (plan : JobPlan)
        → IsOrdered q → ShowsJobs q v.left pool.jobs → IsFitting q v.left plan
        → queue_after q (plan_ops plan) ≡ Ok new
        → ShowsJobs new (after_plan plan v).left
        (view_after_all pool (change_steps (change_of pool.jobs plan))).jobs }
    ensures may { (p : Protocol) (q new : KeyedAds) (v : ScheddValue) (plan : JobPlan) → Facts p
        → IsPart p q v → IsOrdered q → IsFitting q v.left plan
        → p.pending ≡ Some (change_of p.pool.jobs plan) → queue_after q (plan_ops plan) ≡ Ok new
        → Fits new (after_plan plan v) → MayAll p (moves_of_logged v new plan) }
    ensures part { (p : Protocol) (q new : KeyedAds) (v : ScheddValue) (plan : JobPlan) → Facts p
        → IsPart p q v → IsOrdered q → IsFitting q v.left plan
        → p.pending ≡ Some (change_of p.pool.jobs plan) → queue_after q (plan_ops plan) ≡ Ok new
        → Fits new (after_plan plan v)
        → IsPart (protocol_after_all p (moves_of_logged v new plan)) new (after_plan plan v) }
    ensures leased { (p : Protocol) (q new : KeyedAds) (v : ScheddValue) (plan : JobPlan)
        (mail : Mail) → Facts p → IsPart p q v → IsOrdered q → IsFitting q v.left plan
        → p.pending ≡ Some (change_of p.pool.jobs plan) → queue_after q (plan_ops plan) ≡ Ok new
        → Fits new (after_plan plan v) → IsIn mail (mails_of_plan v new plan)
        → IsLeased (protocol_after_all p (moves_of_logged v new plan)) mail }
{}

/// What is sent once a plan is logged is what the plan allows: an Activate only of the grant that
/// is in the queue, with the job's ad there; an Alive and a Stop only of the run that the queue has
/// the job under, an Alive with its LeaseUntil there, and a Stop only of a job that is marked.
pub fn mails_are_of_the_queue()
    ensures { (q new : KeyedAds) (v : ScheddValue) (plan : JobPlan) (mail : Mail) → IsOrdered q
        → IsFitting q v.left plan → queue_after q (plan_ops plan) ≡ Ok new
        → Fits new (after_plan plan v) → IsIn mail (mails_of_plan v new plan)
        → IsAllowed new plan mail }
{}

/// LeaseUntil never shrinks: the lease of a run that a job is still under ends no sooner once what
/// an event planned is logged.
pub fn leases_never_shrink()
    ensures mails { (q new : KeyedAds) (v : ScheddValue) (mail : Mail) (reading : ℕ) → Fits q v
        → IfSome (after_mail v q mail reading).step.plan
        (λ plan. queue_after q (plan_ops plan) ≡ Ok new → LeasesGrow q new) }
    ensures ticks { (q new : KeyedAds) (v after : ScheddValue) (step : ScheddStep) (reading : ℕ)
        → Fits q v → IsTicked v q reading after step
        → IfSome step.plan (λ plan. queue_after q (plan_ops plan) ≡ Ok new → LeasesGrow q new) }
    ensures checks { (q new : KeyedAds) (v : ScheddValue) (job : JobId) (reading : ℕ) → Fits q v
        → IfSome (after_check v q job reading).step.plan
        (λ plan. queue_after q (plan_ops plan) ≡ Ok new → LeasesGrow q new) }
{}

/// A transaction that is lost leaves nothing behind: a schedd that comes back after a crash, with
/// the queue as it was, is what it would be without the event that planned it.
pub fn lost_plans_leave_nothing()
    ensures mails { (q : KeyedAds) (v new : ScheddValue) (mail : Mail) (reading later : ℕ)
        → v.waiting ≡ None → IsReopened (after_mail v q mail reading).schedd q later new
        → IsReopened v q later new }
    ensures ticks { (q : KeyedAds) (v after new : ScheddValue) (step : ScheddStep)
        (reading later : ℕ) → v.waiting ≡ None → IsTicked v q reading after step
        → IsReopened after q later new → IsReopened v q later new }
    ensures checks { (q : KeyedAds) (v new : ScheddValue) (job : JobId) (reading later : ℕ)
        → v.waiting ≡ None → IsReopened (after_check v q job reading).schedd q later new
        → IsReopened v q later new }
{}

/// The runs that a schedd keeps are those of the queue as logged, each job once, and the jobs that
/// it counts as left are under a claim there. So it is when the pool opens, and an event leaves it
/// so: at once, or once what is to be logged is.
pub fn schedds_fit_their_queue()
    ensures openings { (q : KeyedAds) (settings : Settings) (v : ScheddValue) → IsOrdered q
        → IsOpened q settings v → Fits q v }
    ensures mails { (q : KeyedAds) (v : ScheddValue) (mail : Mail) (reading : ℕ) → Fits q v
        → IsOfClaim mail → FitsOn q (after_mail v q mail reading) }
    ensures ticks { (q : KeyedAds) (v new : ScheddValue) (step : ScheddStep) (reading : ℕ)
        → Fits q v → IsTicked v q reading new step
        → FitsOn q (record { schedd = new; step = step }) }
    ensures checks { (q : KeyedAds) (v : ScheddValue) (job : JobId) (reading : ℕ) → Fits q v
        → FitsOn q (after_check v q job reading) }
{}

/// A transaction that is kept counts as logged: a schedd that comes back with the queue that came
/// of its plan is what comes of one whose plan was logged before the crash.
pub fn kept_plans_are_logged()
    ensures { (q new : KeyedAds) (v back : ScheddValue) (plan : JobPlan) (reading : ℕ) → IsOrdered q
        → IsFitting q v.left plan → queue_after q (plan_ops plan) ≡ Ok new
        → v.waiting ≡ Some plan → IsReopened v new reading back
        → IsReopened (after_plan plan v) new reading back }
{}

/// A schedd that comes back with nothing unfinished fits its queue again, and is the same part of
/// the protocol. `read` is any function that reads the texts of claims.
pub fn reopened_schedds_go_on()
    ensures fits { (read : List ℕ → Option ClaimId) → IsReader read
        → (q : KeyedAds) (v back : ScheddValue) (reading : ℕ) → Fits q v
        → IsReopened v q reading back → Fits q back }
    ensures part { (read : List ℕ → Option ClaimId) → IsReader read
        → (p : Protocol) (q : KeyedAds) (v back : ScheddValue) (reading : ℕ) → IsPart p q v
        → v.waiting ≡ None → IsReopened v q reading back → IsPart p q back }
{}

/// A job that an earlier boot left is under no run that the schedd keeps, so no Stop and no Alive
/// is sent for it; and a schedd that comes back has no claim of it.
pub fn left_jobs_are_under_no_run()
    ensures runs { (q : KeyedAds) (v : ScheddValue) (job : JobId) → Fits q v → IsIn job v.left
        → run_of_job v.runs job ≡ None }
    ensures claims { (read : List ℕ → Option ClaimId) → IsReader read
        → (q : KeyedAds) (v back : ScheddValue) (reading : ℕ) (claim : KeptClaim) → Fits q v
        → IsReopened v q reading back → IsIn claim back.claims
        → is_left claim.job back.left ≡ false }
{}

/// All jobs with a periodic expression up to the mark of a schedd were looked at. So it is when the
/// pool opens and when a schedd comes back; an event leaves it so, at once and where what was to be
/// logged is; so does `Schedd::move_mark`; and so do jobs that come into the queue, once the schedd
/// is told of one that none of them comes before (`Schedd::note_new`).
pub fn the_mark_stands()
    ensures openings { (q : KeyedAds) (settings : Settings) (v : ScheddValue)
        → IsOpened q settings v → IsPassed q v }
    ensures reopenings { (read : List ℕ → Option ClaimId) → IsReader read
        → (q : KeyedAds) (v back : ScheddValue) (reading : ℕ) → IsReopened v q reading back
        → IsPassed q back }

    // events
    ensures mails { (q : KeyedAds) (v : ScheddValue) (mail : Mail) (reading : ℕ)
        → v.waiting ≡ None → IsPassed q v → IsPassed q (after_mail v q mail reading).schedd }
    ensures ticks { (q : KeyedAds) (v new : ScheddValue) (step : ScheddStep) (reading : ℕ)
        → v.waiting ≡ None → IsTicked v q reading new step → IsPassed q v → IsPassed q new }
    ensures checks { (q : KeyedAds) (v : ScheddValue) (job : JobId) (reading : ℕ)
        → v.waiting ≡ None → IsPassed q v → IsPassed q (after_check v q job reading).schedd }
    ensures marks { (q : KeyedAds) (v : ScheddValue) (passed : Option Key)
        → Passes q v.checked v.passed passed → IsPassed q v
        → IsPassed q (record v { passed = passed }) }

    // another queue
    ensures logged { (q new : KeyedAds) (v : ScheddValue) (plan : JobPlan) → IsOrdered q
        → IsFitting q v.left plan → queue_after q (plan_ops plan) ≡ Ok new → IsPassed q v
        → IsPassed new (after_plan plan v) }
    ensures submissions { (q new : KeyedAds) (v : ScheddValue) (first : JobId)
        → ((key : Key) → IsPeriodic new key → is_gt (key_cmp (Proc first) key) ≡ true
        → IsPeriodic q key) → IsPassed q v → IsPassed new (with_new (Proc first) v) }
{}

/// A crash loses the claims alone: no job is engaged then, the schedd fits its queue and is the
/// part of the protocol that it was, and it comes back as it would have with its claims.
pub fn crashes_lose_claims_alone()
    ensures engaged { (v : ScheddValue) (job : JobId) → engages_job (crashed v) job ≡ false }
    ensures fits { (q : KeyedAds) (v : ScheddValue) → Fits q v → Fits q (crashed v) }
    ensures part { (p : Protocol) (q : KeyedAds) (v : ScheddValue) → IsPart p q v
        → IsPart p q (crashed v) }
    ensures back { (q : KeyedAds) (v back : ScheddValue) (reading : ℕ)
        → IsReopened (crashed v) q reading back ↔ IsReopened v q reading back }
{}
