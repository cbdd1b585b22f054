//! What the events of the schedd do to the parts of a pool.

ghost use Rattle.std.specs.Prelude.{◌≡◌, ℕ, ◌≤◌, List, [], ◌∷◌, ◌++◌, map, Option, None, Some, Ok, IsSomeAnd, if◌then◌else◌};
ghost use Rattle.claim_id.specs.declared.numbers.ClaimId.{ClaimId};
ghost use Rattle.claim_id.specs.declared.numbers.JobId.{JobId};
ghost use Rattle.pool_mail.specs.declared.mail.Mail.{Mail};
ghost use Rattle.pool_mail.specs.declared.mail.Mail.TheVariants.{Remove};
ghost use Rattle.pool_view.specs.Protocol.{NewJob, Protocol, Submission};
ghost use Rattle.pool_view.specs.ProtocolMove.{Commit, Drop, Pend, confirm_move};
ghost use Rattle.pool_view.specs.AbstractPool.{IsIn};
ghost use Rattle.pool_view.specs.declared.job.Entry.{Entry};
ghost use Rattle.queue_tx.specs.Operations.{Operation};
ghost use Rattle.queue_tx.specs.declared.key.Key.TheVariants.{Proc};
ghost use Rattle.queue_tx.specs.Queues.{KeyedAds, ad_at, queue_after};
ghost use Rattle.schedd_plan.specs.declared.plan.Completion.{Completion};
ghost use Rattle.schedd_plan.specs.declared.plan.JobPlan.{JobPlan};
ghost use Rattle.schedd_plan.specs.declared.plan.JobPlan.TheVariants.{Complete};
ghost use Rattle.schedd_plan.specs.Plans.{plan_ops};
ghost use Rattle.schedd_state.specs.declared.answer.ScheddStep.{ScheddStep};
ghost use Rattle.schedd_core.specs.Checks.{after_check};
ghost use Rattle.schedd_core.specs.Logging.{IsReopened};
ghost use Rattle.schedd_core.specs.PlanChanges.{moves_of_logged, moves_of_order, pends};
ghost use Rattle.schedd_state.specs.Reopening.{IsReader};
ghost use Rattle.schedd_core.specs.Rows.{after_mail};
ghost use Rattle.schedd_core.specs.ScheddParts.{IsOrdered};
ghost use Rattle.schedd_state.specs.Schedds.{ScheddValue};
ghost use Rattle.schedd_core.specs.Ticks.{IsTicked};
ghost use Rattle.pool_rules.specs.Bringing.{AreIdleJobs, AreOfHeader, JobAd, all_bringing_ops, new_job_of};
ghost use Rattle.pool_rules.specs.Linked.{BringsJobs, IsLinked, StayLinked, new_job_id};
ghost use Rattle.pool_rules.specs.PoolParts.{NewJobs, Planned, PoolParts};
ghost use Rattle.pool_rules.specs.ScheddEvents.{AreNewJobs, Finishes, NamesSomeRun, is_known, job_removed, moves_of_schedd_mail, orders_of_mail, parts_with_return, parts_with_jobs, parts_with_plan, parts_with_schedd, parts_with_submission};

/// A schedd that receives a mail, ticks, or looks at the periodic expressions of a job, while
/// nothing is unfinished, keeps the links, by the moves that are named for what it plans. An order
/// to remove a job of the pool is taken, whether a mail or an expression of the job's gives it.
pub fn plans_keep_links()
    ensures mails { (p : Protocol) (a : PoolParts) (mail : Mail) (reading : ℕ) → IsLinked p a
        → a.awaited ≡ None → IsIn mail a.mails
        → StayLinked p (moves_of_schedd_mail p.pool.jobs a mail reading)
        (parts_with_schedd (after_mail a.schedd a.queue mail reading).schedd
        (after_mail a.schedd a.queue mail reading).step (orders_of_mail a mail reading) a) }
    ensures orders { (p : Protocol) (a : PoolParts) (job : JobId) (reading : ℕ) → IsLinked p a
        → orders_of_mail a (Remove job) reading ≡ (if is_known a job then job ∷ [] else []) }
    ensures ticks { (p : Protocol) (a : PoolParts) (new : ScheddValue) (step : ScheddStep)
        (reading : ℕ) → IsLinked p a → a.awaited ≡ None → reading ≤ a.moment
        → IsTicked a.schedd a.queue reading new step
        → StayLinked p (pends p.pool.jobs step.plan) (parts_with_schedd new step [] a) }
    ensures checks { (p : Protocol) (a : PoolParts) (job : JobId) (reading : ℕ) → IsLinked p a
        → a.awaited ≡ None
        → StayLinked p
        (moves_of_order p.pool.jobs (after_check a.schedd a.queue job reading).step.plan)
        (parts_with_schedd (after_check a.schedd a.queue job reading).schedd
        (after_check a.schedd a.queue job reading).step
        (job_removed (after_check a.schedd a.queue job reading).step.plan) a) }
{}

/// A submission of new jobs, while nothing is unfinished, keeps the links.
pub fn submissions_keep_links()
    ensures { (p : Protocol) (a : PoolParts) (jobs : List NewJob) (tx : List Operation)
        → IsLinked p a → a.awaited ≡ None → AreNewJobs a.queue a.finished (map new_job_id jobs)
        → ((new : KeyedAds) → queue_after a.queue tx ≡ Ok new → BringsJobs a.queue jobs new)
        → StayLinked p (Pend (Submission jobs) ∷ [])
        (parts_with_submission (map new_job_id jobs) tx a) }
{}

/// A transaction that makes the ads of new jobs name by name, behind what it does to the header,
/// brings those jobs into the queue.
pub fn jobs_are_brought()
    ensures { (q new : KeyedAds) (before : List Operation) (kind other : List ℕ)
        (jobs : List JobAd) → IsOrdered q → AreOfHeader before → AreIdleJobs jobs
        → queue_after q (before ++ all_bringing_ops kind other jobs) ≡ Ok new
        → BringsJobs q (map new_job_of jobs) new }
{}

/// What was unfinished keeps the links once it is logged: a plan, which is committed and whose
/// Activate or Alive is told its lease; and a submission, whose jobs are acknowledged.
pub fn logged_transactions_keep_links()
    ensures plans { (p : Protocol) (a : PoolParts) (plan : JobPlan) (new : KeyedAds)
        (finished : JobId → Option Entry) → IsLinked p a → a.awaited ≡ Some (Planned plan)
        → queue_after a.queue (plan_ops plan) ≡ Ok new
        → Finishes plan a.queue a.finished finished
        → StayLinked p (moves_of_logged a.schedd new plan) (parts_with_plan plan new finished a) }
    ensures jobs { (p : Protocol) (a : PoolParts) (ids : List JobId) (tx : List Operation)
        (new : KeyedAds) → IsLinked p a → a.awaited ≡ Some (NewJobs ids tx)
        → queue_after a.queue tx ≡ Ok new
        → (jobs : List NewJob) × (map new_job_id jobs ≡ ids)
        × StayLinked p (Commit ∷ map confirm_move jobs) (parts_with_jobs ids new a) }
{}

/// The ad of a job whose end waits to be logged names the run that has ended.
pub fn completed_jobs_name_runs()
    ensures { (p : Protocol) (a : PoolParts) (job : JobId) (completion : Completion)
        → IsLinked p a → a.awaited ≡ Some (Planned (Complete job completion))
        → IsSomeAnd (ad_at (Proc job) a.queue) NamesSomeRun }
{}

/// A schedd that comes back keeps the links: with the plan or the submission that was unfinished,
/// which is committed and of which nothing is sent; and without it, which is dropped. `read` is any
/// function that reads the texts of claims.
pub fn returns_keep_links()
    ensures plans { (read : List ℕ → Option ClaimId) → IsReader read → (p : Protocol)
        (a : PoolParts) (plan : JobPlan) (new : KeyedAds) (finished : JobId → Option Entry)
        (back : ScheddValue) (reading : ℕ) → IsLinked p a → a.awaited ≡ Some (Planned plan)
        → queue_after a.queue (plan_ops plan) ≡ Ok new
        → Finishes plan a.queue a.finished finished → IsReopened a.schedd new reading back
        → StayLinked p (Commit ∷ []) (parts_with_return back new finished a) }
    ensures jobs { (read : List ℕ → Option ClaimId) → IsReader read → (p : Protocol)
        (a : PoolParts) (ids : List JobId) (tx : List Operation) (new : KeyedAds)
        (back : ScheddValue) (reading : ℕ) → IsLinked p a → a.awaited ≡ Some (NewJobs ids tx)
        → queue_after a.queue tx ≡ Ok new → IsReopened a.schedd new reading back
        → StayLinked p (Commit ∷ []) (parts_with_return back new a.finished a) }
    ensures nothing { (read : List ℕ → Option ClaimId) → IsReader read → (p : Protocol)
        (a : PoolParts) (back : ScheddValue) (reading : ℕ) → IsLinked p a
        → IsReopened a.schedd a.queue reading back
        → StayLinked p (Drop ∷ []) (parts_with_return back a.queue a.finished a) }
{}
