//! What holds of every abstract pool.

ghost use Rattle.std.specs.Prelude.{◌≡◌};
ghost use Rattle.ad_tree.specs.Ad.{Attributes};
ghost use Rattle.claim_id.specs.declared.numbers.JobId.{JobId};
ghost use Rattle.claim_id.specs.declared.numbers.RunNo.{RunNo};
ghost use Rattle.claim_id.specs.declared.numbers.SlotId.{SlotId};
ghost use Rattle.pool_mail.specs.Ads.{request_ad};
ghost use Rattle.pool_view.specs.declared.job.Outcome.{Outcome};
ghost use Rattle.pool_view.specs.declared.job.State.TheVariants.{Done};
ghost use Rattle.pool_view.specs.AbstractPool.{AbstractPool, HasCore, IsDead, IsIn, Stands};
ghost use Rattle.pool_view.specs.AbstractStep.{AbstractStep, Leads, Moves, view_after};
ghost use Rattle.pool_view.specs.Ads.{Core, core_of};
ghost use Rattle.pool_view.specs.Safe.{RunsLeased, RunsSpent, Safe};

/// Every step that may be made keeps an abstract pool safe, and its runs within the leases of their
/// jobs.
pub fn steps_keep_safe()
    ensures safe { Leads (λ v w. Safe v → RunsLeased v → Safe w) }
    ensures leased { Leads (λ v w. Safe v → RunsLeased v → RunsLeased w) }
{}

/// So does every list of such steps, up to another abstract pool of the same parts.
pub fn moves_keep_safe()
    ensures { (v w : AbstractPool) → Safe v → RunsLeased v → Moves v w → Safe w × RunsLeased w }
{}

/// No step takes a job away, changes its core, forgets that it was acknowledged or brings back one
/// that has left the queue.
pub fn steps_keep_jobs()
    ensures core { Leads (λ v w. (job : JobId) (core : Core)
        → HasCore v job core → HasCore w job core) }
    ensures acknowledged { (v : AbstractPool) (k : AbstractStep) (job : JobId) → IsIn job v.acked
        → IsIn job (view_after v k).acked }
    ensures done { Leads (λ v w. (job : JobId) (outcome : Outcome)
        → Stands v job (Done outcome) → Stands w job (Done outcome)) }
{}

/// No step changes a slot's ad.
pub fn steps_keep_slots()
    ensures { (v : AbstractPool) (k : AbstractStep) (slot : SlotId)
        → (view_after v k).slots slot ≡ v.slots slot }
{}

/// Every run that is there stays spent, and no dead run comes back.
pub fn steps_keep_dead()
    ensures spent { Leads (λ v w. RunsSpent v → RunsSpent w) }
    ensures dead { Leads (λ v w. (run : RunNo) → IsDead v run → IsDead w run) }
{}

/// The ad that slots are judged with has the core of the job's ad.
pub fn request_ads_keep_the_core()
    ensures { (ad : Attributes) → core_of (request_ad ad) ≡ core_of ad }
{}
