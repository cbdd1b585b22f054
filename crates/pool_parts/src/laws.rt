//! Which transactions can be logged over a queue.

ghost use Rattle.std.specs.Prelude.{◌≡◌, ℕ, ◌<◌, ◌≤◌, ◌^◌, List, Ok, is_some, length};
ghost use Rattle.ad_tree.specs.Ad.{Attributes};
ghost use Rattle.ad_rows.specs.Submitted.{AreSubmitted};
ghost use Rattle.pool_parts.specs.Loggable.{AreAds, AreLoggableJobs, BringsPrintableKeys, CanBeLogged, IsLoggablePlan, IsLoggableQueue, IsNewCluster};
ghost use Rattle.pool_parts.specs.Submissions.{submission_ops};
ghost use Rattle.queue_tx.specs.declared.key.Key.TheVariants.{Header};
ghost use Rattle.queue_tx.specs.Operations.{Operation};
ghost use Rattle.queue_tx.specs.Printable.{HasPrintableKeys, IsPrintableQueue};
ghost use Rattle.queue_tx.specs.Queues.{KeyedAds, IsQueue, QueueOf, ad_at, queue_after};
ghost use Rattle.queue_tx.specs.Roomy.{IsRoomy};
ghost use Rattle.schedd_plan.specs.declared.plan.JobPlan.{JobPlan};
ghost use Rattle.schedd_plan.specs.Plans.{plan_ops};

/// A queue that has room keeps it, whatever transaction is done. Its keys can be printed as long as
/// transactions bring such ones.
pub fn queues_stay_loggable()
    ensures room { (q new : KeyedAds) (tx : List Operation) → IsQueue q → IsRoomy q
        → queue_after q tx ≡ Ok new → IsRoomy new }
    ensures keys { (q new : KeyedAds) (tx : List Operation) → IsQueue q → HasPrintableKeys q
        → BringsPrintableKeys tx → queue_after q tx ≡ Ok new → HasPrintableKeys new }
{}

/// The queue that the transactions of a log build has room, and so is loggable where it can be
/// printed.
pub fn built_queues_are_loggable()
    ensures room { (txs : List (List Operation)) (q : KeyedAds) → QueueOf txs q → IsRoomy q }
    ensures loggable { (txs : List (List Operation)) (q : KeyedAds) → QueueOf txs q
        → IsPrintableQueue q → IsLoggableQueue q }
{}

/// The transaction of a plan of a job of such a queue can be logged over it, where the plan's
/// numbers can be printed and a grant says whether there is a header.
pub fn plans_can_be_logged()
    ensures { (q : KeyedAds) (p : JobPlan) → IsQueue q → IsLoggableQueue q → IsLoggablePlan q p
        → CanBeLogged (plan_ops p) q }
{}

/// So can the transaction of a submission of jobs that can be logged, as a new cluster. The jobs
/// that are made of a submit file are such ones.
pub fn submissions_can_be_logged()
    ensures transactions { (q : KeyedAds) (cluster : ℕ) (ads : List Attributes) → IsQueue q
        → IsRoomy q → IsNewCluster q cluster → 0 < cluster → cluster < 2 ^ 32
        → length ads ≤ 2 ^ 32 → AreLoggableJobs ads
        → CanBeLogged (submission_ops (is_some (ad_at Header q)) cluster ads) q }
    ensures files { (cluster proc : ℕ) (ads : List Attributes) → AreAds ads
        → AreSubmitted cluster proc ads → AreLoggableJobs ads }
{}
