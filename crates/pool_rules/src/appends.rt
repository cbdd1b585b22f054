//! That what is unfinished can be logged.

ghost use Rattle.std.specs.Prelude.{◌≡◌, ℕ, List, Some, None, Ok};
ghost use Rattle.ad_tree.specs.Ad.{Attributes};
ghost use Rattle.pool_parts.specs.Appends.{CanAppend};
ghost use Rattle.pool_parts.specs.Loggable.{AreLoggableJobs, CanBeLogged, HasShortNumbers, IsLoggableQueue, KnowsHeader};
ghost use Rattle.pool_parts.specs.declared.answer.Stepped.{Stepped};
ghost use Rattle.pool_parts.specs.declared.event.Event.{Event};
ghost use Rattle.pool_parts.specs.declared.event.Event.TheVariants.{Submit};
ghost use Rattle.pool_rules.specs.Happens.{Reacts};
ghost use Rattle.pool_parts.specs.declared.pending.Pending.{Pending};
ghost use Rattle.pool_parts.specs.declared.pending.Unfinished.TheVariants.{Plan};
ghost use Rattle.pool_view.specs.Protocol.{Protocol};
ghost use Rattle.pool_rules.specs.Refusals.{IsRefusal};
ghost use Rattle.pool_state.specs.declared.state.PoolState.{PoolState};
ghost use Rattle.queue_tx.specs.Queues.{KeyedAds, queue_after};
ghost use Rattle.schedd_plan.specs.declared.plan.JobPlan.{JobPlan};
ghost use Rattle.pool_rules.specs.Few.{AreFew};
ghost use Rattle.pool_rules.specs.Histories.{Accepts};
ghost use Rattle.pool_rules.specs.Kept.{IsKept};
ghost use Rattle.pool_rules.specs.Unfinished.{ArePlansShort, CanFinish};

/// In a kept pool, whose queue is loggable, what the schedd has planned can be logged, where the
/// plan's numbers can be printed and a grant says whether there is a header; and so can what an
/// accepted Submit of jobs that can be logged is to bring. What can be logged makes a queue.
pub fn unfinished_can_be_logged()
    ensures plans { (p : Protocol) (s : PoolState) (x : Pending) (pl : JobPlan) → IsKept p s
        → IsLoggableQueue s.queue → s.pending ≡ Some x → x.what ≡ Plan pl
        → KnowsHeader s.queue pl → HasShortNumbers pl → CanBeLogged x.tx s.queue }
    ensures submissions { (p : Protocol) (s new : PoolState) (boot : ℕ) (jobs : List Attributes)
        (reading : ℕ) (r : Stepped) → IsKept p s → AreFew s → IsLoggableQueue s.queue
        → AreLoggableJobs jobs → IsRefusal (Submit boot jobs reading) s None
        → Reacts s (Submit boot jobs reading) r new → CanFinish new }
    ensures queues { (s : PoolState) (x : Pending) → CanFinish s → s.pending ≡ Some x
        → (q : KeyedAds) × (queue_after s.queue x.tx ≡ Ok q) }
{}

/// Every event leaves the queue of a kept pool loggable, where what was unfinished could be logged.
pub fn queues_of_pools_stay_loggable()
    ensures { (p : Protocol) (s new : PoolState) (e : Event) (r : Stepped) → IsKept p s
        → IsLoggableQueue s.queue → CanFinish s → Reacts s e r new → IsLoggableQueue new.queue }
{}

/// What is unfinished after an event that such a pool accepts can be logged too, where the numbers
/// of a plan can be printed; and what an event answers is to be logged is what is unfinished then.
pub fn appends_can_be_logged()
    ensures unfinished { (p : Protocol) (s new : PoolState) (e : Event) (r : Stepped) → IsKept p s
        → AreFew s → IsLoggableQueue s.queue → CanFinish s → Accepts s e r new
        → ArePlansShort new → CanFinish new }
    ensures answers { (s new : PoolState) (e : Event) (r : Stepped) → Reacts s e r new
        → CanFinish new → CanAppend s.queue r.answer }
{}
