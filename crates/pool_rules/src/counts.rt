//! What a pool counts is its own: its jobs, and the bytes of its ads.

ghost use Rattle.std.specs.Prelude.{◌≡◌, ℕ, ◌+◌, List, None};
ghost use Rattle.pool_parts.specs.declared.answer.Stepped.{Stepped};
ghost use Rattle.pool_parts.specs.declared.event.Event.{Event};
ghost use Rattle.pool_rules.specs.Happens.{Reacts};
ghost use Rattle.pool_view.specs.Protocol.{Protocol};
ghost use Rattle.pool_rules.specs.Refusals.{IsRefusal};
ghost use Rattle.pool_state.specs.Openings.{CanOpen, IsJobCount, IsOpenedBy};
ghost use Rattle.pool_state.specs.declared.opening.Opening.{Opening};
ghost use Rattle.pool_state.specs.declared.state.PoolState.{PoolState};
ghost use Rattle.queue_tx.specs.Queues.{KeyedAds};
ghost use Rattle.schedd_core.specs.ScheddParts.{IsOrdered};
ghost use Rattle.pool_rules.specs.Counted.{CountsBytes, HasFewJobs, IsCounted, brought_count, held_count};
ghost use Rattle.pool_rules.specs.Histories.{IsHistory, Step};
ghost use Rattle.pool_rules.specs.Kept.{IsKept};

/// A queue has one count of its jobs.
pub fn queues_have_one_count()
    ensures some { (q : KeyedAds) → IsOrdered q → (n : ℕ) × IsJobCount q n }
    ensures one { (q : KeyedAds) (m n : ℕ) → IsJobCount q m → IsJobCount q n → m ≡ n }
{}

/// A pool that has just been opened counts the jobs of its queue, and the ads that it has. Every
/// event that a kept pool accepts leaves it so; it counts the bytes that it brings, and those that
/// the queue and all mails have more by it.
pub fn counts_are_kept()
    ensures openings { (o : Opening) (s : PoolState) → IsOpenedBy o s → IsCounted s }
    ensures events { (p : Protocol) (s new : PoolState) (e : Event) (r : Stepped) → IsKept p s
        → IsCounted s → Reacts s e r new → IsCounted new }
    ensures bytes { (p : Protocol) (s new : PoolState) (e : Event) (r : Stepped) → IsKept p s
        → IsCounted s → Reacts s e r new → CountsBytes e s new }
{}

/// So the jobs that a pool of a history counts are those of its queue; and its bytes are those of
/// the ads of its queue, of all mails ever sent, and of what all events have brought.
pub fn counts_are_exact()
    ensures jobs { (o : Opening) (list : List Step) (s : PoolState) → IsHistory o list s
        → IsJobCount s.queue s.counts.jobs }
    ensures bytes { (o : Opening) (list : List Step) (s : PoolState) → IsHistory o list s
        → s.counts.bytes ≡ held_count s + brought_count list }
{}

/// The queue never has more jobs than it may, and won't once what is unfinished is logged.
pub fn jobs_stay_few()
    ensures openings { (o : Opening) (s : PoolState) → CanOpen o → IsOpenedBy o s → HasFewJobs s }
    ensures events { (s new : PoolState) (e : Event) (r : Stepped) → HasFewJobs s
        → IsRefusal e s None → Reacts s e r new → HasFewJobs new }
    ensures histories { (o : Opening) (list : List Step) (s : PoolState) → IsHistory o list s
        → HasFewJobs s }
{}
