//! What holds of every pass and its pool.

ghost use Rattle.std.specs.Prelude.{◌≡◌, ◌≢◌, ◌++◌, ◌∷◌, [], ℕ, List, Option, Some, None, is_some};
ghost use Rattle.claim_id.specs.declared.numbers.ClaimId.{ClaimId};
ghost use Rattle.desk.specs.declared.entry.Entry.{Entry};
ghost use Rattle.desk.specs.Entries.{entry_of};
ghost use Rattle.desk.specs.Given.{IsGivenBy, IsOwn};
ghost use Rattle.desk.specs.Kinds.{IsKindOf};
ghost use Rattle.desk.specs.Logs.{IsLoggedQueue};
ghost use Rattle.desk.specs.Passes.{Fits};
ghost use Rattle.pool_parts.specs.Answers.{kept_of};
ghost use Rattle.pool_parts.specs.declared.answer.Stepped.{Stepped};
ghost use Rattle.pool_parts.specs.declared.event.Event.{Event};
ghost use Rattle.pool_parts.specs.Events.{holder_of};
ghost use Rattle.pool_rules.specs.Given.{IsGiven};
ghost use Rattle.pool_rules.specs.Happens.{Reacts};
ghost use Rattle.pool_outer.specs.declared.gate.Daemon.{Daemon};
ghost use Rattle.pool_outer.specs.declared.gate.Daemon.TheVariants.{Schedd};
ghost use Rattle.desk.specs.Standing.{HasRoll, Stands, end_mark_of, logged_before};
ghost use Rattle.pool_rules.specs.Refusals.{IsRefusal};
ghost use Rattle.pool_state.specs.declared.state.PoolState.{PoolState};
ghost use Rattle.pool_tables.specs.DaemonTables.{daemon_state};
ghost use Rattle.queue_tx.specs.Queues.{KeyedAds};
ghost use Rattle.schedd_state.specs.Reopening.{IsReader};

/// Some function reads the texts of claims.
pub fn texts_of_claims_are_read()
    ensures { (read : List ℕ → Option ClaimId) × IsReader read }
{}

/// What a holder gives by the marks of its pass's rolls is what a pool is to be given that has
/// these rolls.
pub fn own_events_are_given()
    ensures { (holder : Option Daemon) (s : PoolState) (e : Event) → IsOwn holder e
        → HasRoll holder s → IsGivenBy s.log_mark (end_mark_of holder s) e → IsGiven e s }
{}

/// An accepted event is answered by what it can be answered with, and the history keeps just that.
pub fn answers_are_of_their_events()
    ensures kinds { (s new : PoolState) (e : Event) (r : Stepped) → Reacts s e r new
        → IsKindOf e r.answer }
    ensures kept { (s new : PoolState) (e : Event) (r : Stepped) → Reacts s e r new
        → r.kept ≡ kept_of r.answer }
{}

/// No event changes which the rolls of a pool are, or of which daemons it is.
pub fn rolls_stay()
    ensures log { (s new : PoolState) (e : Event) (r : Stepped) → Reacts s e r new
        → new.log_mark ≡ s.log_mark }
    ensures ends { (s new : PoolState) (e : Event) (r : Stepped) → Reacts s e r new
        → new.end_marks ≡ s.end_marks }
    ensures daemons { (s new : PoolState) (e : Event) (r : Stepped) (who : Daemon)
        → Reacts s e r new
        → is_some (daemon_state who new.daemons) ≡ is_some (daemon_state who s.daemons) }
{}

/// What the entries of a pass have to do with the pool (`Stands`) goes on so with an event of its
/// own, which is one entry more. The answer fits the entries before it, and how many transactions
/// were logged before all of them stays the same. Where the queue is what the transactions that the
/// entries logged make of a first one, it is so with one entry more.
pub fn own_events_stand()
    ensures stands { (holder : Option Daemon) (mine : List Entry) (s new : PoolState)
        (e : Event) (r : Stepped) (place : ℕ) → IsOwn holder e → IsRefusal e s None
        → Reacts s e r new → Stands holder mine s
        → Stands holder (mine ++ entry_of place e r.kept ∷ []) new }
    ensures fits { (holder : Option Daemon) (mine : List Entry) (s new : PoolState)
        (e : Event) (r : Stepped) → IsOwn holder e → IsRefusal e s None
        → Reacts s e r new → Stands holder mine s
        → Fits (logged_before mine s) mine r.answer }
    ensures before { (holder : Option Daemon) (mine : List Entry) (s new : PoolState)
        (e : Event) (r : Stepped) (place : ℕ) → IsOwn holder e → IsRefusal e s None
        → Reacts s e r new → Stands holder mine s
        → logged_before (mine ++ entry_of place e r.kept ∷ []) new ≡ logged_before mine s }
    ensures queue { (holder : Option Daemon) (mine : List Entry) (s new : PoolState)
        (e : Event) (r : Stepped) (place : ℕ) (first : KeyedAds) → IsOwn holder e
        → IsRefusal e s None → Reacts s e r new → Stands holder mine s
        → IsLoggedQueue first mine s.queue
        → IsLoggedQueue first (mine ++ entry_of place e r.kept ∷ []) new.queue }
{}

/// And it goes on so with an event of another holder, which is no entry of the pass. The queue
/// stays as it is with each event that isn't the schedd's.
pub fn events_of_others_stand()
    ensures stands { (holder : Option Daemon) (mine : List Entry) (s new : PoolState) (e : Event)
        (r : Stepped) → holder_of e ≢ holder → IsRefusal e s None → Reacts s e r new
        → Stands holder mine s → Stands holder mine new }
    ensures queue { (s new : PoolState) (e : Event) (r : Stepped) → holder_of e ≢ Some Schedd
        → IsRefusal e s None → Reacts s e r new → new.queue ≡ s.queue }
{}
