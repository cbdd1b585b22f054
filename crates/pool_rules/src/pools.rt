//! A pool that opens is kept, every event that it accepts keeps it, and its view shows what its
//! parts show. `read` is any function that reads the texts of claims.

ghost use Rattle.std.specs.Prelude.{ℕ, List, Option, None};
ghost use Rattle.ad_eval.specs.Judgement.{Judgement, Mismatch};
ghost use Rattle.claim_id.specs.declared.numbers.ClaimId.{ClaimId};
ghost use Rattle.claim_id.specs.declared.numbers.JobId.{JobId};
ghost use Rattle.claim_id.specs.declared.order.Verb.{Verb};
ghost use Rattle.pool_parts.specs.declared.answer.Stepped.{Stepped};
ghost use Rattle.pool_parts.specs.declared.event.Event.{Event};
ghost use Rattle.pool_parts.specs.declared.event.Event.TheVariants.{Close, Crash, Matches, Order, Receive, Reopen, Tick};
ghost use Rattle.pool_rules.specs.Shown.{ShowsPool};
ghost use Rattle.pool_mail.specs.declared.end.Ending.{Ending};
ghost use Rattle.pool_mail.specs.declared.matching.Match.{Match};
ghost use Rattle.pool_rules.specs.Given.{IsGiven};
ghost use Rattle.pool_rules.specs.Happens.{Happens, Reacts};
ghost use Rattle.pool_rules.specs.Parts.{parts_of};
ghost use Rattle.pool_outer.specs.declared.gate.Daemon.{Daemon};
ghost use Rattle.pool_outer.specs.declared.gate.Daemon.TheVariants.{Matchmaker};
ghost use Rattle.pool_view.specs.Protocol.{Protocol};
ghost use Rattle.pool_rules.specs.Refusals.{IsRefusal};
ghost use Rattle.pool_state.specs.Openings.{CanOpen, IsOpenedBy};
ghost use Rattle.pool_state.specs.PoolViews.{IsViewOf};
ghost use Rattle.pool_state.specs.declared.opening.Opening.{Opening};
ghost use Rattle.pool_state.specs.declared.state.PoolState.{PoolState};
ghost use Rattle.pool_view.specs.Views.{pool_of};
ghost use Rattle.pool_view.specs.declared.view.View.{View};
ghost use Rattle.queue_tx.specs.Operations.{Operation};
ghost use Rattle.receipt_roll.specs.Values.{ReceiptValue};
ghost use Rattle.schedd_state.specs.Reopening.{IsReader};
ghost use Rattle.schedd_core.specs.ScheddParts.{IsOrdered};
ghost use Rattle.pool_rules.specs.Few.{AreFew};
ghost use Rattle.pool_rules.specs.Histories.{Accepts, LaunchesRun, MovesView};
ghost use Rattle.pool_rules.specs.Kept.{GoesOn, IsKept, at_reading};
ghost use Rattle.pool_rules.specs.Steps.{IsStepOf};

/// A pool that has just been opened is kept to a protocol. A queue's keys are in order, and the
/// names of each of its ads differ.
pub fn openings_are_kept()
    ensures { (o : Opening) (s : PoolState) → CanOpen o → IsOrdered o.queue → IsOpenedBy o s
        → (p : Protocol) × IsKept p s }
{}

/// An order of the input keeps the pool, and so do matches, of which each that is passed on is of a
/// claim that a slot of the pool offers.
pub fn orders_and_matches_keep_pools()
    ensures orders { (p : Protocol) (s : PoolState) (v : Verb) (job : JobId) (reading : ℕ)
        (new : PoolState) (r : Stepped) → IsKept p s → Happens (Order v job reading) s new r
        → GoesOn p (IsStepOf (Order v job reading) s) (at_reading reading new) }
    ensures matches { (p : Protocol) (s : PoolState) (list : List Match) (judged : List Judgement)
        (reading : ℕ) (new : PoolState) (r : Stepped) → IsKept p s
        → IsGiven (Matches list judged reading) s
        → Happens (Matches list judged reading) s new r
        → GoesOn p (IsStepOf (Matches list judged reading) s) (at_reading reading new) }
{}

/// The matchmaker's mails, ticks and boots keep the pool.
pub fn matchmakers_keep_pools()
    ensures mails { (p : Protocol) (s : PoolState) (boot index reading : ℕ)
        (judged : Option Judgement) (mismatch : Option Mismatch) (new : PoolState) (r : Stepped)
        → IsKept p s → Happens (Receive Matchmaker boot index reading judged mismatch) s new r
        → GoesOn p (IsStepOf (Receive Matchmaker boot index reading judged mismatch) s)
        (at_reading reading new) }
    ensures ticks { (p : Protocol) (s : PoolState) (boot reading : ℕ) (new : PoolState)
        (r : Stepped) → IsKept p s → Happens (Tick Matchmaker boot reading) s new r
        → GoesOn p (IsStepOf (Tick Matchmaker boot reading) s) (at_reading reading new) }
    ensures boots { (p : Protocol) (s : PoolState) (kept : Option (ReceiptValue (List Operation)))
        (ended : List (ReceiptValue Ending)) (reading : ℕ) (new : PoolState) (r : Stepped)
        → IsKept p s → Happens (Reopen Matchmaker kept ended reading) s new r
        → GoesOn p (IsStepOf (Reopen Matchmaker kept ended reading) s) (at_reading reading new) }
{}

/// So do a crash of any daemon, and the close.
pub fn crashes_and_closes_keep_pools()
    ensures crashes { (p : Protocol) (s : PoolState) (who : Daemon) (new : PoolState) (r : Stepped)
        → IsKept p s → Happens (Crash who) s new r → GoesOn p (IsStepOf (Crash who) s) new }
    ensures closes { (p : Protocol) (s : PoolState) (length reading : ℕ) (mismatch : Mismatch)
        (new : PoolState) (r : Stepped) → IsKept p s
        → Happens (Close length reading mismatch) s new r
        → GoesOn p (IsStepOf (Close length reading mismatch) s) (at_reading reading new) }
{}

/// Every event that somebody gives to a pool and that it accepts keeps the pool, where few clusters
/// are used, as they always are (`schedd::clusters_stay_few`).
pub fn events_keep_pools()
    ensures { (p : Protocol) (s : PoolState) (e : Event) (r : Stepped) (new : PoolState)
        → IsKept p s → AreFew s → IsGiven e s → IsRefusal e s None → Reacts s e r new
        → GoesOn p (IsStepOf e s) new }
{}

/// It moves what the pool shows by steps of its own that may be made, and orders a job's removal
/// only where it asks for that. What it launches is a run that is shown, of the permit's job and of
/// what that job's ad says, and it was started by a match of its slot's ad and its job's.
pub fn events_move_views()
    ensures steps { (p : Protocol) (s : PoolState) (e : Event) (r : Stepped) (new : PoolState)
        → IsKept p s → AreFew s → Accepts s e r new → MovesView e s new }
    ensures launches { (p : Protocol) (s : PoolState) (e : Event) (r : Stepped) (new : PoolState)
        → IsKept p s → Accepts s e r new → LaunchesRun r.answer new }
{}

/// The abstract pool of a view is what the parts of the pool show.
pub fn views_show_pools()
    ensures { (read : List ℕ → Option ClaimId) → IsReader read → (p : Protocol) (s : PoolState)
        (view : View) → IsKept p s → IsViewOf read s view → ShowsPool (parts_of s) (pool_of view) }
{}
