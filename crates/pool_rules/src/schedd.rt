//! Every event of the schedd that a pool accepts keeps the pool.

ghost use Rattle.std.specs.Prelude.{ℕ, List, Option, None};
ghost use Rattle.ad_eval.specs.Judgement.{Judgement, Mismatch};
ghost use Rattle.ad_tree.specs.Ad.{Attributes};
ghost use Rattle.claim_id.specs.declared.numbers.ClaimId.{ClaimId};
ghost use Rattle.claim_id.specs.declared.numbers.JobId.{JobId};
ghost use Rattle.pool_parts.specs.declared.answer.Stepped.{Stepped};
ghost use Rattle.pool_parts.specs.declared.event.Event.{Event};
ghost use Rattle.pool_parts.specs.declared.event.Event.TheVariants.{Check, Logged, Receive, Reopen, Submit, Tick};
ghost use Rattle.pool_mail.specs.declared.end.Ending.{Ending};
ghost use Rattle.pool_rules.specs.Given.{IsGiven};
ghost use Rattle.pool_rules.specs.Happens.{Happens, Reacts};
ghost use Rattle.pool_outer.specs.declared.gate.Daemon.TheVariants.{Schedd};
ghost use Rattle.pool_view.specs.Protocol.{Protocol};
ghost use Rattle.pool_rules.specs.Refusals.{IsEventRefusal, IsRefusal};
ghost use Rattle.pool_state.specs.Openings.{CanOpen, IsOpenedBy};
ghost use Rattle.pool_state.specs.declared.opening.Opening.{Opening};
ghost use Rattle.pool_state.specs.declared.state.PoolState.{PoolState};
ghost use Rattle.queue_tx.specs.Operations.{Operation};
ghost use Rattle.receipt_roll.specs.Values.{ReceiptValue};
ghost use Rattle.schedd_state.specs.Reopening.{IsReader};
ghost use Rattle.pool_rules.specs.Few.{AreFew};
ghost use Rattle.pool_rules.specs.Kept.{GoesOn, IsKept, at_reading};
ghost use Rattle.pool_rules.specs.Steps.{IsStepOf};

/// A schedd that receives a mail keeps the pool, where nothing refuses the event: then nothing is
/// unfinished.
pub fn received_mails_keep_pools()
    ensures { (p : Protocol) (s new : PoolState) (r : Stepped) (boot index reading : ℕ)
        (judged : Option Judgement) (mismatch : Option Mismatch) → IsKept p s
        → IsEventRefusal (Receive Schedd boot index reading judged mismatch) s None
        → Happens (Receive Schedd boot index reading judged mismatch) s new r
        → GoesOn p (IsStepOf (Receive Schedd boot index reading judged mismatch) s)
        (at_reading reading new) }
{}

/// So does one for which time passes, and one that looks at the periodic expressions of a job, by
/// which the mark moves on up to which all jobs were looked at.
pub fn ticks_and_looks_keep_pools()
    ensures ticks { (p : Protocol) (s new : PoolState) (r : Stepped) (boot reading : ℕ)
        → IsKept p s → IsEventRefusal (Tick Schedd boot reading) s None
        → Happens (Tick Schedd boot reading) s new r
        → GoesOn p (IsStepOf (Tick Schedd boot reading) s) (at_reading reading new) }
    ensures looks { (p : Protocol) (s new : PoolState) (r : Stepped) (boot : ℕ) (job : JobId)
        (reading : ℕ) → IsKept p s → IsEventRefusal (Check boot job reading) s None
        → Happens (Check boot job reading) s new r
        → GoesOn p (IsStepOf (Check boot job reading) s) (at_reading reading new) }
{}

/// Jobs that are submitted keep the pool, where nothing refuses the event and few clusters are
/// used: then nothing is unfinished, and no job of the next cluster is in the queue or has left it.
pub fn submissions_keep_pools()
    ensures { (p : Protocol) (s new : PoolState) (r : Stepped) (boot : ℕ)
        (jobs : List Attributes) (reading : ℕ) → IsKept p s → AreFew s
        → IsGiven (Submit boot jobs reading) s → IsRefusal (Submit boot jobs reading) s None
        → Happens (Submit boot jobs reading) s new r
        → GoesOn p (IsStepOf (Submit boot jobs reading) s) (at_reading reading new) }
{}

/// Few clusters are used when a pool opens, and every event leaves it so. `read` is any function
/// that reads the texts of claims.
pub fn clusters_stay_few()
    ensures openings { (o : Opening) (s : PoolState) → CanOpen o → IsOpenedBy o s → AreFew s }
    ensures events { (read : List ℕ → Option ClaimId) → IsReader read → (p : Protocol)
        (s new : PoolState) (e : Event) (r : Stepped) → IsKept p s → AreFew s
        → Reacts s e r new → AreFew new }
{}

/// The pool is kept where its unfinished transaction is logged. `read` is any function that reads
/// the texts of claims.
pub fn logged_transactions_keep_pools()
    ensures { (read : List ℕ → Option ClaimId) → IsReader read → (p : Protocol)
        (s new : PoolState) (r : Stepped) (boot : ℕ) (receipt : ReceiptValue (List Operation))
        → IsKept p s → Happens (Logged boot receipt) s new r
        → GoesOn p (IsStepOf (Logged boot receipt) s) new }
{}

/// It is kept where the schedd comes back, with its unfinished transaction and without it.
pub fn returns_keep_pools()
    ensures { (read : List ℕ → Option ClaimId) → IsReader read → (p : Protocol)
        (s new : PoolState) (r : Stepped) (kept : Option (ReceiptValue (List Operation)))
        (ended : List (ReceiptValue Ending)) (reading : ℕ) → IsKept p s
        → Happens (Reopen Schedd kept ended reading) s new r
        → GoesOn p (IsStepOf (Reopen Schedd kept ended reading) s) (at_reading reading new) }
{}
