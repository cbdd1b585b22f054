//! Every event of a startd that a pool accepts keeps the pool.

ghost use Rattle.std.specs.Prelude.{◌≡◌, ℕ, List, Option, None};
ghost use Rattle.ad_eval.specs.Judgement.{Judgement, Mismatch};
ghost use Rattle.pool_parts.specs.declared.answer.Answer.TheVariants.{Launch};
ghost use Rattle.pool_parts.specs.declared.answer.Stepped.{Stepped};
ghost use Rattle.pool_parts.specs.declared.event.Event.TheVariants.{Ended, Receive, Reopen, Tick};
ghost use Rattle.pool_rules.specs.Launched.{IsPermitOf};
ghost use Rattle.pool_rules.specs.Shown.{ShowsPool};
ghost use Rattle.pool_mail.specs.declared.end.Ending.{Ending};
ghost use Rattle.pool_rules.specs.Happens.{Happens};
ghost use Rattle.pool_rules.specs.Parts.{parts_of};
ghost use Rattle.pool_outer.specs.declared.gate.Daemon.TheVariants.{Startd};
ghost use Rattle.pool_view.specs.Protocol.{Protocol};
ghost use Rattle.pool_rules.specs.Refusals.{IsEventRefusal};
ghost use Rattle.pool_state.specs.declared.state.PoolState.{PoolState};
ghost use Rattle.pool_view.specs.AbstractPool.{AbstractPool};
ghost use Rattle.queue_tx.specs.Operations.{Operation};
ghost use Rattle.receipt_roll.specs.Values.{ReceiptValue};
ghost use Rattle.startd_core.specs.declared.answer.Permit.{Permit};
ghost use Rattle.pool_rules.specs.Kept.{GoesOn, IsKept, at_reading};
ghost use Rattle.pool_rules.specs.Steps.{IsStepOf};

/// A startd that receives a mail keeps the pool, where nothing refuses the event: then the mail
/// goes to that startd, and what was judged with it is of the mail's ad and its slot's.
pub fn received_mails_keep_pools()
    ensures { (p : Protocol) (s new : PoolState) (r : Stepped) (machine boot index reading : ℕ)
        (judged : Option Judgement) (mismatch : Option Mismatch) → IsKept p s
        → IsEventRefusal (Receive (Startd machine) boot index reading judged mismatch) s None
        → Happens (Receive (Startd machine) boot index reading judged mismatch) s new r
        → GoesOn p (IsStepOf (Receive (Startd machine) boot index reading judged mismatch) s)
        (at_reading reading new) }
{}

/// What it launches then is a run of each abstract pool that the pool shows after the event, of the
/// permit's job and of what that job's ad says, and it was started by a match of its slot's ad and
/// its job's.
pub fn launches_are_matched()
    ensures { (p : Protocol) (s new : PoolState) (r : Stepped) (machine boot index reading : ℕ)
        (judged : Option Judgement) (mismatch : Option Mismatch) (w : AbstractPool)
        (permit : Permit) → IsKept p s
        → IsEventRefusal (Receive (Startd machine) boot index reading judged mismatch) s None
        → Happens (Receive (Startd machine) boot index reading judged mismatch) s new r
        → ShowsPool (parts_of (at_reading reading new)) w → r.answer ≡ Launch permit
        → IsPermitOf w permit }
{}

/// A startd for which time passes keeps the pool.
pub fn ticks_keep_pools()
    ensures { (p : Protocol) (s new : PoolState) (r : Stepped) (machine boot reading : ℕ)
        → IsKept p s → Happens (Tick (Startd machine) boot reading) s new r
        → GoesOn p (IsStepOf (Tick (Startd machine) boot reading) s) (at_reading reading new) }
{}

/// So does one in which the program of a run ends. The end is said of the run that is on its slot,
/// and of that run's job.
pub fn ended_runs_keep_pools()
    ensures { (p : Protocol) (s new : PoolState) (r : Stepped) (machine boot reading : ℕ)
        (receipt : ReceiptValue Ending) → IsKept p s
        → Happens (Ended machine boot receipt reading) s new r
        → GoesOn p (IsStepOf (Ended machine boot receipt reading) s) (at_reading reading new) }
{}

/// And so does one that comes back, in the next boot of its machine, where nothing refuses the
/// event.
pub fn boots_keep_pools()
    ensures { (p : Protocol) (s new : PoolState) (r : Stepped) (machine reading : ℕ)
        (kept : Option (ReceiptValue (List Operation))) (ended : List (ReceiptValue Ending))
        → IsKept p s → IsEventRefusal (Reopen (Startd machine) kept ended reading) s None
        → Happens (Reopen (Startd machine) kept ended reading) s new r
        → GoesOn p (IsStepOf (Reopen (Startd machine) kept ended reading) s)
        (at_reading reading new) }
{}
