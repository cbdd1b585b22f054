//! What a daemon does that is several moves: what it saw at the beginning is enough for all of
//! them.

ghost use Rattle.std.specs.Prelude.{◌≡◌, ◌⊎◌, ℕ, ◌<◌, List, [], ◌∷◌, map, Option, Some, None, IsSome, IsSomeAnd};
ghost use Rattle.claim_id.specs.declared.numbers.ClaimNo.{ClaimNo};
ghost use Rattle.claim_id.specs.declared.numbers.JobId.{JobId};
ghost use Rattle.claim_id.specs.declared.numbers.RunNo.{RunNo};
ghost use Rattle.pool_mail.specs.declared.end.How.{How};
ghost use Rattle.pool_view.specs.declared.job.Outcome.TheVariants.{Removed};
ghost use Rattle.pool_view.specs.declared.job.State.TheVariants.{Left, Under};
ghost use Rattle.pool_view.specs.declared.run.Run.{Run};
ghost use Rattle.pool_view.specs.AbstractPool.{HasCore, IsIn, Stands};
ghost use Rattle.pool_view.specs.AbstractStep.{Finish, Grant, IsWaiting, Lengthen};
ghost use Rattle.pool_view.specs.Ads.{Core};
ghost use Rattle.pool_view.specs.Safe.{Safe};
ghost use Rattle.pool_view.specs.Facts.{Facts};
ghost use Rattle.pool_view.specs.Protocol.{HasMark, Holds, HoldsBefore, NewJob, OfJob, Protocol, Removal, Submission};
ghost use Rattle.pool_view.specs.ProtocolMove.{Commit, EndClaim, HasNoRun, HoldClaim, IsNotRun, MayAll, Pend, Reboot, SayGone, SendLease, StopRun, TakeOrder, UseNumber, confirm_move};

/// A claim that is handed over, a run number that is used up without a run, a run that ends with
/// its claim, also for a rival, and a boot under a run.
pub fn startd_rows()
    ensures hand_over { (p : Protocol) (old new : ClaimNo) → Facts p
        → Holds p.pool.marks old → HasNoRun p.pool old.slot
        → new.slot ≡ old.slot → new.boot ≡ old.boot → old.seq < new.seq
        → MayAll p (EndClaim old ∷ HoldClaim new ∷ []) }
    ensures denied { (p : Protocol) (run : RunNo) → Facts p → HoldsBefore p.pool.marks run
        → MayAll p (UseNumber run ∷ SayGone run ∷ []) }
    ensures not_running { (p : Protocol) (run : RunNo) → Holds p.pool.marks run.claim
        → IsNotRun p.pool run → MayAll p (UseNumber run ∷ SayGone run ∷ []) }

    // A run ends.
    ensures ended { (p : Protocol) (r : Run) (how : Option How) → Facts p → Safe p.pool
        → IsIn r p.pool.runs → MayAll p (StopRun r how ∷ EndClaim r.run.claim ∷ []) }
    ensures ended_for_rival { (p : Protocol) (r : Run) (how : Option How) (new : ClaimNo)
        → Facts p → Safe p.pool → IsIn r p.pool.runs
        → new.slot ≡ r.run.claim.slot → new.boot ≡ r.run.claim.boot → r.run.claim.seq < new.seq
        → MayAll p (StopRun r how ∷ EndClaim r.run.claim ∷ HoldClaim new ∷ []) }
    ensures booted { (p : Protocol) (r : Run) (boot : ℕ) → Safe p.pool → IsIn r p.pool.runs
        → HasMark p.pool.marks r.slot (λ m. m.boot < boot)
        → MayAll p (StopRun r None ∷ Reboot r.slot boot ∷ []) }
{}

/// A grant and a longer lease that are logged and then sent, a submission that is logged and then
/// acknowledged, and an order to remove a job.
pub fn schedd_rows()
    ensures granted { (p : Protocol) (job : JobId) (run : RunNo) (end : ℕ) (core : Core) → Facts p
        → p.pending ≡ Some (OfJob (Grant job run end)) → HasCore p.pool job core
        → MayAll p (Commit
        ∷ SendLease (record { run = run; job = job; core = core; until = end }) ∷ []) }
    ensures lengthened { (p : Protocol) (job : JobId) (run : RunNo) (old end : ℕ) (core : Core)
        → Facts p → p.pending ≡ Some (OfJob (Lengthen job end))
        → Stands p.pool job (Under run old) → HasCore p.pool job core
        → MayAll p (Commit
        ∷ SendLease (record { run = run; job = job; core = core; until = end }) ∷ []) }
    ensures submitted { (p : Protocol) (jobs : List NewJob) → Facts p
        → p.pending ≡ Some (Submission jobs) → MayAll p (Commit ∷ map confirm_move jobs) }

    // A job is to be removed, while it is under a run, and while it is not.
    ensures removal { (p : Protocol) (job : JobId) → IsSome (p.pool.jobs job) → p.pending ≡ None
        → MayAll p (TakeOrder job ∷ Pend (Removal job) ∷ []) }
    ensures removed { (p : Protocol) (job : JobId)
        → IsSomeAnd (p.pool.jobs job) (λ e. IsWaiting e.state ⊎ (e.state ≡ Left))
        → p.pending ≡ None
        → MayAll p (TakeOrder job ∷ Pend (OfJob (Finish job Removed)) ∷ []) }
{}
