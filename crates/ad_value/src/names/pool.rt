//! What the pool sets in a job's ad, beside its JobStatus (HTCondor manual, Job ClassAd Attributes;
//! the last three are this pool's own).

ghost use Rattle.std.specs.Prelude.{◌≡◌, codes};

/// Why the job is held.
pub const HOLD_REASON: &str = "HoldReason";
/// Whether a signal ended its last run.
pub const EXIT_BY_SIGNAL: &str = "ExitBySignal";
/// The status with which its last run ended.
pub const EXIT_CODE: &str = "ExitCode";
/// The signal that ended its last run.
pub const EXIT_SIGNAL: &str = "ExitSignal";
/// The claim under which it runs, as text.
pub const RUN_CLAIM: &str = "RunClaim";
/// The number of its run.
pub const RUN_NUMBER: &str = "RunNumber";
/// When the lease of its run ends, in seconds since 1970.
pub const LEASE_UNTIL: &str = "LeaseUntil";

/// The names are these texts.
pub fn texts_are()
    ensures hold_reason { HOLD_REASON.now ≡ codes "HoldReason" }
    ensures exit_by_signal { EXIT_BY_SIGNAL.now ≡ codes "ExitBySignal" }
    ensures exit_code { EXIT_CODE.now ≡ codes "ExitCode" }
    ensures exit_signal { EXIT_SIGNAL.now ≡ codes "ExitSignal" }
    ensures run_claim { RUN_CLAIM.now ≡ codes "RunClaim" }
    ensures run_number { RUN_NUMBER.now ≡ codes "RunNumber" }
    ensures lease_until { LEASE_UNTIL.now ≡ codes "LeaseUntil" }
{}
