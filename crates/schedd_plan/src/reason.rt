ghost use Rattle.std.specs.Prelude.{◌≡◌};
ghost use Rattle.schedd_plan.specs.JobAttributes.{reason_text, reason_worded};

/// What the schedd says of a job that a user holds.
pub const BY_COMMAND: &str = "by command";
/// What it says of a job that an expression of its own holds.
pub const BY_POLICY: &str = "by policy";
/// What it says of a job whose program was not started.
pub const FAILED_TO_START: &str = "Failed to start";

/// Why a job is held (HTCondor manual, Job ClassAd Attributes, HoldReason).
#[derive(Clone, Copy)]
pub enum Reason {
    /// A user holds it.
    ByCommand,
    /// An expression of its own holds it.
    ByPolicy,
    /// Its program was not started.
    FailedToStart,
}

impl Reason {
    /// What HoldReason says. Computes in O(1).
    pub fn text(self) -> &'static str
        ensures { result.now ≡ reason_text self }
    {
        match self {
            Reason::ByCommand => BY_COMMAND,
            Reason::ByPolicy => BY_POLICY,
            Reason::FailedToStart => FAILED_TO_START,
        }
    }

    /// The reason that a HoldReason says; any other words count as a user's. Computes in O(1).
    pub(crate) fn worded(words: &str) -> Reason
        ensures { result ≡ reason_worded words.now }
    {
        if words == BY_POLICY {
            Reason::ByPolicy
        } else if words == FAILED_TO_START {
            Reason::FailedToStart
        } else {
            Reason::ByCommand
        }
    }
}
