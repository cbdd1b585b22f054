ghost use Rattle.std.specs.Prelude.{◌≡◌, ◌↔◌, Contains, IsTrue, slice_get};
ghost use Rattle.pool_mail.specs.Mails.{receivers_of, startd_of};

use crate::mail::Mail;
use crate::matching::Match;
use claim_id::{ClaimNo, RunNo};
use pool_outer::Daemon;

impl Mail {
    /// To whom the mail goes, and to whom it goes first where it goes to two. Computes in O(1).
    pub fn receiver(&self) -> Daemon
        ensures { slice_get (receivers_of self.now) 0 ≡ Some result }
    {
        match self {
            Mail::Update(_) => Daemon::Matchmaker,
            Mail::Ask { claim, .. } => startd_of_claim(claim.no),
            Mail::Release { claim } => startd_of_claim(*claim),
            Mail::Activate { run, .. } | Mail::Alive { run, .. } | Mail::Stop { run } => {
                startd_of_run(*run)
            }
            _ => Daemon::Schedd,
        }
    }

    /// To whom else the mail goes: a match is told to the schedd and to the startd of the claim's
    /// slot. Computes in O(1).
    pub fn other_receiver(&self) -> Option<Daemon>
        ensures { result ≡ slice_get (receivers_of self.now) 1 }
    {
        match self {
            Mail::Matched(Match { claim, .. }) => Some(startd_of_claim(claim.no)),
            _ => None,
        }
    }

    /// Whether the mail goes to that daemon. Computes in O(1).
    pub fn is_for(&self, who: Daemon) -> bool
        ensures { IsTrue result ↔ Contains (receivers_of self.now) who }
    {
        self.receiver() == who || self.other_receiver() == Some(who)
    }
}

// The startd of the claim's slot.
fn startd_of_claim(claim: ClaimNo) -> Daemon
    ensures { result ≡ startd_of claim }
{
    Daemon::Startd(claim.slot.machine)
}

// The startd of the run's slot.
fn startd_of_run(run: RunNo) -> Daemon
    ensures { result ≡ startd_of run.claim }
{
    startd_of_claim(run.claim)
}
