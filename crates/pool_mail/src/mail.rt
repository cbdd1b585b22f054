ghost use Rattle.std.specs.Prelude.{◌≡◌, ◌↔◌, IsTrue};
ghost use Rattle.std.specs.Option.{option_copied};
ghost use Rattle.pool_mail.specs.Mails.{ad_of_mail};

use crate::end::How;
use crate::matching::Match;
use crate::slot_ad::SlotAd;
use crate::why::Why;
use ad_tree::Ad;
use ad_value::{Copied, Memory, Seq};
use claim_id::{ClaimId, ClaimNo, JobId, RunNo};
use std::alloc::Global;

/// What a daemon tells another. An end of a lease, `until`, is in seconds since 1970-01-01
/// 00:00:00 UTC, and may pass the last reading.
pub enum Mail {
    /// A slot stands so.
    Update(SlotAd),
    /// A job and a claim go together.
    Matched(Match),
    /// A claim is asked for, with the ad of the job that is to run first.
    Ask {
        claim: ClaimId,
        job: JobId,
        ad: Ad,
        by_priority: bool,
    },
    /// The claim is given.
    Granted {
        claim: ClaimId,
        job: JobId,
    },
    /// The claim is not given, or, where a run is named, that run of it does not start.
    Denied {
        claim: ClaimNo,
        run: Option<RunNo>,
        job: JobId,
        why: Why,
    },
    /// A run is to start under a claim.
    Activate {
        run: RunNo,
        job: JobId,
        ad: Ad,
        until: u64,
    },
    /// A run's lease goes on until then.
    Alive {
        run: RunNo,
        until: u64,
    },
    /// The run is there, with a lease until then.
    Seen {
        run: RunNo,
        until: u64,
    },
    /// A run is to be killed.
    Stop {
        run: RunNo,
    },
    /// A claim is given up.
    Release {
        claim: ClaimNo,
    },
    /// The run isn't there and never will be; `kept` says whether its claim goes on.
    Gone {
        run: RunNo,
        kept: bool,
    },
    /// The run has ended.
    Ended {
        run: RunNo,
        how: How,
    },
    /// A user wants the job out of the queue.
    Remove {
        job: JobId,
    },
    /// A user wants the job to wait.
    Hold {
        job: JobId,
    },
    /// A user wants a held job to run again.
    Resume {
        job: JobId,
    },
}

impl Drop for Mail {
    fn drop(self) {
        match self {
            Mail::Update(_slot) => {}
            Mail::Ask {
                claim: _,
                job: _,
                ad: _ad,
                by_priority: _,
            } => {}
            Mail::Activate {
                run: _,
                job: _,
                ad: _ad,
                until: _,
            } => {}
            Mail::Matched(_) => {}
            Mail::Granted { claim: _, job: _ } => {}
            Mail::Denied {
                claim: _,
                run: _,
                job: _,
                why: _,
            } => {}
            Mail::Alive { run: _, until: _ } => {}
            Mail::Seen { run: _, until: _ } => {}
            Mail::Stop { run: _ } => {}
            Mail::Release { claim: _ } => {}
            Mail::Gone { run: _, kept: _ } => {}
            Mail::Ended { run: _, how: _ } => {}
            Mail::Remove { job: _ } => {}
            Mail::Hold { job: _ } => {}
            Mail::Resume { job: _ } => {}
        }
    }
}

/// A list of mails.
pub type MailList = Seq<Mail>;

impl Mail {
    /// The ad that the mail carries. Computes in O(1).
    pub fn ad(&self) -> Option<&Ad>
        ensures { option_copied result ≡ ad_of_mail self.now }
    {
        match self {
            Mail::Update(slot) => Some(&slot.ad),
            Mail::Ask { ad, .. } | Mail::Activate { ad, .. } => Some(ad),
            _ => None,
        }
    }

    /// Whether both are the same, their ads as spelled and in the same order, without memory.
    /// Computes in O(size of the smaller).
    pub fn same(&self, other: &Mail) -> bool
        ensures { IsTrue result ↔ (self.now ≡ other.now) }
    {
        match (self, other) {
            (Mail::Update(a), Mail::Update(b)) => a.same(b),
            (Mail::Matched(a), Mail::Matched(b)) => *a == *b,
            (
                Mail::Ask {
                    claim: c,
                    job: j,
                    ad: a,
                    by_priority: p,
                },
                Mail::Ask {
                    claim: d,
                    job: k,
                    ad: b,
                    by_priority: q,
                },
            ) => *c == *d && *j == *k && *p == *q && a.same(b),
            (Mail::Granted { claim: c, job: j }, Mail::Granted { claim: d, job: k }) => {
                *c == *d && *j == *k
            }
            (
                Mail::Denied {
                    claim: c,
                    run: r,
                    job: j,
                    why: w,
                },
                Mail::Denied {
                    claim: d,
                    run: s,
                    job: k,
                    why: v,
                },
            ) => *c == *d && *r == *s && *j == *k && *w == *v,
            (
                Mail::Activate {
                    run: r,
                    job: j,
                    ad: a,
                    until: t,
                },
                Mail::Activate {
                    run: s,
                    job: k,
                    ad: b,
                    until: u,
                },
            ) => *r == *s && *j == *k && *t == *u && a.same(b),
            (Mail::Alive { run: r, until: t }, Mail::Alive { run: s, until: u })
            | (Mail::Seen { run: r, until: t }, Mail::Seen { run: s, until: u }) => {
                *r == *s && *t == *u
            }
            (Mail::Stop { run: r }, Mail::Stop { run: s }) => *r == *s,
            (Mail::Release { claim: c }, Mail::Release { claim: d }) => *c == *d,
            (Mail::Gone { run: r, kept: k }, Mail::Gone { run: s, kept: l }) => {
                *r == *s && *k == *l
            }
            (Mail::Ended { run: r, how: h }, Mail::Ended { run: s, how: i }) => {
                *r == *s && *h == *i
            }
            (Mail::Remove { job: j }, Mail::Remove { job: k })
            | (Mail::Hold { job: j }, Mail::Hold { job: k })
            | (Mail::Resume { job: j }, Mail::Resume { job: k }) => *j == *k,
            _ => false,
        }
    }
}

impl Copied for Mail {
    fn copy(&self, alloc: Global) -> Result<Mail, Memory> {
        match self {
            Mail::Update(slot) => Ok(Mail::Update(slot.copy(alloc)?)),
            Mail::Matched(found) => Ok(Mail::Matched(*found)),
            Mail::Ask {
                claim,
                job,
                ad,
                by_priority,
            } => Ok(Mail::Ask {
                claim: *claim,
                job: *job,
                ad: ad.copy(alloc)?,
                by_priority: *by_priority,
            }),
            Mail::Granted { claim, job } => Ok(Mail::Granted {
                claim: *claim,
                job: *job,
            }),
            Mail::Denied {
                claim,
                run,
                job,
                why,
            } => Ok(Mail::Denied {
                claim: *claim,
                run: *run,
                job: *job,
                why: *why,
            }),
            Mail::Activate {
                run,
                job,
                ad,
                until,
            } => Ok(Mail::Activate {
                run: *run,
                job: *job,
                ad: ad.copy(alloc)?,
                until: *until,
            }),
            Mail::Alive { run, until } => Ok(Mail::Alive {
                run: *run,
                until: *until,
            }),
            Mail::Seen { run, until } => Ok(Mail::Seen {
                run: *run,
                until: *until,
            }),
            Mail::Stop { run } => Ok(Mail::Stop { run: *run }),
            Mail::Release { claim } => Ok(Mail::Release { claim: *claim }),
            Mail::Gone { run, kept } => Ok(Mail::Gone {
                run: *run,
                kept: *kept,
            }),
            Mail::Ended { run, how } => Ok(Mail::Ended {
                run: *run,
                how: *how,
            }),
            Mail::Remove { job } => Ok(Mail::Remove { job: *job }),
            Mail::Hold { job } => Ok(Mail::Hold { job: *job }),
            Mail::Resume { job } => Ok(Mail::Resume { job: *job }),
        }
    }
}
