ghost use Rattle.std.specs.Prelude.{◌≡◌};
ghost use Rattle.thin_pool.specs.Events.{reading_of};

use ad_eval::{Judged, NoMatch};
use ad_tree::AdList;
use claim_id::{JobId, SlotId};
use pool_mail::End;

/// What happens in a pool. A reading is in seconds since 1970-01-01 00:00:00 UTC.
pub enum Event {
    /// Jobs are submitted, as one cluster of the next number, also where there are none; procs
    /// count from 0.
    Submit {
        jobs: AdList,
        reading: u64,
    },
    /// The slot starts the job, which was judged to match it at that reading.
    Start {
        job: JobId,
        slot: SlotId,
        judged: Judged,
        reading: u64,
    },
    /// The job's run has ended.
    Ended {
        job: JobId,
        end: End,
        reading: u64,
    },
    /// Nothing is left to do: no idle job matches a slot at that reading.
    Close {
        reading: u64,
        none: NoMatch,
    },
}

impl Drop for Event {
    fn drop(self) {
        match self {
            Event::Submit {
                jobs: _jobs,
                reading: _,
            } => {}
            Event::Start {
                job: _,
                slot: _,
                judged: _judged,
                reading: _,
            } => {}
            Event::Ended {
                job: _,
                end: _,
                reading: _,
            } => {}
            Event::Close {
                reading: _,
                none: _none,
            } => {}
        }
    }
}

impl Event {
    pub fn reading(&self) -> u64
        ensures { result ≡ reading_of self.now }
    {
        match self {
            Event::Submit { reading, .. }
            | Event::Start { reading, .. }
            | Event::Ended { reading, .. }
            | Event::Close { reading, .. } => *reading,
        }
    }
}
