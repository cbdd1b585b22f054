ghost use Rattle.std.specs.Prelude.{◌≡◌};
ghost use Rattle.pool_parts.specs.Events.{holder_of, reading_of, receipt_of};

use ad_eval::{Judged, NoMatch};
use ad_tree::AdList;
use ad_value::Seq;
use claim_id::{JobId, Verb};
use pool_mail::{Ending, MatchList};
use pool_outer::Daemon;
use queue_tx::Tx;
use receipt_roll::Receipt;

/// A list of matches, each with its proof.
pub type JudgedList = Seq<Judged>;

/// Receipts of the ends of programs.
pub type EndingReceipts = Seq<Receipt<Ending>>;

/// What happens in a pool. A reading is in seconds since 1970-01-01 00:00:00 UTC. A boot is the one
/// that the daemon takes for its own.
pub enum Event {
    /// Jobs are submitted as one cluster, also where there are none; procs count from 0.
    Submit {
        boot: u64,
        jobs: AdList,
        reading: u64,
    },
    /// An order of the input is given to the schedd.
    Order {
        verb: Verb,
        job: JobId,
        reading: u64,
    },
    /// A daemon receives the mail of that number. `judged` and `none` say whether the mail's ad and
    /// the slot's match at the reading, where that is asked for.
    Receive {
        who: Daemon,
        boot: u64,
        index: u64,
        reading: u64,
        judged: Option<Judged>,
        none: Option<NoMatch>,
    },
    /// Time passes for a daemon.
    Tick {
        who: Daemon,
        boot: u64,
        reading: u64,
    },
    /// The schedd looks at the periodic expressions of a job.
    Check {
        boot: u64,
        job: JobId,
        reading: u64,
    },
    /// The unfinished transaction is logged.
    Logged {
        boot: u64,
        receipt: Receipt<Tx>,
    },
    /// A run's program has ended.
    Ended {
        machine: u16,
        boot: u64,
        receipt: Receipt<Ending>,
        reading: u64,
    },
    /// A daemon crashes.
    Crash {
        who: Daemon,
    },
    /// A daemon comes back: the schedd perhaps with its unfinished transaction, a startd with the
    /// ends of all programs that ran.
    Reopen {
        who: Daemon,
        kept: Option<Receipt<Tx>>,
        ended: EndingReceipts,
        reading: u64,
    },
    /// Matches were found, each with its proof.
    Matches {
        list: MatchList,
        judged: JudgedList,
        reading: u64,
    },
    /// Nothing is left to do after so many events: no idle job matches a slot at that reading.
    Close {
        length: u64,
        reading: u64,
        none: NoMatch,
    },
}

impl Drop for Event {
    fn drop(self) {
        match self {
            Event::Submit {
                boot: _,
                jobs: _jobs,
                reading: _,
            } => {}
            Event::Order {
                verb: _,
                job: _,
                reading: _,
            } => {}
            Event::Receive {
                who: _,
                boot: _,
                index: _,
                reading: _,
                judged: _judged,
                none: _none,
            } => {}
            Event::Tick {
                who: _,
                boot: _,
                reading: _,
            } => {}
            Event::Check {
                boot: _,
                job: _,
                reading: _,
            } => {}
            Event::Logged {
                boot: _,
                receipt: _receipt,
            } => {}
            Event::Ended {
                machine: _,
                boot: _,
                receipt: _receipt,
                reading: _,
            } => {}
            Event::Crash { who: _ } => {}
            Event::Reopen {
                who: _,
                kept: _kept,
                ended: _ended,
                reading: _,
            } => {}
            Event::Matches {
                list: _list,
                judged: _judged,
                reading: _,
            } => {}
            Event::Close {
                length: _,
                reading: _,
                none: _none,
            } => {}
        }
    }
}

impl Event {
    /// The daemon whose event it is; none for those of the master, which gives the orders of the
    /// input and closes the pool. Computes in O(1).
    pub fn holder(&self) -> Option<Daemon>
        ensures { result ≡ holder_of self.now }
    {
        match self {
            Event::Submit { .. } | Event::Check { .. } | Event::Logged { .. } => {
                Some(Daemon::Schedd)
            }
            Event::Receive { who, .. }
            | Event::Tick { who, .. }
            | Event::Crash { who }
            | Event::Reopen { who, .. } => Some(*who),
            Event::Ended { machine, .. } => Some(Daemon::Startd(*machine)),
            Event::Matches { .. } => Some(Daemon::Matchmaker),
            Event::Order { .. } | Event::Close { .. } => None,
        }
    }

    /// The reading at which it happens; none where something is logged, or a daemon crashes.
    /// Computes in O(1).
    pub fn reading(&self) -> Option<u64>
        ensures { result ≡ reading_of self.now }
    {
        match self {
            Event::Submit { reading, .. }
            | Event::Order { reading, .. }
            | Event::Receive { reading, .. }
            | Event::Tick { reading, .. }
            | Event::Check { reading, .. }
            | Event::Ended { reading, .. }
            | Event::Reopen { reading, .. }
            | Event::Matches { reading, .. }
            | Event::Close { reading, .. } => Some(*reading),
            Event::Logged { .. } | Event::Crash { .. } => None,
        }
    }

    /// The receipt of a transaction that the event has. Computes in O(1).
    pub fn into_receipt(self) -> Option<Receipt<Tx>>
        ensures { result ≡ receipt_of self }
    {
        match self {
            Event::Logged { boot: _, receipt } => Some(receipt),
            Event::Reopen {
                who: _,
                kept,
                ended: _ended,
                reading: _,
            } => kept,
            _ => None,
        }
    }
}
