// The pool as a value.

use ad_value::Seq;
use claim_id::JobId;
use pool_mail::{Ending, Settings};
use pool_parts::{Finished, Pending};
use pool_shown::Machines;
use pool_tables::{Daemons, Mails, Orders};
use pool_view::EndReport;
use queue_tx::{Queue, Tx};
use receipt_roll::Mark;
use schedd_state::Schedd;
use std::alloc::Global;
use std::collections::LinkedList;

/// What a pool has of that which is limited.
#[derive(Clone, Copy)]
pub struct Counts {
    /// The jobs of the queue as logged.
    pub jobs: u64,
    /// The printed bytes of ads.
    pub bytes: u64,
}

/// A pool. Each part says of itself what always holds of it.
pub struct PoolState {
    pub daemons: Daemons,
    pub mails: Mails,
    pub orders: Orders,
    pub machines: Machines,
    pub schedd: Schedd,
    /// The queue as logged.
    pub queue: Queue,
    /// The unfinished transaction.
    pub pending: Option<Pending>,
    /// The number of the next transaction.
    pub next_tx: u64,
    /// The jobs that have left the queue.
    pub finished: Finished,
    /// The jobs that were acknowledged.
    pub acked: LinkedList<JobId, Global>,
    /// The jobs that were ordered to be removed.
    pub ordered: LinkedList<JobId, Global>,
    /// How runs ended, by what was sent.
    pub reports: LinkedList<EndReport, Global>,
    /// Of the log's roll.
    pub log_mark: Mark<Tx>,
    /// Of each machine's roll of ends.
    pub end_marks: Seq<Mark<Ending>>,
    pub settings: Settings,
    /// The greatest reading, in seconds since 1970-01-01 00:00:00 UTC.
    pub latest: u64,
    /// How many events were accepted.
    pub events: u64,
    pub closed: bool,
    pub counts: Counts,
}

impl Drop for PoolState {
    fn drop(self) {
        let PoolState {
            daemons: _daemons,
            mails: _mails,
            orders: _orders,
            machines: _machines,
            schedd: _schedd,
            queue: _queue,
            pending: _pending,
            next_tx: _,
            finished: _finished,
            acked: _acked,
            ordered: _ordered,
            reports: _reports,
            log_mark: _log_mark,
            end_marks: _end_marks,
            settings: _,
            latest: _,
            events: _,
            closed: _,
            counts: _,
        } = self;
    }
}
