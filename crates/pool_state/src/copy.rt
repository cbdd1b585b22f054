// An equal pool.

ghost use Rattle.std.specs.Prelude.{◌≡◌, IfOk};
ghost use Rattle.std.specs.Option.{option_copied};
ghost use Rattle.pool_state.specs.Copies.{actors_of, jobs_of, marks_of, pool_with, tables_of};

use crate::opening::Tables;
use crate::state::PoolState;
use ad_value::{Copied, Memory, Seq};
use claim_id::JobId;
use pool_mail::Ending;
use pool_parts::{Finished, Pending};
use pool_shown::Machines;
use pool_view::EndReport;
use queue_tx::{Queue, Tx};
use receipt_roll::Mark;
use schedd_state::Schedd;
use std::alloc::Global;
use std::collections::LinkedList;

// The machines, and the schedd with its queue.
struct Actors {
    machines: Machines,
    schedd: Schedd,
    queue: Queue,
}

impl Drop for Actors {
    fn drop(self) {
        let Actors {
            machines: _machines,
            schedd: _schedd,
            queue: _queue,
        } = self;
    }
}

impl Actors {
    fn into_parts(self) -> (Machines, Schedd, Queue)
        ensures { result ≡ (self.machines, self.schedd, self.queue) }
    {
        let Actors {
            machines,
            schedd,
            queue,
        } = self;
        (machines, schedd, queue)
    }
}

// The jobs of which a pool keeps something beside its queue.
struct Jobs {
    finished: Finished,
    acked: LinkedList<JobId, Global>,
    ordered: LinkedList<JobId, Global>,
    reports: LinkedList<EndReport, Global>,
}

impl Drop for Jobs {
    fn drop(self) {
        let Jobs {
            finished: _finished,
            acked: _acked,
            ordered: _ordered,
            reports: _reports,
        } = self;
    }
}

// The unfinished transaction, and the marks of the rolls.
struct Marks {
    pending: Option<Pending>,
    log_mark: Mark<Tx>,
    end_marks: Seq<Mark<Ending>>,
}

impl Drop for Marks {
    fn drop(self) {
        let Marks {
            pending: _pending,
            log_mark: _log_mark,
            end_marks: _end_marks,
        } = self;
    }
}

impl Marks {
    fn into_parts(self) -> (Option<Pending>, Mark<Tx>, Seq<Mark<Ending>>)
        ensures { result ≡ (self.pending, self.log_mark, self.end_marks) }
    {
        let Marks {
            pending,
            log_mark,
            end_marks,
        } = self;
        (pending, log_mark, end_marks)
    }
}

// The unfinished transaction, where there is one.
fn copy_pending(alloc: Global, pending: Option<&Pending>) -> Result<Option<Pending>, Memory>
    ensures { IfOk result (λ copied. copied ≡ option_copied pending.entry) }
{
    match pending {
        Some(pending) => Ok(Some(pending.copy(alloc)?)),
        None => Ok(None),
    }
}

// An equal list.
fn copy_linked_list<T: Copy>(
    alloc: Global,
    list: &LinkedList<T, Global>,
) -> Result<LinkedList<T, Global>, Memory>
    ensures { IfOk result (λ copied. copied ≡ list.now) }
{
    let mut copied = LinkedList::new(alloc);
    for item in list {
        copied.push_back(*item)?;
    }
    Ok(copied)
}

fn copy_tables(alloc: Global, pool: &PoolState) -> Result<Tables, Memory>
    ensures { IfOk result (λ tables. tables ≡ tables_of pool.now) }
{
    let daemons = pool.daemons.copy(alloc)?;
    let mails = pool.mails.copy(alloc)?;
    let orders = pool.orders.copy(alloc)?;
    Ok(Tables {
        daemons,
        mails,
        orders,
    })
}

fn copy_actors(alloc: Global, pool: &PoolState) -> Result<Actors, Memory>
    ensures { IfOk result (λ actors. actors ≡ actors_of pool.now) }
{
    let machines = pool.machines.copy(alloc)?;
    let schedd = pool.schedd.copy(alloc)?;
    let queue = pool.queue.copy(alloc)?;
    Ok(Actors {
        machines,
        schedd,
        queue,
    })
}

fn copy_jobs(alloc: Global, pool: &PoolState) -> Result<Jobs, Memory>
    ensures { IfOk result (λ jobs. jobs ≡ jobs_of pool.now) }
{
    let acked = copy_linked_list(alloc, &pool.acked)?;
    let ordered = copy_linked_list(alloc, &pool.ordered)?;
    let reports = copy_linked_list(alloc, &pool.reports)?;
    let finished = pool.finished.copy(alloc)?;
    Ok(Jobs {
        finished,
        acked,
        ordered,
        reports,
    })
}

fn copy_marks(alloc: Global, pool: &PoolState) -> Result<Marks, Memory>
    ensures { IfOk result (λ marks. marks ≡ marks_of pool.now) }
{
    let pending = copy_pending(alloc, pool.pending.as_ref())?;
    let log_mark = pool.log_mark.copy(alloc)?;
    let end_marks = pool.end_marks.copy(alloc)?;
    Ok(Marks {
        pending,
        log_mark,
        end_marks,
    })
}

impl Jobs {
    // The pool with these parts in place of its own.
    fn join(self, pool: &PoolState, tables: Tables, actors: Actors, marks: Marks) -> PoolState
        ensures { result ≡ pool_with tables actors self marks pool.now }
    {
        let Jobs {
            finished,
            acked,
            ordered,
            reports,
        } = self;
        let (daemons, mails, orders) = tables.into_parts();
        let (machines, schedd, queue) = actors.into_parts();
        let (pending, log_mark, end_marks) = marks.into_parts();
        PoolState {
            daemons,
            mails,
            orders,
            machines,
            schedd,
            queue,
            pending,
            next_tx: pool.next_tx,
            finished,
            acked,
            ordered,
            reports,
            log_mark,
            end_marks,
            settings: pool.settings,
            latest: pool.latest,
            events: pool.events,
            closed: pool.closed,
            counts: pool.counts,
        }
    }
}

impl Copied for PoolState {
    /// An equal pool, with room for as many mails more; the ads share their attributes. Computes in
    /// O(mails and the room for more + slots + orders + claims + runs + jobs + bytes of texts), and
    /// a byte for each attribute.
    fn copy(&self, alloc: Global) -> Result<PoolState, Memory> {
        let tables = copy_tables(alloc, self)?;
        let actors = copy_actors(alloc, self)?;
        let jobs = copy_jobs(alloc, self)?;
        let marks = copy_marks(alloc, self)?;
        Ok(jobs.join(self, tables, actors, marks))
    }
}
