// The unfinished transaction is logged.

ghost use Rattle.std.specs.Prelude.{◌≡◌, ◌+◌, ◌-◌, ℕ, List, Ok, Option, None, IfOk, IsSomeAnd, OnErr, OnOk};
ghost use Rattle.std.specs.Option.{option_copied};
ghost use Rattle.ad_tree.specs.Tree.{tree};
ghost use Rattle.claim_id.specs.declared.numbers.ClaimId.{ClaimId};
ghost use Rattle.pool_parts.specs.Growth.{Grows};
ghost use Rattle.queue_tx.specs.Queues.{queue_after, with_changes};
ghost use Rattle.schedd_core.specs.PlanChanges.{how_of};
ghost use Rattle.schedd_state.specs.Reopening.{IsReader, claim_in, claim_in_tree};
ghost use Rattle.pool_parts.specs.Sizes.{queue_count};
ghost use Rattle.schedd_steps.specs.Counting.{with_counts};
ghost use Rattle.schedd_steps.specs.Ready.{IsLogDeed};
ghost use Rattle.pool_rules.specs.Logging.{jobs_after, jobs_left_by, leaver_of, leaver_with, outcome_of, run_under, with_leaver};

use ad_tree::{Ad, Expr};
use ad_value::names::pool::RUN_CLAIM;
use ad_value::{Copied, Memory, Value};
use claim_id::{ClaimId, RunNo};
use ordered_map::NewEntry;
use pool_mail::How;
use pool_parts::{Finished, FinishedJob, Growth, Unfinished, leaving_job};
use pool_state::PoolState;
use pool_view::Outcome;
use queue_tx::{Key, Prepared, Queue, Tx};
use schedd_plan::{Completion, JobPlan, run_number};
use std::alloc::Global;

// ---- jobs that leave the queue

fn how_of(completion: Completion) -> How
    ensures { result ≡ how_of completion }
{
    match completion {
        Completion::Exited(code) => How::Exited(code),
        Completion::Signalled(signal) => How::Signalled(signal),
    }
}

fn claim_in_tree(expr: &Expr) -> Option<ClaimId>
    ensures { (read : List ℕ → Option ClaimId) → IsReader read
        → result ≡ claim_in_tree read (tree expr.now) }
{
    match expr {
        Expr::Lit(Value::Str(text)) => claim_of_text(text.as_str()),
        _ => None,
    }
}

fn claim_of_text(text: &str) -> Option<ClaimId>
    ensures { (read : List ℕ → Option ClaimId) → IsReader read → result ≡ read text.now }
{
    ClaimId::read(text).ok()
}

fn claim_in(ad: &Ad) -> Option<ClaimId>
    ensures { (read : List ℕ → Option ClaimId) → IsReader read
        → result ≡ claim_in read ad.now }
{
    claim_in_tree(ad.get(RUN_CLAIM)?)
}

// The run under which an ad says that its job is.
fn run_under(ad: &Ad) -> Option<RunNo>
    ensures { (read : List ℕ → Option ClaimId) → IsReader read
        → result ≡ run_under read ad.now }
{
    let claim = claim_in(ad)?;
    let number = run_number(ad)?;
    Some(RunNo {
        claim: claim.no,
        number,
    })
}

// How a job leaves the queue by a plan, from under that run.
fn outcome_of(run: Option<RunNo>, plan: JobPlan) -> Option<Outcome>
    ensures { result ≡ outcome_of run plan }
{
    match (plan, run) {
        (JobPlan::Remove { .. }, _) => Some(Outcome::Removed),
        (JobPlan::Complete { completion, .. }, Some(run)) => Some(Outcome::EndedBy {
            run,
            how: how_of(completion),
        }),
        _ => None,
    }
}

type Leaver = Option<NewEntry<Key, FinishedJob>>;

fn leaver_with(alloc: Global, ad: Option<&Ad>, plan: JobPlan) -> Result<Leaver, Memory>
    ensures { IfOk result (λ leaver. (read : List ℕ → Option ClaimId) → IsReader read
        → leaver ≡ leaver_with read (option_copied ad.entry) plan) }
{
    let Some(ad) = ad else {
        return Ok(None);
    };
    let Some(outcome) = outcome_of(run_under(ad), plan) else {
        return Ok(None);
    };
    let ad = ad.copy(alloc)?;
    let entry = NewEntry::new(alloc, Key::Proc(plan.job()), FinishedJob { outcome, ad })?;
    Ok(Some(entry))
}

// The job that leaves the queue by what is logged.
fn leaver_of(alloc: Global, queue: &Queue, what: Unfinished) -> Result<Leaver, Memory>
    ensures { IfOk result (λ leaver. (read : List ℕ → Option ClaimId) → IsReader read
        → leaver ≡ leaver_of read queue.now what) }
{
    match what {
        Unfinished::Submission { .. } => Ok(None),
        Unfinished::Plan { plan } => leaver_with(alloc, queue.get(&Key::Proc(plan.job())), plan),
    }
}

fn put_leaver(finished: &mut Finished, leaver: Leaver)
    ensures { finished.new ≡ with_leaver leaver finished.old }
{
    if let Some(entry) = leaver {
        finished.put(entry);
    }
}

// How many jobs the queue has once that is logged; Memory where there are 2 to the 64.
fn jobs_after(what: Unfinished, jobs: u64) -> Result<u64, Memory>
    ensures { IfOk result (λ after. after ≡ jobs_after what jobs) }
{
    match what {
        Unfinished::Submission { count, .. } => match jobs.checked_add(u64::from(count)) {
            Some(jobs) => Ok(jobs),
            None => Err(Memory),
        },
        Unfinished::Plan { plan } => Ok(jobs_left_by(plan, jobs)),
    }
}

fn jobs_left_by(plan: JobPlan, jobs: u64) -> u64
    ensures { result ≡ jobs_left_by plan jobs }
{
    if leaving_job(plan).is_some() {
        jobs.saturating_sub(1)
    } else {
        jobs
    }
}

// ---- what is done to the queue and to what is counted

/// What becomes of the queue where the unfinished transaction is in the log, what undoes it, and
/// how it changes what ads count.
pub(crate) struct QueueDeed {
    change: Prepared,
    undo: Prepared,
    growth: Growth,
}

impl Drop for QueueDeed {
    fn drop(self) {
        let QueueDeed {
            change: _change,
            undo: _undo,
            growth: _growth,
        } = self;
    }
}

impl QueueDeed {
    /// Memory too where it can't be done to the queue.
    pub(crate) fn new(alloc: Global, queue: &Queue, tx: &Tx) -> Result<QueueDeed, Memory>
        ensures change { IfOk result
            (λ d. queue_after queue.now tx.now ≡ Ok (with_changes queue.now d.change)) }
        ensures undo { IfOk result
            (λ d. with_changes (with_changes queue.now d.change) d.undo ≡ queue.now) }
        ensures growth { IfOk result
            (λ d. Grows d.growth queue.now (with_changes queue.now d.change)) }
    {
        let Ok(change) = queue.prepare(alloc, tx) else {
            return Err(Memory);
        };
        let undo = queue.undo_of(alloc, &change)?;
        let growth = Growth::new(alloc, queue, tx)?;
        Ok(QueueDeed {
            change,
            undo,
            growth,
        })
    }

    /// The queue is changed. What undoes that, and how many bytes of ads the pool has then, of as
    /// many as it had. Memory where a count of 64 bits is at its end, and nothing is changed.
    pub(crate) fn commit(self, queue: &mut Queue, bytes: u64) -> Result<Changed, Memory>
        requires undo { with_changes (with_changes queue.old self.change) self.undo ≡ queue.old }
        requires growth { Grows self.growth queue.old (with_changes queue.old self.change) }
        ensures queue { OnOk result (queue.new ≡ with_changes queue.old self.change) }
        ensures undo { IfOk result (λ c. c.undo ≡ self.undo) }
        ensures bytes { IfOk result (λ c. c.bytes
            ≡ bytes + queue_count (with_changes queue.old self.change) - queue_count queue.old) }
        ensures kept { OnErr result (queue.new ≡ queue.old) }
    {
        let QueueDeed {
            change,
            undo,
            growth,
        } = self;
        queue.commit(change);
        match growth.bytes_after(bytes, queue) {
            Ok(bytes) => Ok(Changed { undo, bytes }),
            Err(Memory) => {
                queue.commit(undo);
                Err(Memory)
            }
        }
    }
}

/// What undoes a change of the queue, and how many bytes of ads the pool has after it.
#[derive(Drop)]
pub(crate) struct Changed {
    pub(crate) undo: Prepared,
    pub(crate) bytes: u64,
}

/// What else becomes of a pool then, but for its bytes.
pub(crate) struct CountDeed {
    leaver: Leaver,
    next_tx: u64,
    jobs: u64,
}

impl Drop for CountDeed {
    fn drop(self) {
        let CountDeed {
            leaver: _leaver,
            next_tx: _,
            jobs: _,
        } = self;
    }
}

impl CountDeed {
    pub(crate) fn new(
        alloc: Global,
        state: &PoolState,
        what: Unfinished,
    ) -> Result<CountDeed, Memory>
        ensures leaver { IfOk result (λ d. (read : List ℕ → Option ClaimId) → IsReader read
            → d.leaver ≡ leaver_of read state.now.queue what) }
        ensures next_tx { IfOk result (λ d. d.next_tx ≡ state.now.next_tx + 1) }
        ensures jobs { IfOk result (λ d. d.jobs ≡ jobs_after what state.now.counts.jobs) }
    {
        let Some(next_tx) = state.next_tx.checked_add(1) else {
            return Err(Memory);
        };
        let jobs = jobs_after(what, state.counts.jobs)?;
        let leaver = leaver_of(alloc, &state.queue, what)?;
        Ok(CountDeed {
            leaver,
            next_tx,
            jobs,
        })
    }

    /// So it becomes, with that many bytes of ads. Computes in O(log jobs), without memory.
    pub(crate) fn commit(self, state: &mut PoolState, bytes: u64)
        ensures { state.new ≡ with_counts self bytes state.old.queue state.old }
    {
        let CountDeed {
            leaver,
            next_tx,
            jobs,
        } = self;
        put_leaver(&mut state.finished, leaver);
        state.pending = None;
        state.next_tx = next_tx;
        state.counts.jobs = jobs;
        state.counts.bytes = bytes;
    }
}

/// What is done where the unfinished transaction is in the log.
#[derive(Drop)]
pub(crate) struct LogDeed {
    pub(crate) what: Unfinished,
    pub(crate) queue: QueueDeed,
    pub(crate) counts: CountDeed,
}

impl LogDeed {
    /// Memory too where nothing is unfinished, or where it can't be done to the queue.
    pub(crate) fn new(alloc: Global, state: &PoolState) -> Result<LogDeed, Memory>
        ensures { IfOk result (λ d. IsSomeAnd state.now.pending (IsLogDeed state.now d)) }
    {
        let Some(pending) = &state.pending else {
            return Err(Memory);
        };
        let what = pending.what;
        let queue = QueueDeed::new(alloc, &state.queue, &pending.tx)?;
        let counts = CountDeed::new(alloc, state, what)?;
        Ok(LogDeed {
            what,
            queue,
            counts,
        })
    }
}
