// A pool that opens.

ghost use Rattle.std.specs.Prelude.{◌≡◌, ◌<◌, ◌++◌, ◌∷◌, [], IfOk, OnOk, filter, if◌then◌else◌, length, List, map};
ghost use Rattle.pool_mail.specs.declared.slot_ad.SlotAd.{SlotAd};
ghost use Rattle.pool_tables.specs.DaemonTables.{first_daemons};
ghost use Rattle.pool_tables.specs.OrderTables.{not_given};
ghost use Rattle.schedd_state.specs.Schedds.{IsOpened};
ghost use Rattle.startd_core.specs.Startds.{with_slot};
ghost use Rattle.pool_state.specs.Openings.{AreListed, ArePushed, AreRemoved, CanOpen, HasNoMails, IsJobCount, IsJoined, IsOpenedBy, is_next_slot, is_removed, is_removed_at, machines_of, new_startd, startds_from, startds_of};

use crate::state::{Counts, PoolState};
use ad_value::{Copied, Memory, Seq};
use claim_id::{JobId, SlotId, Wish, boot_number};
use pool_mail::{Ending, Settings, SlotAd, SlotAdList};
use pool_parts::{Allow, Finished, jobs_of_kind, queue_size};
use pool_shown::Machines;
use pool_tables::{Daemons, Mails, Orders};
use queue_tx::{JobKind, Key, Queue, Tx};
use receipt_roll::Mark;
use schedd_plan::{JobStatus, status_of};
use schedd_state::Schedd;
use startd_core::Startd;
use std::alloc::Global;
use std::collections::LinkedList;
use std::mem;

/// How many machines a pool may have.
pub const MAX_MACHINES: usize = 64;

/// How many slots a pool may have.
pub const MAX_SLOTS: usize = 256;

/// How many jobs a queue may have.
pub const MAX_JOBS: u64 = 10_000;

/// The last boot of a pool.
pub const LAST_POOL_BOOT: u32 = 2_147_483_647;

/// What a pool opens with.
pub struct Opening {
    /// Of each slot its number, its name and its ad count; by machine, from 0, and on each machine
    /// from 1.
    pub slots: SlotAdList,
    pub settings: Settings,
    /// The orders of the input.
    pub wishes: Seq<Wish>,
    pub allow: Allow,
    /// The queue that the log's transactions build.
    pub queue: Queue,
    /// How many transactions the log has.
    pub next_tx: u64,
    /// Of the log's roll.
    pub log_mark: Mark<Tx>,
    /// Of each machine's roll of ends.
    pub end_marks: Vec<Mark<Ending>>,
    /// How many pools were opened over the log, this one included.
    pub pool_boot: u32,
    /// What the secrets of claims are made of.
    pub secret_key: u64,
}

impl Drop for Opening {
    fn drop(self) {
        let Opening {
            slots: _slots,
            settings: _,
            wishes: _wishes,
            allow: _allow,
            queue: _queue,
            next_tx: _,
            log_mark: _log_mark,
            end_marks: _end_marks,
            pool_boot: _,
            secret_key: _,
        } = self;
    }
}

// ---- what a caller has to see to

/// How many machines slots are on that stand in order, by machine, from 0, and on each machine from
/// 1; none where they don't stand so. Computes in O(slots), without memory.
pub fn count_machines(slots: &[SlotAd]) -> Option<u32>
    ensures { result ≡ machines_of slots.now }
{
    let mut machines = 0u32;
    let mut last = 0u16;
    for slot in slots {
        if !is_next_slot(machines, last, slot.slot) {
            return None;
        }
        machines = u32::from(slot.slot.machine) + 1;
        last = slot.slot.slot;
    }
    Some(machines)
}

fn is_next_slot(machines: u32, slots: u16, id: SlotId) -> bool
    ensures { result ≡ is_next_slot machines slots id }
{
    let (machine, slot) = (u32::from(id.machine), u32::from(id.slot));
    (machine == machines && slot == 1) || (machine + 1 == machines && slot == u32::from(slots) + 1)
}

/// How many jobs a queue has. Computes in O(jobs times log jobs).
pub fn count_jobs(alloc: Global, queue: &Queue) -> Result<u64, Memory>
    ensures { IfOk result (IsJobCount queue.now) }
{
    let listed = list_jobs(alloc, queue)?;
    Ok(listed.len() as u64)
}

// ---- jobs

// The jobs of a queue, by kind.
fn list_jobs(alloc: Global, queue: &Queue) -> Result<LinkedList<JobId, Global>, Memory>
    ensures { IfOk result (AreListed queue.now) }
{
    let mut listed = LinkedList::new(alloc);
    push_kind(alloc, &mut listed, queue, JobKind::Idle)?;
    push_kind(alloc, &mut listed, queue, JobKind::Held)?;
    push_kind(alloc, &mut listed, queue, JobKind::Under)?;
    Ok(listed)
}

// The jobs of a kind come to the end of others.
fn push_kind(
    alloc: Global,
    listed: &mut LinkedList<JobId, Global>,
    queue: &Queue,
    kind: JobKind,
) -> Result<(), Memory>
    ensures { OnOk result (ArePushed kind queue.now listed.old listed.new) }
{
    let jobs = jobs_of_kind(alloc, queue, kind)?;
    push_jobs(listed, &jobs)
}

fn push_jobs(listed: &mut LinkedList<JobId, Global>, jobs: &[JobId]) -> Result<(), Memory>
    ensures { IfOk result (λ _. listed.new ≡ listed.old ++ jobs.now) }
{
    for job in jobs {
        listed.push_back(*job)?;
    }
    Ok(())
}

fn is_removed_at(queue: &Queue, job: JobId) -> bool
    ensures { result ≡ is_removed_at queue.now job }
{
    match queue.get(&Key::Proc(job)) {
        Some(ad) => is_removed(status_of(ad)),
        None => false,
    }
}

fn is_removed(status: JobStatus) -> bool
    ensures { result ≡ is_removed status }
{
    match status {
        JobStatus::Removed => true,
        _ => false,
    }
}

// The jobs under a claim that are to be removed.
fn removed_jobs(alloc: Global, queue: &Queue) -> Result<LinkedList<JobId, Global>, Memory>
    ensures { IfOk result (AreRemoved queue.now) }
{
    let under = jobs_of_kind(alloc, queue, JobKind::Under)?;
    let mut removed = LinkedList::new(alloc);
    push_removed(&mut removed, queue, &under)?;
    Ok(removed)
}

fn push_removed(
    removed: &mut LinkedList<JobId, Global>,
    queue: &Queue,
    jobs: &[JobId],
) -> Result<(), Memory>
    ensures { IfOk result
        (λ _. removed.new ≡ removed.old ++ filter (is_removed_at queue.now) jobs.now) }
{
    for job in jobs {
        push_where_removed(removed, queue, *job)?;
    }
    Ok(())
}

fn push_where_removed(
    removed: &mut LinkedList<JobId, Global>,
    queue: &Queue,
    job: JobId,
) -> Result<(), Memory>
    ensures { IfOk result (λ _. removed.new ≡ (if is_removed_at queue.now job
        then removed.old ++ job ∷ [] else removed.old)) }
{
    if is_removed_at(queue, job) {
        removed.push_back(job)?;
    }
    Ok(())
}

// ---- machines

// What all machines have at the opening.
#[derive(Clone, Copy)]
struct Machinery {
    settings: Settings,
    boot: u64,
    secret_key: u64,
}

fn new_startd(alloc: Global, machinery: Machinery, machine: u16) -> Startd
    ensures { result ≡ new_startd machinery machine }
{
    Startd::new(
        alloc,
        machine,
        machinery.boot,
        machinery.secret_key,
        machinery.settings,
    )
}

fn add_slot(alloc: Global, startd: &mut Startd, slot: &SlotAd) -> Result<(), Memory>
    ensures { IfOk result
        (λ _. startd.new ≡ with_slot slot.now.name slot.now.ad startd.old) }
{
    let name = slot.name.copy(alloc)?;
    let ad = slot.ad.copy(alloc)?;
    startd.add_slot(name, ad)
}

// One slot more, of the last startd or of the next one.
fn put_slot(
    alloc: Global,
    machinery: Machinery,
    startds: &mut Vec<Startd>,
    machine: u16,
    last: &mut Startd,
    slot: &SlotAd,
) -> Result<(), Memory>
    requires { last.old.machine.number ≡ machine }
    ensures startds { IfOk result (λ _. (rest : List SlotAd)
        → startds.new.items ++ startds_from machinery last.new rest
        ≡ startds.old.items ++ startds_from machinery last.old (slot.now ∷ rest)) }
    ensures machine { IfOk result (λ _. last.new.machine.number ≡ slot.now.slot.machine) }
{
    if slot.slot.machine == machine {
        return add_slot(alloc, last, slot);
    }
    let done = mem::replace(last, new_startd(alloc, machinery, slot.slot.machine));
    startds.push(done)?;
    add_slot(alloc, last, slot)
}

// The startds of slots that stand in order.
fn new_startds(alloc: Global, machinery: Machinery, slots: &[SlotAd]) -> Result<Vec<Startd>, Memory>
    ensures { IfOk result (λ startds. startds.items ≡ startds_of machinery slots.now) }
{
    let mut startds = Vec::new(alloc);
    let mut machine = 0u16;
    let mut last = new_startd(alloc, machinery, machine);
    for slot in slots {
        put_slot(alloc, machinery, &mut startds, machine, &mut last, slot)?;
        machine = slot.slot.machine;
    }
    startds.push(last)?;
    Ok(startds)
}

// How many machines startds are of.
fn machine_count(startds: &Vec<Startd>) -> Result<u16, Memory>
    ensures { IfOk result (λ machines. machines ≡ length startds.now.items) }
{
    match u16::try_from(startds.len()) {
        Ok(machines) => Ok(machines),
        Err(_) => Err(Memory),
    }
}

// ---- the parts

// The tables of a pool.
pub(crate) struct Tables {
    pub daemons: Daemons,
    pub mails: Mails,
    pub orders: Orders,
}

impl Drop for Tables {
    fn drop(self) {
        let Tables {
            daemons: _daemons,
            mails: _mails,
            orders: _orders,
        } = self;
    }
}

impl Tables {
    pub(crate) fn into_parts(self) -> (Daemons, Mails, Orders)
        ensures { result ≡ (self.daemons, self.mails, self.orders) }
    {
        let Tables {
            daemons,
            mails,
            orders,
        } = self;
        (daemons, mails, orders)
    }
}

fn new_tables(
    alloc: Global,
    machines: u16,
    boot: u64,
    allow: &Allow,
    wishes: &[Wish],
) -> Result<Tables, Memory>
    ensures daemons { IfOk result
        (λ t. t.daemons ≡ first_daemons machines boot allow.now.crashes) }
    ensures mails { IfOk result (λ t. HasNoMails machines allow.now.repeats t.mails) }
    ensures orders { IfOk result (λ t. t.orders ≡ map not_given wishes.now) }
{
    let daemons = Daemons::new(alloc, machines, boot, allow.crashes.as_slice())?;
    let mails = Mails::new(alloc, machines, allow.repeats.as_slice())?;
    let orders = Orders::new(alloc, wishes)?;
    Ok(Tables {
        daemons,
        mails,
        orders,
    })
}

// What a pool has of its queue.
struct QueueParts {
    schedd: Schedd,
    acked: LinkedList<JobId, Global>,
    ordered: LinkedList<JobId, Global>,
}

impl Drop for QueueParts {
    fn drop(self) {
        let QueueParts {
            schedd: _schedd,
            acked: _acked,
            ordered: _ordered,
        } = self;
    }
}

impl QueueParts {
    fn into_parts(self) -> (Schedd, LinkedList<JobId, Global>, LinkedList<JobId, Global>)
        ensures { result ≡ (self.schedd, self.acked, self.ordered) }
    {
        let QueueParts {
            schedd,
            acked,
            ordered,
        } = self;
        (schedd, acked, ordered)
    }
}

fn read_queue(alloc: Global, queue: &Queue, settings: Settings) -> Result<QueueParts, Memory>
    ensures schedd { IfOk result (λ p. IsOpened queue.now settings p.schedd) }
    ensures acked { IfOk result (λ p. AreListed queue.now p.acked) }
    ensures ordered { IfOk result (λ p. AreRemoved queue.now p.ordered) }
{
    let schedd = Schedd::new(alloc, queue, settings)?;
    let acked = list_jobs(alloc, queue)?;
    let ordered = removed_jobs(alloc, queue)?;
    Ok(QueueParts {
        schedd,
        acked,
        ordered,
    })
}

impl Opening {
    // The pool of these parts.
    fn join_parts(
        self,
        alloc: Global,
        startds: Vec<Startd>,
        tables: Tables,
        parts: QueueParts,
    ) -> PoolState
        ensures { IsJoined self startds.items tables parts result }
    {
        let Opening {
            slots: _slots,
            settings,
            wishes: _wishes,
            allow: _allow,
            queue,
            next_tx,
            log_mark,
            end_marks,
            pool_boot: _,
            secret_key: _,
        } = self;
        let (daemons, mails, orders) = tables.into_parts();
        let (schedd, acked, ordered) = parts.into_parts();
        let counts = Counts {
            jobs: acked.len() as u64,
            bytes: queue_size(&queue),
        };
        PoolState {
            daemons,
            mails,
            orders,
            machines: Machines::from_vec(startds),
            schedd,
            queue,
            pending: None,
            next_tx,
            finished: Finished::new(),
            acked,
            ordered,
            reports: LinkedList::new(alloc),
            log_mark,
            end_marks: Seq::from_vec(end_marks),
            settings,
            latest: 0,
            events: 0,
            closed: false,
            counts,
        }
    }
}

impl PoolState {
    /// A pool opens: its slots are in Owner/Idle without claims, its daemons are up, and no mail
    /// was sent. Computes in O(slots + machines * crashes + repeats * log repeats + orders + jobs *
    /// log jobs + size of the queue's ads).
    pub fn open(alloc: Global, opening: Opening) -> Result<PoolState, Memory>
        requires { CanOpen opening }
        ensures { IfOk result (IsOpenedBy opening) }
    {
        let boot = boot_number(opening.pool_boot, 0);
        let machinery = Machinery {
            settings: opening.settings,
            boot,
            secret_key: opening.secret_key,
        };
        let startds = new_startds(alloc, machinery, opening.slots.as_slice())?;
        let machines = machine_count(&startds)?;
        let wishes = opening.wishes.as_slice();
        let tables = new_tables(alloc, machines, boot, &opening.allow, wishes)?;
        let parts = read_queue(alloc, &opening.queue, opening.settings)?;
        Ok(opening.join_parts(alloc, startds, tables, parts))
    }
}
