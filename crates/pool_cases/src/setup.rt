// What a pool opens with.

ghost use Rattle.std.specs.Prelude.{◌≡◌};

use crate::outcome::memory;
use ad_value::{Seq, Text};
use cases::{Case, CaseError};
use claim_id::{Pair, SlotId, Wish};
use daemon_texts::Fields;
use pool_mail::{Ending, Settings, SlotAd, SlotAdList};
use pool_outer::Daemon;
use pool_parts::Allow;
use pool_state::Opening;
use queue_record::{ReadLog, Reader, RecordError};
use queue_tx::{Queue, Tx};
use receipt_roll::Mark;
use std::alloc::Global;

/// What a pool opens with, as far as it was said. After an error it is not to be used.
pub(crate) struct SetUp {
    line: u64,
    pool_boot: u32,
    secret_key: u64,
    settings: Settings,
    slots: SlotAdList,
    queue: Queue,
    next_tx: u64,
    wishes: Seq<Wish>,
    crashes: Seq<Daemon>,
    repeats: Seq<u64>,
}

impl Drop for SetUp {
    fn drop(self) {
        let SetUp {
            line: _,
            pool_boot: _,
            secret_key: _,
            settings: _,
            slots: _slots,
            queue: _queue,
            next_tx: _,
            wishes: _wishes,
            crashes: _crashes,
            repeats: _repeats,
        } = self;
    }
}

impl SetUp {
    /// `new-pool POOL_BOOT KEY UPDATE_INTERVAL MATCH_TIMEOUT CLAIM_LEASE JOB_LEASE ALIVE_INTERVAL
    /// PERIODIC_EXPR_INTERVAL MAXJOBRETIREMENTTIME MACHINEMAXVACATETIME`. Computes in O(bytes).
    pub(crate) fn of(alloc: Global, case: Case<'_>) -> Result<SetUp, CaseError> {
        let mut fields = Fields::of(alloc, case)?;
        new_pool(alloc, case, &mut fields)
    }

    /// One of the lines that say more of what a pool opens with. Computes in O(bytes); `queue` in
    /// the time of its transactions too, `crash-line` and `repeat-line` in O(items).
    pub(crate) fn go_on(&mut self, alloc: Global, case: Case<'_>) -> Result<(), CaseError> {
        let mut fields = Fields::of(alloc, case)?;
        self.add(alloc, case, &mut fields)?;
        fields.end()
    }

    fn add(
        &mut self,
        alloc: Global,
        case: Case<'_>,
        fields: &mut Fields<'_>,
    ) -> Result<(), CaseError> {
        match case.kind {
            "slot" => self.add_slot(alloc, fields),
            "queue" => self.set_queue(alloc, fields),
            "wish" => self.add_wish(fields),
            "crash-line" => self.add_crashes(fields),
            "repeat-line" => self.add_repeats(fields),
            _ => Err(CaseError::Kind { line: case.line }),
        }
    }

    /// The case's fault of a pool that can't open so. Computes in O(1).
    pub(crate) fn form(&self) -> CaseError {
        CaseError::Form { line: self.line }
    }

    /// The number of the next transaction. Computes in O(1).
    pub(crate) fn next_tx(&self) -> u64 {
        self.next_tx
    }

    /// How many machines the slots are of. Computes in O(1).
    pub(crate) fn machines(&self) -> usize {
        match self.slots.as_slice().last() {
            Some(slot) => usize::from(slot.slot.machine).saturating_add(1),
            None => 0,
        }
    }

    /// What the pool opens with, by the marks of its rolls. Computes in O(1).
    pub(crate) fn into_opening(self, log_mark: Mark<Tx>, end_marks: Vec<Mark<Ending>>) -> Opening
        ensures log { result.log_mark ≡ log_mark }
        ensures ends { result.end_marks.items ≡ end_marks.items }
    {
        let SetUp {
            line: _,
            pool_boot,
            secret_key,
            settings,
            slots,
            queue,
            next_tx,
            wishes,
            crashes,
            repeats,
        } = self;
        Opening {
            slots,
            settings,
            wishes,
            allow: Allow { crashes, repeats },
            queue,
            next_tx,
            log_mark,
            end_marks,
            pool_boot,
            secret_key,
        }
    }

    fn add_slot(&mut self, alloc: Global, fields: &mut Fields<'_>) -> Result<(), CaseError> {
        let slot = slot_of(alloc, fields)?;
        memory(self.slots.push(slot))
    }

    fn set_queue(&mut self, alloc: Global, fields: &mut Fields<'_>) -> Result<(), CaseError> {
        self.next_tx = fields.natural()?;
        let bytes = fields.bytes(alloc)?;
        match queue_of(alloc, &bytes) {
            Ok(queue) => self.queue = queue,
            Err(RecordError::Memory) => return Err(CaseError::Memory),
            Err(_) => return Err(fields.form()),
        }
        Ok(())
    }

    fn add_wish(&mut self, fields: &mut Fields<'_>) -> Result<(), CaseError> {
        let wish = Wish {
            at: fields.natural()?,
            verb: fields.verb()?,
            job: fields.job()?,
        };
        memory(self.wishes.push(wish))
    }

    fn add_crashes(&mut self, fields: &mut Fields<'_>) -> Result<(), CaseError> {
        let who = fields.daemon()?;
        let times = fields.natural()?;
        for _ in 0..times {
            memory(self.crashes.push(who))?;
        }
        Ok(())
    }

    fn add_repeats(&mut self, fields: &mut Fields<'_>) -> Result<(), CaseError> {
        let first = fields.natural()?;
        let last = fields.natural()?;
        let times = fields.natural()?;
        for number in first..=last {
            self.add_repeat(number, times)?;
        }
        Ok(())
    }

    fn add_repeat(&mut self, number: u64, times: u64) -> Result<(), CaseError> {
        for _ in 0..times {
            memory(self.repeats.push(number))?;
        }
        Ok(())
    }
}

fn new_pool(alloc: Global, case: Case<'_>, fields: &mut Fields<'_>) -> Result<SetUp, CaseError> {
    let Ok(pool_boot) = u32::try_from(fields.natural()?) else {
        return Err(fields.form());
    };
    let secret_key = fields.natural()?;
    let settings = settings_of(fields)?;
    fields.end()?;
    Ok(SetUp {
        line: case.line,
        pool_boot,
        secret_key,
        settings,
        slots: SlotAdList::new(alloc),
        queue: Queue::new(),
        next_tx: 0,
        wishes: Seq::new(alloc),
        crashes: Seq::new(alloc),
        repeats: Seq::new(alloc),
    })
}

// The queue of a log of these bytes.
fn queue_of(alloc: Global, bytes: &[u8]) -> Result<Queue, RecordError> {
    let mut reader = Reader::new(alloc);
    match reader.feed(bytes) {
        Ok(()) => {
            let ReadLog { queue, .. } = reader.end();
            Ok(queue)
        }
        Err(error) => Err(error),
    }
}

fn settings_of(fields: &mut Fields<'_>) -> Result<Settings, CaseError> {
    Ok(Settings {
        update_interval: fields.interval()?,
        match_timeout: fields.interval()?,
        claim_lease: fields.interval()?,
        job_lease: fields.interval()?,
        alive_interval: fields.interval()?,
        periodic_interval: fields.interval()?,
        retirement: fields.seconds()?,
        vacate: fields.seconds()?,
    })
}

fn slot_of(alloc: Global, fields: &mut Fields<'_>) -> Result<SlotAd, CaseError> {
    let slot = fields.slot()?;
    let name = fields.text(alloc)?;
    slot_with(alloc, fields, slot, name)
}

fn slot_with(
    alloc: Global,
    fields: &mut Fields<'_>,
    slot: SlotId,
    name: Text,
) -> Result<SlotAd, CaseError> {
    let ad = fields.ad(alloc)?;
    Ok(SlotAd {
        slot,
        name,
        claim: None,
        pair: Pair::OwnerIdle,
        user: None,
        rank: 0,
        at: 0,
        ad,
    })
}
