use ad_value::Memory;
use claim_id::{ClaimId, ClaimNo, JobId, RunNo, SlotId};
use pool_mail::{Mail, Match, Settings};
use queue_tx::Queue;
use schedd_core::{check, logged, receive, reopen, tick};
use schedd_plan::JobPlan;
use schedd_state::Schedd;
use std::alloc::Global;

/// When the schedd came back.
pub(crate) const BACK: u64 = 100_000;
// How long it is from one tick to the next, so that each of 8 runs has its turn.
const STEP: u64 = 38;

/// How long it is from one look at a job's periodic expressions to the next.
pub(crate) const BETWEEN_LOOKS: u64 = 300;

const SETTINGS: Settings = Settings {
    update_interval: 300,
    match_timeout: 120,
    claim_lease: 1_200,
    job_lease: 1_200,
    alive_interval: 300,
    periodic_interval: BETWEEN_LOOKS,
    retirement: 0,
    vacate: 600,
};

/// A schedd that has come back after a crash: the jobs of the first queue are left, those under a
/// claim that came since have their runs, whose leases were lengthened.
pub(crate) fn back_again(alloc: Global, before: &Queue, queue: &Queue) -> Result<Schedd, Memory> {
    let mut schedd = Schedd::new(alloc, before, SETTINGS)?;
    let _nothing = reopen(&mut schedd, alloc, queue, BACK)?;
    for _ in schedd.left().to_vec(alloc)?.len()..8 {
        tick_and_log(alloc, &mut schedd, queue, BACK)?;
    }
    Ok(schedd)
}

// A tick whose plan is logged; whether there was one.
fn tick_and_log(
    alloc: Global,
    schedd: &mut Schedd,
    queue: &Queue,
    reading: u64,
) -> Result<bool, Memory> {
    let step = tick(schedd, alloc, queue, reading)?;
    let planned = step.plan.is_some();
    let _mails = logged(schedd, alloc, queue)?;
    Ok(planned)
}

/// Asks so often whether a tick is due; how often one was.
pub(crate) fn due_often(schedd: &Schedd, queue: &Queue, times: u64) -> u64 {
    let mut due = 0u64;
    for _ in 0..times {
        if schedd.due(queue, BACK) {
            due = due.saturating_add(1);
        }
    }
    due
}

/// Asks so often at which job a look is due first; how often there was one.
pub(crate) fn first_often(schedd: &Schedd, queue: &Queue, reading: u64, times: u64) -> u64 {
    let mut found = 0u64;
    for _ in 0..times {
        if schedd.first_check(queue, reading).is_some() {
            found = found.saturating_add(1);
        }
    }
    found
}

/// A look at each job at which one is due, one after the other, of so many at most; how many were.
pub(crate) fn look_at_all(
    alloc: Global,
    schedd: &mut Schedd,
    queue: &Queue,
    reading: u64,
    most: u32,
) -> Result<u64, Memory> {
    let mut looks = 0u64;
    for _ in 0..most {
        let Some(job) = schedd.first_check(queue, reading) else {
            return Ok(looks);
        };
        let _step = check(schedd, alloc, queue, job, reading)?;
        let _mails = logged(schedd, alloc, queue)?;
        schedd.move_mark(queue);
        looks = looks.saturating_add(1);
    }
    Ok(looks)
}

/// So many ticks; how many of them planned something.
pub(crate) fn tick_often(
    alloc: Global,
    schedd: &mut Schedd,
    queue: &Queue,
    times: u64,
) -> Result<u64, Memory> {
    let mut planned = 0u64;
    let mut reading = BACK;
    for _ in 0..times {
        reading = reading.saturating_add(STEP);
        if tick_and_log(alloc, schedd, queue, reading)? {
            planned = planned.saturating_add(1);
        }
    }
    Ok(planned)
}

const CLAIM: ClaimId = ClaimId {
    no: ClaimNo {
        slot: SlotId {
            machine: 0,
            slot: 1,
        },
        boot: 4_294_967_296,
        seq: 1_000,
    },
    secret: 255,
};

const LONE: JobId = JobId {
    cluster: 3,
    proc: 0,
};

/// A claim is given for the job of a queue of its own.
pub(crate) fn give_claim(alloc: Global, schedd: &mut Schedd, lone: &Queue) -> Result<(), Memory> {
    let matched = Mail::Matched(Match {
        job: LONE,
        claim: CLAIM,
        by_priority: false,
    });
    let _ask = receive(schedd, alloc, lone, &matched, BACK)?;
    let granted = Mail::Granted {
        claim: CLAIM,
        job: LONE,
    };
    let _nothing = receive(schedd, alloc, lone, &granted, BACK)?;
    Ok(())
}

/// A tick in which the claim gets a job, or is given up; the number of its run.
pub(crate) fn seek(
    alloc: Global,
    schedd: &mut Schedd,
    queue: &Queue,
) -> Result<Option<u64>, Memory> {
    let step = tick(schedd, alloc, queue, BACK)?;
    match step.plan {
        Some(JobPlan::Grant { number, .. }) => Ok(Some(number)),
        _ => Ok(None),
    }
}

/// The claim's run is over, and so is the claim.
pub(crate) fn end_claim(
    alloc: Global,
    schedd: &mut Schedd,
    queue: &Queue,
    number: u64,
) -> Result<(), Memory> {
    let gone = Mail::Gone {
        run: RunNo {
            claim: CLAIM.no,
            number,
        },
        kept: false,
    };
    let _plan = receive(schedd, alloc, queue, &gone, BACK)?;
    let _nothing = logged(schedd, alloc, queue)?;
    Ok(())
}
