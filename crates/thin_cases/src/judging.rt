ghost use Rattle.std.specs.Prelude.{◌≡◌, ◌<◌};

use crate::ads::job_ad;
use crate::runs::READING;
use ad_eval::{Judged, NoMatch, Steps, judge, none_match};
use ad_tree::{Ad, AdList};
use ad_value::Memory;
use claim_id::JobId;
use std::alloc::Global;
use std::marker::Brand;
use std::sync::ledger::{Blank, Ledger};
use thin_pool::Pool;

/// The match of a job and the first slot; none where there is no such job.
pub(crate) fn judge_own(alloc: Global, pool: &Pool, job: JobId) -> Result<Option<Judged>, Memory> {
    match pool.job(job) {
        Some(job) => judge_first(alloc, pool, &job.ad),
        None => Ok(None),
    }
}

/// The match of an ad that no job has and the first slot.
pub(crate) fn judge_other(alloc: Global, pool: &Pool) -> Result<Option<Judged>, Memory> {
    let ad = job_ad(alloc, "/bin/false", true)?;
    judge_first(alloc, pool, &ad)
}

fn judge_first(alloc: Global, pool: &Pool, ad: &Ad) -> Result<Option<Judged>, Memory> {
    match pool.slots().as_slice().first() {
        Some(slot) => judge_pair(alloc, ad, &slot.ad),
        None => Ok(None),
    }
}

// A pair's step is counted for itself.
fn judge_pair(alloc: Global, job: &Ad, slot: &Ad) -> Result<Option<Judged>, Memory> {
    judge_counted::<Brand>(alloc, job, slot, Blank::new(1))
}

fn judge_counted<L: Ledger>(
    alloc: Global,
    job: &Ad,
    slot: &Ad,
    blank: Blank,
) -> Result<Option<Judged>, Memory>
    requires name { blank.name ≡ L.name }
    requires parts { blank.parts ≡ L.parts }
    requires some { 0 < blank.parts }
{
    let mut steps = Steps::<L>::new(blank);
    judge(alloc, job, slot, READING, &mut steps)
}

/// That no idle job matches a slot at a reading, where that is so.
pub(crate) fn no_match(
    alloc: Global,
    pool: &Pool,
    reading: u64,
) -> Result<Option<NoMatch>, Memory> {
    let jobs = pool.idle_ads(alloc)?;
    no_match_of(alloc, pool, &jobs, reading)
}

fn no_match_of(
    alloc: Global,
    pool: &Pool,
    jobs: &AdList,
    reading: u64,
) -> Result<Option<NoMatch>, Memory> {
    let slots = pool.slot_ads(alloc)?;
    match none_match(alloc, jobs, &slots, reading) {
        Ok(Ok(none)) => Ok(Some(none)),
        Ok(Err(_)) => Ok(None),
        Err(Memory) => Err(Memory),
    }
}
