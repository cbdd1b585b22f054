// The ads of a load's jobs.

ghost use Rattle.std.specs.Prelude.{◌≡◌, ◌<◌, ◌≤◌, ◌^◌, IfOk};
ghost use Rattle.ad_value.specs.Content.{text};
ghost use Rattle.ad_parse.specs.ValueText.{HasReadableLiteral};
ghost use Rattle.ad_rows.specs.Submitted.{AreSubmitted};
ghost use Rattle.script_plan.specs.Loads.{load_ad, load_ads, memory_of, next_number};

use ad_rows::{Given, ad_of};
use ad_tree::{Ad, AdList};
use ad_value::Memory;
use ad_value::names::job::{
    ARGS, CLUSTER_ID, CMD, ERR, IN, IWD, JOB_PRIO, JOB_STATUS, JOB_UNIVERSE, OUT, OWNER, PROC_ID,
    Q_DATE, REQUEST_CPUS, REQUEST_DISK, REQUEST_MEMORY,
};
use ad_value::names::matching::{RANK, REQUIREMENTS};
use claim_id::JobId;
use pool_outer::LAST_READING;
use std::alloc::Global;

/// The ads of a load's jobs, which an owner submits at a reading as a cluster. Each job runs
/// `/bin/true` and asks for from 1 to 256 MiB of memory, as the load's number goes on from job to
/// job: it is multiplied by 1103515245, 12345 is added, and the remainder by 2147483648 is taken.
/// Computes in O(jobs).
pub fn load(
    alloc: Global,
    number: u32,
    jobs: u32,
    cluster: u32,
    owner: &str,
    now: u64,
) -> Result<AdList, Memory>
    requires { now ≤ LAST_READING }
    ensures ads { IfOk result (λ ads. ads ≡ load_ads number cluster owner.now now jobs) }
    ensures submitted { HasReadableLiteral (text owner.now)
        → IfOk result (AreSubmitted cluster 0) }
{
    let mut ads = AdList::new(alloc);
    let mut number = u64::from(number);
    for proc in 0..jobs {
        number = next_number(number);
        let job = JobId { cluster, proc };
        let ad = load_ad(alloc, job, owner, now, memory_of(number))?;
        ads.push(ad)?;
    }
    Ok(ads)
}

// The number that follows a load's number.
fn next_number(number: u64) -> u64
    requires { number < 2 ^ 32 }
    ensures next { result ≡ next_number number }
    ensures within { result < 2 ^ 32 }
{
    (number * 1_103_515_245 + 12_345) % 2_147_483_648
}

// How many MiB a job asks for.
fn memory_of(number: u64) -> u64
    ensures memory { result ≡ memory_of number }
    ensures within { result < 2 ^ 63 }
{
    1 + number / 65_536 % 256
}

// The ad of a job of a load.
fn load_ad(alloc: Global, job: JobId, owner: &str, now: u64, memory: u64) -> Result<Ad, Memory>
    requires in_range { now ≤ LAST_READING }
    requires small { memory < 2 ^ 63 }
    ensures { IfOk result (λ ad. ad ≡ load_ad job owner.now now memory) }
{
    let rows = [
        (CLUSTER_ID, Given::Integer(u64::from(job.cluster))),
        (PROC_ID, Given::Integer(u64::from(job.proc))),
        (OWNER, Given::Text(owner)),
        (Q_DATE, Given::Integer(now)),
        (JOB_UNIVERSE, Given::Integer(5)),
        (JOB_STATUS, Given::Integer(1)),
        (CMD, Given::Text("/bin/true")),
        (ARGS, Given::Text("")),
        (IWD, Given::Text("")),
        (IN, Given::Text("")),
        (OUT, Given::Text("")),
        (ERR, Given::Text("")),
        (JOB_PRIO, Given::Integer(0)),
        (REQUIREMENTS, Given::Enough),
        (RANK, Given::Integer(0)),
        (REQUEST_CPUS, Given::Integer(1)),
        (REQUEST_MEMORY, Given::Integer(memory)),
        (REQUEST_DISK, Given::Integer(1024)),
    ];
    ad_of(alloc, &rows)
}
