// The jobs that are under a run of this boot of the pool.

ghost use Rattle.std.specs.Prelude.{◌≡◌, ◌<◌, ◌≤◌, length, IfOk, IfSome, OnErr};
ghost use Rattle.schedd_plan.specs.KeptRuns.{is_run, is_of_job, is_under, run_of, place_of_run, place_of_job, has_job_under, is_before, is_not_before, first_not_before, runs_without, with_run, with_alive, place_for};

use ad_value::Memory;
use claim_id::{ClaimId, ClaimNo, JobId, RunNo};

/// A job that is under a run of this boot of the pool.
#[derive(Clone, Copy)]
pub struct KeptRun {
    pub job: JobId,
    pub claim: ClaimId,
    pub number: u64,
    /// The reading of the tick that granted it, of the latest sign of life, or of the latest tick
    /// that lengthened its lease.
    pub alive: u64,
    /// Whether it was found when the schedd came back, and its lease wasn't lengthened since.
    pub found: bool,
}

impl KeptRun {
    /// The run's number. Computes in O(1).
    pub fn run(&self) -> RunNo
        ensures { result ≡ run_of self.now }
    {
        RunNo {
            claim: self.claim.no,
            number: self.number,
        }
    }
}

fn is_run(kept: &KeptRun, run: RunNo) -> bool
    ensures { result ≡ is_run run kept.now }
{
    kept.claim.no == run.claim && kept.number == run.number
}

fn is_of_job(kept: &KeptRun, job: JobId) -> bool
    ensures { result ≡ is_of_job job kept.now }
{
    kept.job == job
}

fn is_under(kept: &KeptRun, no: ClaimNo) -> bool
    ensures { result ≡ is_under no kept.now }
{
    kept.claim.no == no
}

/// The place of a run, by its number. Computes in O(runs), without memory.
pub fn place_of_run(runs: &[KeptRun], run: RunNo) -> Option<usize>
    ensures { result ≡ place_of_run run runs.now }
{
    runs.iter().position(|kept| is_run(kept, run))
}

/// The place of a job's run. Computes in O(runs), without memory.
pub fn place_of_job(runs: &[KeptRun], job: JobId) -> Option<usize>
    ensures { result ≡ place_of_job job runs.now }
{
    runs.iter().position(|kept| is_of_job(kept, job))
}

/// Whether a job is under the claim. Computes in O(runs), without memory.
pub fn has_job_under(runs: &[KeptRun], no: ClaimNo) -> bool
    ensures { result ≡ has_job_under no runs.now }
{
    runs.iter().any(|kept| is_under(kept, no))
}

/// Whether a job comes before another. Computes in O(1).
pub fn is_before(job: JobId, other: JobId) -> bool
    ensures { result ≡ is_before job other }
{
    job.cluster < other.cluster || (job.cluster == other.cluster && job.proc < other.proc)
}

fn is_not_before(kept: &KeptRun, job: JobId) -> bool
    ensures { result ≡ is_not_before job kept.now }
{
    !is_before(kept.job, job)
}

// The place of the first run of a job that isn't before this one.
fn first_not_before(runs: &[KeptRun], job: JobId) -> Option<usize>
    ensures place { result ≡ first_not_before job runs.now }
    ensures within { IfSome result (λ place. place < length runs.now) }
{
    runs.iter().position(|kept| is_not_before(kept, job))
}

// Where a job's run is put among those of other jobs.
fn place_for(runs: &[KeptRun], job: JobId) -> usize
    ensures place { result ≡ place_for job runs.now }
    ensures within { result ≤ length runs.now }
{
    match first_not_before(runs, job) {
        Some(place) => place,
        None => runs.len(),
    }
}

/// One more run, in order of the jobs. An error leaves the list as it was. Computes in O(runs).
pub fn add_run(runs: &mut Vec<KeptRun>, run: KeptRun) -> Result<(), Memory>
    ensures added { IfOk result (λ _. runs.new.items ≡ with_run run runs.old.items) }
    ensures kept { OnErr result (runs.new.items ≡ runs.old.items) }
{
    let place = place_for(runs, run.job);
    runs.insert(place, run)?;
    Ok(())
}

/// The run of a place goes. Computes in O(runs).
pub fn remove_run(runs: &mut Vec<KeptRun>, place: usize)
    ensures { runs.new.items ≡ runs_without place runs.old.items }
{
    if place < runs.len() {
        let _gone = runs.remove(place);
    }
}

/// The run of a place was alive at a reading; `found` says whether it still counts as found.
/// Computes in O(1).
pub fn set_alive(runs: &mut Vec<KeptRun>, place: usize, alive: u64, found: bool)
    ensures { runs.new.items ≡ with_alive place alive found runs.old.items }
{
    if let Some(kept) = runs.get_mut(place) {
        kept.alive = alive;
        kept.found = found;
    }
}
