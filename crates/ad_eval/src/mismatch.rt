ghost use Rattle.std.specs.Prelude.{◌≡◌, ◌<◌, false, IfOk, MatchOption, MatchResult};
ghost use Rattle.ad_eval.specs.Match.{matches_any, any_match};
ghost use Rattle.ad_eval.specs.Judgement.{IsMismatchOf};
ghost use Rattle.ad_eval.specs.FirstMatch.{IsFirstMatch, IsFirstSlot};

use crate::judging::{Judged, judge};
use crate::steps::Steps;
use ad_tree::{Ad, AdList};
use ad_value::{Copied, Memory};
use std::alloc::Global;
use std::marker::{Brand, Model};
use std::sync::ledger::{Blank, Ledger};

/// Jobs and slots of which no pair matches at a moment: only such lists have one. Contracts see a
/// `Mismatch`, whose `unfit` is the proof.
pub struct NoMatch {
    jobs: AdList,
    slots: AdList,
    at: u64,
    ghost unfit: { any_match jobs slots at ≡ false },
}

impl Drop for NoMatch {
    fn drop(self) {
        let NoMatch {
            jobs: _jobs,
            slots: _slots,
            at: _,
        } = self;
    }
}

impl Model for NoMatch {
    ghost use Rattle.ad_eval.specs.Judgement.{Mismatch};
    ghost use Rattle.ad_eval.specs.JudgementCode.{mismatch_code};

    ghost Value = { Mismatch };

    ghost coded = { mismatch_code };

    ghost view = { λ m. record { jobs = m.jobs; slots = m.slots; at = m.at; unfit = m.unfit } };
}

impl NoMatch {
    /// Copies of the jobs' ads. Computes in O(1).
    pub fn jobs(&self) -> &AdList
        ensures { result.now ≡ self.now.jobs }
    {
        &self.jobs
    }

    /// Copies of the slots' ads. Computes in O(1).
    pub fn slots(&self) -> &AdList
        ensures { result.now ≡ self.now.slots }
    {
        &self.slots
    }

    /// The moment, in seconds since 1970-01-01 00:00:00 UTC. Computes in O(1).
    pub fn at(&self) -> u64
        ensures { result ≡ self.now.at }
    {
        self.at
    }
}

impl Copied for NoMatch {
    fn copy(&self, alloc: Global) -> Result<NoMatch, Memory> {
        Ok(NoMatch {
            jobs: self.jobs.copy(alloc)?,
            slots: self.slots.copy(alloc)?,
            at: self.at,
        })
    }
}

/// The least pair that matches: the places of the job and of the slot in their lists, from 0, and
/// the match of the two.
#[derive(Drop)]
pub struct FoundMatch {
    pub job: u64,
    pub slot: u64,
    pub judged: Judged,
}

// The first slot that the job at a place matches.
fn match_of_job<L: Ledger>(
    alloc: Global,
    place: usize,
    job: &Ad,
    slots: &[Ad],
    now: u64,
    steps: &mut Steps<L>,
) -> Result<Option<FoundMatch>, Memory>
    ensures { IfOk result (λ o. MatchOption o
        (matches_any slots.now job.now now ≡ false)
        (IsFirstSlot slots.now job.now place now)) }
{
    for (k, slot) in slots.iter().enumerate() {
        if let Some(judged) = judge(alloc, job, slot, now, steps)? {
            return Ok(Some(FoundMatch {
                job: place as u64,
                slot: k as u64,
                judged,
            }));
        }
    }
    Ok(None)
}

// The first match, by job, then by slot. Its tests are counted for themselves.
fn first_match<L: Ledger>(
    alloc: Global,
    jobs: &[Ad],
    slots: &[Ad],
    now: u64,
    blank: Blank,
) -> Result<Option<FoundMatch>, Memory>
    requires name { blank.name ≡ L.name }
    requires parts { blank.parts ≡ L.parts }
    requires some { 0 < blank.parts }
    ensures { IfOk result (λ o. MatchOption o
        (any_match jobs.now slots.now now ≡ false)
        (IsFirstMatch jobs.now slots.now now)) }
{
    let mut steps = Steps::<L>::new(blank);
    for (i, job) in jobs.iter().enumerate() {
        if let Some(found) = match_of_job(alloc, i, job, slots, now, &mut steps)? {
            return Ok(Some(found));
        }
    }
    Ok(None)
}

/// Copies of the jobs and the slots where no pair matches at the reading `now`, in seconds since
/// 1970-01-01 00:00:00 UTC, else the least pair that does, by job, then by slot, with its match.
/// Computes in O(jobs × slots) pairs of evaluations, and copies all ads where no pair matches, else
/// the two that do.
pub fn none_match(
    alloc: Global,
    jobs: &AdList,
    slots: &AdList,
    now: u64,
) -> Result<Result<NoMatch, FoundMatch>, Memory>
    ensures { IfOk result (λ r. MatchResult r
        (IsMismatchOf jobs.now slots.now now)
        (IsFirstMatch jobs.now slots.now now)) }
{
    let (jobs_slice, slots_slice) = (jobs.as_slice(), slots.as_slice());
    let found = first_match::<Brand>(alloc, jobs_slice, slots_slice, now, Blank::new(1))?;
    if let Some(found) = found {
        return Ok(Err(found));
    }
    Ok(Ok(NoMatch {
        jobs: jobs.copy(alloc)?,
        slots: slots.copy(alloc)?,
        at: now,
    }))
}
