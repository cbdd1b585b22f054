ghost use Rattle.std.specs.Prelude.{◌≡◌, ◌+◌, true, false, IfOk};
ghost use Rattle.ad_eval.specs.Match.{matches, requirements_hold};
ghost use Rattle.ad_eval.specs.Judgement.{JudgesPair};

use crate::evaluation::holds;
use crate::steps::Steps;
use ad_tree::Ad;
use ad_value::names::matching::REQUIREMENTS;
use ad_value::{Copied, Memory};
use std::alloc::Global;
use std::marker::Model;
use std::sync::ledger::Ledger;

/// A job and a slot that were judged to match at a moment: only such a pair has one. Contracts see
/// a `Judgement`, whose `fits` is the proof.
pub struct Judged {
    job: Ad,
    slot: Ad,
    at: u64,
    ghost fits: { matches job slot at ≡ true },
}

impl Drop for Judged {
    fn drop(self) {
        let Judged {
            job: _job,
            slot: _slot,
            at: _,
        } = self;
    }
}

impl Model for Judged {
    ghost use Rattle.ad_eval.specs.Judgement.{Judgement};
    ghost use Rattle.ad_eval.specs.JudgementCode.{judgement_code};

    ghost Value = { Judgement };

    ghost coded = { judgement_code };

    ghost view = { λ j. record { job = j.job; slot = j.slot; at = j.at; fits = j.fits } };
}

impl Judged {
    /// The job's ad. Computes in O(1).
    pub fn job(&self) -> &Ad
        ensures { result.now ≡ self.now.job }
    {
        &self.job
    }

    /// The slot's ad. Computes in O(1).
    pub fn slot(&self) -> &Ad
        ensures { result.now ≡ self.now.slot }
    {
        &self.slot
    }

    /// The moment, in seconds since 1970-01-01 00:00:00 UTC. Computes in O(1).
    pub fn at(&self) -> u64
        ensures { result ≡ self.now.at }
    {
        self.at
    }
}

impl Copied for Judged {
    fn copy(&self, alloc: Global) -> Result<Judged, Memory> {
        Ok(Judged {
            job: self.job.copy(alloc)?,
            slot: self.slot.copy(alloc)?,
            at: self.at,
        })
    }
}

fn requirements_hold(alloc: Global, my: &Ad, target: &Ad, now: u64) -> Result<bool, Memory>
    ensures { IfOk result (λ h. h ≡ requirements_hold my.now target.now now) }
{
    holds(alloc, my, Some(target), REQUIREMENTS, now)
}

/// Whether a job and a slot match: whether the Requirements of both hold with the other as target
/// (Raman, Livny and Solomon, "Matchmaking", 1998), at the reading `now`, in seconds since
/// 1970-01-01 00:00:00 UTC. A call is one step, and no pair is tested but by it. Computes in two
/// evaluations at most.
pub fn matches<L: Ledger>(
    alloc: Global,
    job: &Ad,
    slot: &Ad,
    now: u64,
    steps: &mut Steps<L>,
) -> Result<bool, Memory>
    ensures matches { IfOk result (λ m. m ≡ matches job.now slot.now now) }
    ensures step { steps.new ≡ steps.old + 1 }
{
    steps.tick();
    if !requirements_hold(alloc, job, slot, now)? {
        return Ok(false);
    }
    requirements_hold(alloc, slot, job, now)
}

/// Copies of a job and a slot where they match, as `matches` says. A call is one step. Computes as
/// `matches`, and in O(size of both ads) where they match.
pub fn judge<L: Ledger>(
    alloc: Global,
    job: &Ad,
    slot: &Ad,
    now: u64,
    steps: &mut Steps<L>,
) -> Result<Option<Judged>, Memory>
    ensures judged { IfOk result (JudgesPair job.now slot.now now) }
    ensures step { steps.new ≡ steps.old + 1 }
{
    if !matches(alloc, job, slot, now, steps)? {
        return Ok(None);
    }
    Ok(Some(Judged {
        job: job.copy(alloc)?,
        slot: slot.copy(alloc)?,
        at: now,
    }))
}
