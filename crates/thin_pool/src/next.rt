ghost use Rattle.std.specs.Prelude.{◌≡◌, ◌<◌, false, None, IfOk, IfSome, MatchOption};
ghost use Rattle.ad_eval.specs.FirstMatch.{IsFirstMatch};
ghost use Rattle.thin_pool.specs.declared.event.Event.TheVariants.{Start};
ghost use Rattle.thin_pool.specs.Reactions.{refusal, idle_ads, slot_ads};
ghost use Rattle.thin_pool.specs.Resting.{IsResting, event_of};
ghost use Rattle.thin_pool.specs.Pairs.{fits_any, IsFirstFit, IsPairAt, HasNoPairAt};

use crate::pool::Pool;
use crate::slot::{PoolSlot, slot_at_place};
use ad_eval::{FoundMatch, Judged, NoMatch, Steps, judge, none_match};
use ad_tree::Ad;
use ad_value::Memory;
use claim_id::{JobId, SlotId};
use std::alloc::Global;
use std::marker::Brand;
use std::sync::ledger::{Blank, Ledger};

/// A job that is to start on a slot, which it was judged to match.
#[derive(Drop)]
pub struct Pair {
    pub job: JobId,
    pub slot: SlotId,
    pub judged: Judged,
}

/// What a pool in which nothing runs does next.
#[derive(Drop)]
pub enum Next {
    Close { none: NoMatch },
    Start { pair: Pair },
}

impl Pool {
    /// What the pool does at a reading: it closes where no idle job matches a slot, and else starts
    /// the first that does. Computes in O(jobs + slots), and in O(idle jobs * slots) evaluations.
    pub fn next(&self, alloc: Global, reading: u64) -> Result<Next, Memory>
        requires { IsResting self.now }
        ensures { IfOk result (λ next. refusal self.now (event_of reading next) ≡ None) }
    {
        let jobs = self.idle_ads(alloc)?;
        let slots = self.slot_ads(alloc)?;
        match none_match(alloc, &jobs, &slots, reading)? {
            Ok(none) => Ok(Next::Close { none }),
            Err(found) => Ok(Next::Start {
                pair: self.pair_of(found, reading),
            }),
        }
    }

    /// The job that was submitted at a place, from 0, with the first slot that it matches at a
    /// reading, where it is idle and matches one; nothing runs. Computes in O(1) where it is not
    /// idle, and else in O(slots) evaluations and O(size of the two ads).
    pub fn pair_at(&self, alloc: Global, place: usize, reading: u64) -> Result<Option<Pair>, Memory>
        requires { IsResting self.now }
        ensures first { IfOk result (λ o. MatchOption o
            (HasNoPairAt self.now place reading) (IsPairAt self.now place reading)) }
        ensures accepted { IfOk result (λ o. IfSome o (λ pair.
            refusal self.now (Start pair.job pair.slot pair.judged reading) ≡ None)) }
    {
        self.soundness();
        let Some((job, ad)) = self.idle_at(place) else {
            return Ok(None);
        };
        let slots = self.slots().as_slice();
        match first_fit::<Brand>(alloc, ad, slots, reading, Blank::new(1))? {
            None => Ok(None),
            Some((slot, judged)) => Ok(Some(Pair { job, slot, judged })),
        }
    }

    // The idle job and the slot of a match that was found.
    fn pair_of(&self, found: FoundMatch, reading: u64) -> Pair
        requires resting { IsResting self.now }
        requires first { IsFirstMatch
            (idle_ads self.now.jobs) (slot_ads self.now.slots) reading found }
        ensures { refusal self.now (Start result.job result.slot result.judged reading) ≡ None }
    {
        self.soundness();
        let (job, _ad) = self.idle_job(found.job as usize).unwrap();
        let slot = slot_at_place(self.slots().as_slice(), found.slot as usize).unwrap();
        Pair {
            job,
            slot: slot.slot,
            judged: found.judged,
        }
    }
}

// The number of the first slot that a job of that ad matches, with the match. The tests are counted
// for themselves.
fn first_fit<L: Ledger>(
    alloc: Global,
    ad: &Ad,
    slots: &[PoolSlot],
    now: u64,
    blank: Blank,
) -> Result<Option<(SlotId, Judged)>, Memory>
    requires name { blank.name ≡ L.name }
    requires parts { blank.parts ≡ L.parts }
    requires some { 0 < blank.parts }
    ensures { IfOk result (λ o. MatchOption o
        (fits_any slots.now ad.now now ≡ false)
        (λ fit. IsFirstFit slots.now ad.now now fit.0 fit.1)) }
{
    let mut steps = Steps::<L>::new(blank);
    for slot in slots {
        if let Some(judged) = judge(alloc, ad, &slot.ad, now, &mut steps)? {
            return Ok(Some((slot.slot, judged)));
        }
    }
    Ok(None)
}
