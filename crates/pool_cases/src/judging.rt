// Matches and mismatches that are handed in with events.

ghost use Rattle.std.specs.Prelude.{◌≡◌, ◌<◌};

use ad_eval::{Judged, NoMatch, Steps, judge, none_match};
use ad_tree::{Ad, AdList};
use ad_value::{Copied, Memory};
use std::alloc::Global;
use std::marker::Brand;
use std::sync::ledger::{Blank, Ledger};

/// What is handed in of a job's ad and a slot's: their match, or that they don't match.
pub(crate) struct Evidence {
    judged: Option<Judged>,
    none: Option<NoMatch>,
}

impl Drop for Evidence {
    fn drop(self) {
        let Evidence {
            judged: _judged,
            none: _none,
        } = self;
    }
}

impl Evidence {
    /// Nothing is handed in. Computes in O(1).
    pub(crate) fn nothing() -> Evidence {
        Evidence {
            judged: None,
            none: None,
        }
    }

    /// Its match, and that there is none. Computes in O(1).
    pub(crate) fn into_parts(self) -> (Option<Judged>, Option<NoMatch>) {
        let Evidence { judged, none } = self;
        (judged, none)
    }
}

/// The match of a job and a slot at a reading. Its step is counted for itself. Computes as `judge`.
pub(crate) fn judge_pair(
    alloc: Global,
    job: &Ad,
    slot: &Ad,
    reading: u64,
) -> Result<Option<Judged>, Memory> {
    judge_counted::<Brand>(alloc, job, slot, reading, Blank::new(1))
}

fn judge_counted<L: Ledger>(
    alloc: Global,
    job: &Ad,
    slot: &Ad,
    reading: u64,
    blank: Blank,
) -> Result<Option<Judged>, Memory>
    requires name { blank.name ≡ L.name }
    requires parts { blank.parts ≡ L.parts }
    requires some { 0 < blank.parts }
{
    let mut steps = Steps::<L>::new(blank);
    judge(alloc, job, slot, reading, &mut steps)
}

/// What a job and a slot at a reading give: their match, or that they don't match. Computes as
/// `judge` and `none_match`.
pub(crate) fn evidence_of(
    alloc: Global,
    job: &Ad,
    slot: &Ad,
    reading: u64,
) -> Result<Evidence, Memory> {
    match judge_pair(alloc, job, slot, reading)? {
        Some(judged) => Ok(Evidence {
            judged: Some(judged),
            none: None,
        }),
        None => mismatch_of(alloc, job, slot, reading),
    }
}

fn mismatch_of(alloc: Global, job: &Ad, slot: &Ad, reading: u64) -> Result<Evidence, Memory> {
    let jobs = one_ad(alloc, job)?;
    mismatch_with(alloc, &jobs, slot, reading)
}

fn mismatch_with(
    alloc: Global,
    jobs: &AdList,
    slot: &Ad,
    reading: u64,
) -> Result<Evidence, Memory> {
    let slots = one_ad(alloc, slot)?;
    mismatch_between(alloc, jobs, &slots, reading)
}

fn mismatch_between(
    alloc: Global,
    jobs: &AdList,
    slots: &AdList,
    reading: u64,
) -> Result<Evidence, Memory> {
    match none_match(alloc, jobs, slots, reading)? {
        Ok(none) => Ok(Evidence {
            judged: None,
            none: Some(none),
        }),
        Err(_found) => Ok(Evidence::nothing()),
    }
}

fn one_ad(alloc: Global, ad: &Ad) -> Result<AdList, Memory> {
    let mut ads = AdList::new(alloc);
    ads.push(ad.copy(alloc)?)?;
    Ok(ads)
}
