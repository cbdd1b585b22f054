// Which job's periodic expressions are looked at next.

ghost use Rattle.std.specs.Prelude.{◌≡◌, IfSome, Some};
ghost use Rattle.std.specs.Option.{option_copied};
ghost use Rattle.ordered_map.specs.Trees.{is_past};
ghost use Rattle.queue_tx.specs.Jobs.{FirstKey};
ghost use Rattle.queue_tx.specs.Keys.{key_cmp, is_above};
ghost use Rattle.queue_tx.specs.Periodic.{is_periodic};
ghost use Rattle.queue_tx.specs.Queues.{ad_at};
ghost use Rattle.schedd_state.specs.DueChecks.{job_of_key, FirstAgain, FirstDueKey, IsDueKey, IsFresh, IsPassedTo, NextChecked, OldestPeriodic, Passes};

use crate::looks::Looks;
use claim_id::JobId;
use queue_tx::{Key, Queue, has_periodic};
use schedd_plan::is_after;
use std::ops::Bound;

/// The job under a key at which a look is due first. Where all jobs with a periodic expression up
/// to a key were looked at, it is found without passing over those.
pub(crate) fn first_due(
    looks: &Looks,
    queue: &Queue,
    passed: Option<Key>,
    seconds: u64,
    reading: u64,
) -> Option<Key>
    ensures due { IfSome result (λ key. IsDueKey queue.now looks.now seconds reading key) }
    ensures first { IsPassedTo queue.now looks.now passed
        → FirstDueKey queue.now looks.now seconds reading result }
{
    match first_fresh(looks, queue, above(&passed)) {
        Some(key) => Some(*key),
        None => first_again(looks, queue, seconds, reading),
    }
}

// The bound above which all keys are that come after one, or all keys.
fn above(key: &Option<Key>) -> Bound<&Key>
    ensures { (k : Key) → is_past key_cmp result k ≡ is_above key.now k }
{
    match key {
        None => Bound::Unbounded,
        Some(key) => Bound::Excluded(key),
    }
}

// The first job past a bound with a periodic expression that was not looked at.
#[tactic(auto, using(crate::proofs::Fresh::reached_first, crate::proofs::Fresh::is_fresh))]
fn first_fresh<'a>(looks: &Looks, queue: &'a Queue, start: Bound<&Key>) -> Option<&'a Key>
    ensures { FirstKey (IsFresh queue.now looks.now) start.entry (option_copied result) }
{
    let mut key = queue.first_periodic(start)?;
    'looked: while looks.has(key) {
        key = queue.first_periodic(Bound::Excluded(key))?;
    }
    Some(key)
}

// The job that was looked at the longest ago, where a look is due again.
fn first_again(looks: &Looks, queue: &Queue, seconds: u64, reading: u64) -> Option<Key>
    ensures { FirstAgain queue.now looks.now seconds reading result }
{
    let (key, at) = oldest_periodic(looks, queue)?;
    if is_after(at, seconds, reading) {
        Some(key)
    } else {
        None
    }
}

// Of the jobs with a periodic expression the one that was looked at the longest ago, and when.
#[tactic(auto, using(crate::proofs::Oldest::look_first))]
fn oldest_periodic(looks: &Looks, queue: &Queue) -> Option<(Key, u64)>
    ensures { OldestPeriodic queue.now looks.now result }
{
    let mut look = looks.first(Bound::Unbounded)?;
    'plain: while !is_periodic(queue, &look.key) {
        look = looks.first(Bound::Excluded(&look))?;
    }
    Some((look.key, look.at))
}

// Whether a job with a periodic expression stands under a key.
fn is_periodic(queue: &Queue, key: &Key) -> bool
    ensures { result ≡ is_periodic key.now (ad_at key.now queue.now) }
{
    match key {
        Key::Header => false,
        Key::Proc(_) => match queue.get(key) {
            Some(ad) => has_periodic(ad),
            None => false,
        },
    }
}

/// The job under a key; the header is none.
pub(crate) fn job_of_key(key: Option<Key>) -> Option<JobId>
    ensures { result ≡ job_of_key key }
{
    match key {
        None => None,
        Some(Key::Header) => None,
        Some(Key::Proc(job)) => Some(job),
    }
}

/// How far all jobs with a periodic expression were looked at, where they were up to a key.
#[tactic(auto, using(crate::proofs::Passing::still_passed, crate::proofs::Passing::fewer_left))]
pub(crate) fn passed_on(looks: &Looks, queue: &Queue, passed: Option<Key>) -> Option<Key>
    ensures { Passes queue.now looks.now passed result }
{
    let mut far = passed;
    'passing: while let Some(key) = next_checked(looks, queue, far) {
        far = Some(key);
    }
    far
}

// The first job with a periodic expression above a key, if it was looked at.
fn next_checked(looks: &Looks, queue: &Queue, passed: Option<Key>) -> Option<Key>
    ensures { NextChecked queue.now looks.now passed result }
{
    let key = queue.first_periodic(above(&passed))?;
    if looks.has(key) { Some(*key) } else { None }
}
