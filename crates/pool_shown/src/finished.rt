// The jobs that have left the queue.

ghost use Rattle.std.specs.Prelude.{◌≡◌, ◌++◌, filter_map, find, IfOk, option_map};
ghost use Rattle.std.specs.Option.{option_copied};
ghost use Rattle.std.specs.List.Sorted.{IsStrictlySortedBy};
ghost use Rattle.std.specs.Map.{keys_of};
ghost use Rattle.queue_tx.specs.Keys.{is_above, key_cmp};
ghost use Rattle.pool_shown.specs.ShownJobs.{done_by, done_entry, one_entry};

use crate::cores::core_ad;
use ad_value::Memory;
use pool_parts::{Finished, FinishedJob};
use pool_view::{Entry, JobEntry, JobEntryList, State};
use queue_tx::Key;
use std::alloc::Global;
use std::ops::Bound;

// The next job after a key, or the first of all.
fn next_finished<'a>(
    finished: &'a Finished,
    last: Option<&Key>,
) -> Option<(&'a Key, &'a FinishedJob)>
    ensures next { option_map (λ e. (e.0.now, e.1.now)) result
        ≡ find (λ e. is_above (option_copied last.entry) e.0) finished.now }
    ensures ordered { IsStrictlySortedBy key_cmp (keys_of finished.now) }
{
    match last {
        Some(key) => finished.first_past(Bound::Excluded(key)),
        None => finished.first_past(Bound::Unbounded),
    }
}

/// Adds the jobs that have left the queue, in order.
pub(crate) fn push_finished(
    alloc: Global,
    entries: &mut JobEntryList,
    finished: &Finished,
) -> Result<(), Memory>
    ensures { IfOk result
        (λ _. entries.new ≡ entries.old ++ filter_map done_entry finished.now) }
{
    let mut last = None;
    'finished: while let Some((key, job)) = next_finished(finished, last) {
        push_done(alloc, entries, key, job)?;
        last = Some(key);
    }
    Ok(())
}

fn push_done(
    alloc: Global,
    entries: &mut JobEntryList,
    key: &Key,
    done: &FinishedJob,
) -> Result<(), Memory>
    ensures { IfOk result
        (λ _. entries.new ≡ entries.old ++ one_entry (done_by key.now done.now)) }
{
    let Key::Proc(job) = key else {
        return Ok(());
    };
    let core = core_ad(alloc, &done.ad)?;
    let state = State::Done(done.outcome);
    let entry = Entry { core, state };
    entries.push(JobEntry { job: *job, entry })?;
    Ok(())
}
