// What the pool makes of submissions, of matches and of its close.

ghost use Rattle.std.specs.Prelude.{◌≡◌, true, Err, IfErr, IfOk, OnErr, OnOk};
ghost use Rattle.pool_core.specs.Made.{IsMade};
ghost use Rattle.pool_core.specs.Pushed.{IsPushed};
ghost use Rattle.pool_rules.specs.Deeds.{at_rest};
ghost use Rattle.pool_rules.specs.Happens.{AreLive, ArePassed, IsSubmitted, submission_of};
ghost use Rattle.pool_rules.specs.Limits.{IsLimit, IsTooLarge, IsWithin};
ghost use Rattle.pool_rules.specs.Judging.{IsLive};
ghost use Rattle.pool_tables.specs.declared.refusal.StepError.TheVariants as error;

use ad_eval::Judged;
use ad_tree::AdList;
use ad_value::Memory;
use pool_mail::{Match, MatchList};
use pool_parts::{Stepped, Unfinished, submission_tx};
use pool_rules::is_live;
use pool_state::PoolState;
use pool_steps::{Begun, limited, nothing_asked, pass_matches};
use pool_tables::StepError;
use queue_tx::Key;
use std::alloc::Global;

/// Jobs come into the queue as the next cluster, once that is logged.
pub(crate) fn submit(
    alloc: Global,
    state: &mut PoolState,
    jobs: &AdList,
) -> Result<Stepped, StepError>
    ensures submitted { IfOk result
        (IsSubmitted (at_rest state.old) jobs.now (at_rest state.new)) }
    ensures within { OnOk result (IsWithin state.new) }
    ensures large { result ≡ Err error.Bytes
        → IsTooLarge (IsSubmitted (at_rest state.old) jobs.now) }
    ensures refused { IfErr result IsLimit }
    ensures kept { OnErr result (at_rest state.new ≡ at_rest state.old) }
{
    let cluster = state.cluster();
    let _bytes = limited(state.counts.bytes)?;
    let begun = begin_submission(alloc, state, cluster, jobs)?;
    Ok(begun.put(&mut state.pending))
}

// The transaction of a submission.
fn begin_submission(
    alloc: Global,
    state: &PoolState,
    cluster: u32,
    jobs: &AdList,
) -> Result<Begun, Memory>
    ensures { IfOk result (λ begun. begun ≡ submission_of cluster jobs.now state.now) }
{
    let Ok(count) = u32::try_from(jobs.len()) else {
        return Err(Memory);
    };
    let header = state.queue.get(&Key::Header).is_some();
    let tx = submission_tx(alloc, header, cluster, jobs.as_slice())?;
    let what = Unfinished::Submission { cluster, count };
    Begun::new(alloc, state.next_tx, tx, what)
}

/// The live ones of matches are told to the schedd and to the startds of their slots.
pub(crate) fn match_all(
    alloc: Global,
    state: &mut PoolState,
    list: &[Match],
    judged: &[Judged],
    reading: u64,
) -> Result<Stepped, StepError>
    ensures passed { IfOk result
        (ArePassed (at_rest state.old) list.now judged.now reading (at_rest state.new)) }
    ensures within { OnOk result (IsWithin state.new) }
    ensures large { result ≡ Err error.Bytes
        → IsTooLarge (ArePassed (at_rest state.old) list.now judged.now reading) }
    ensures refused { IfErr result IsLimit }
    ensures kept { OnErr result (at_rest state.new ≡ at_rest state.old) }
{
    let live = live_matches(alloc, state, list, judged, reading)?;
    pass_matches(state, live.as_slice())
}

// The matches that are live.
fn live_matches(
    alloc: Global,
    state: &PoolState,
    list: &[Match],
    judged: &[Judged],
    reading: u64,
) -> Result<MatchList, Memory>
    ensures { IfOk result (AreLive state.now list.now judged.now reading) }
{
    let mut live = MatchList::new(alloc);
    let mut left = judged;
    for found in list {
        let Some((first, rest)) = left.split_first() else {
            return Ok(live);
        };
        push_live(state, &mut live, found, first, reading)?;
        left = rest;
    }
    Ok(live)
}

// A match comes to the end of others where it is live.
fn push_live(
    state: &PoolState,
    live: &mut MatchList,
    found: &Match,
    judged: &Judged,
    reading: u64,
) -> Result<(), Memory>
    ensures { OnOk result (IsPushed (IsLive state.now found.now judged.now reading) found.now
        live.old live.new) }
{
    if is_live(state, found, judged, reading) {
        live.push(*found)?;
    }
    Ok(())
}

/// The pool is closed.
pub(crate) fn close(state: &mut PoolState) -> Result<Stepped, StepError>
    ensures closed { IfOk result
        (IsMade (record (at_rest state.old) { closed = true }) (at_rest state.new)) }
    ensures within { OnOk result (IsWithin state.new) }
    ensures large { result ≡ Err error.Bytes
        → IsTooLarge (IsMade (record (at_rest state.old) { closed = true })) }
    ensures refused { IfErr result IsLimit }
    ensures kept { OnErr result (at_rest state.new ≡ at_rest state.old) }
{
    let _bytes = limited(state.counts.bytes)?;
    state.closed = true;
    Ok(nothing_asked())
}
