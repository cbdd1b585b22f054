// What an accepted event makes of a pool.

ghost use Rattle.std.specs.Prelude.{◌≡◌, ◌≢◌, ◌+◌, Err, IfErr, IfOk, None, OnErr, OnOk};
ghost use Rattle.pool_core.specs.Refused.{IsRefused};
ghost use Rattle.pool_core.specs.ShortPlans.{HasShortPlan};
ghost use Rattle.pool_parts.specs.Sizes.{event_count};
ghost use Rattle.pool_rules.specs.Deeds.{at_rest};
ghost use Rattle.pool_rules.specs.Happens.{Happens, Reacts, counts_brought, latest_after};
ghost use Rattle.pool_rules.specs.Limits.{IsLimit, IsTooLarge, IsWithin};
ghost use Rattle.pool_rules.specs.Refusals.{IsRefusal};
ghost use Rattle.pool_tables.specs.declared.refusal.StepError.TheVariants as error;

use crate::daemons::{crash, receive, reopen, tick};
use crate::events::{close, match_all, submit};
use ad_value::Memory;
use pool_parts::{Event, Pending, Stepped, Unfinished, event_size, go_over_numbers};
use pool_rules::refusal_of;
use pool_state::PoolState;
use pool_steps::{end_run, give_order};
use pool_tables::StepError;
use schedd_steps::{check, take_logged};
use std::alloc::Global;

/// An event happens, where nothing refuses it.
pub(crate) fn step(
    alloc: Global,
    state: &mut PoolState,
    event: &Event,
) -> Result<Stepped, StepError>
    ensures accepted { OnOk result (IsRefusal event.now (at_rest state.old) None) }
    ensures reacts { IfOk result
        (λ r. Reacts (at_rest state.old) event.now r (at_rest state.new)) }
    ensures within { OnOk result (IsWithin state.new) }
    ensures short { OnOk result (HasShortPlan state.new) }
    ensures refused { IfErr result
        (λ e. e ≢ error.Memory → IsRefused event.now (at_rest state.old) e) }
    ensures same { OnErr result (at_rest state.new ≡ at_rest state.old) }
{
    if let Some(error) = refusal_of(state, alloc, event)? {
        return Err(error);
    }
    react(alloc, state, event)
}

// An event that nothing refuses but Bytes.
fn react(alloc: Global, state: &mut PoolState, event: &Event) -> Result<Stepped, StepError>
    ensures reacts { IfOk result
        (λ r. Reacts (at_rest state.old) event.now r (at_rest state.new)) }
    ensures within { OnOk result (IsWithin state.new) }
    ensures short { OnOk result (HasShortPlan state.new) }
    ensures large { result ≡ Err error.Bytes
        → IsTooLarge (λ new r. Reacts (at_rest state.old) event.now r new) }
    ensures refused { IfErr result IsLimit }
    ensures same { OnErr result (at_rest state.new ≡ at_rest state.old) }
{
    let Some(events) = state.events.checked_add(1) else {
        return Err(StepError::Memory);
    };
    let latest = latest_after(event.reading(), state.latest);
    match happen_brought(alloc, state, event) {
        Ok(stepped) => {
            state.events = events;
            state.latest = latest;
            go_over_plan(state);
            Ok(stepped)
        }
        Err(error) => Err(error),
    }
}

// The numbers of a plan that is unfinished stand in its transaction too, and so are short.
fn go_over_plan(state: &PoolState)
    ensures { HasShortPlan state.now }
{
    if let Some(
        Pending {
            what: Unfinished::Plan { plan },
            tx,
            ..
        },
    ) = &state.pending
    {
        go_over_numbers(plan, tx);
    }
}

fn latest_after(reading: Option<u64>, latest: u64) -> u64
    ensures { result ≡ latest_after reading latest }
{
    match reading {
        Some(reading) => latest.max(reading),
        None => latest,
    }
}

// An event happens, and the bytes of what it brings are counted; but not that there was an event.
fn happen_brought(alloc: Global, state: &mut PoolState, event: &Event) -> Result<Stepped, StepError>
    ensures happens { IfOk result
        (Happens event.now (counts_brought event.now (at_rest state.old)) (at_rest state.new)) }
    ensures within { OnOk result (IsWithin state.new) }
    ensures large { result ≡ Err error.Bytes
        → IsTooLarge (Happens event.now (counts_brought event.now (at_rest state.old))) }
    ensures refused { IfErr result IsLimit }
    ensures same { OnErr result (at_rest state.new ≡ at_rest state.old) }
{
    let before = state.counts.bytes;
    state.counts.bytes = add_brought(before, event)?;
    match happen(alloc, state, event) {
        Ok(stepped) => Ok(stepped),
        Err(error) => {
            state.counts.bytes = before;
            Err(error)
        }
    }
}

// So many bytes, and those of what an event brings. Memory where that is no number of 64 bits.
fn add_brought(bytes: u64, event: &Event) -> Result<u64, Memory>
    ensures { IfOk result (λ after. after ≡ bytes + event_count event.now) }
{
    let size = event_size(event);
    if size == u64::MAX {
        return Err(Memory);
    }
    match bytes.checked_add(size) {
        Some(after) => Ok(after),
        None => Err(Memory),
    }
}

// An event happens, but for what is counted of it.
#[tactic(auto, unfolding(pool_rules::specs::Happens::Happens))]
fn happen(alloc: Global, state: &mut PoolState, event: &Event) -> Result<Stepped, StepError>
    ensures happens { IfOk result (Happens event.now (at_rest state.old) (at_rest state.new)) }
    ensures within { OnOk result (IsWithin state.new) }
    ensures large { result ≡ Err error.Bytes
        → IsTooLarge (Happens event.now (at_rest state.old)) }
    ensures refused { IfErr result IsLimit }
    ensures kept { OnErr result (at_rest state.new ≡ at_rest state.old) }
{
    match event {
        Event::Submit { jobs, .. } => submit(alloc, state, jobs),
        Event::Order { verb, job, reading } => give_order(state, *verb, *job, *reading),
        Event::Receive {
            who,
            index,
            reading,
            judged,
            ..
        } => receive(alloc, state, *who, *index, judged.as_ref(), *reading),
        Event::Tick { who, reading, .. } => tick(alloc, state, *who, *reading),
        Event::Check { job, reading, .. } => check(alloc, state, *job, *reading),
        Event::Logged { .. } => take_logged(alloc, state),
        Event::Ended {
            machine,
            receipt,
            reading,
            ..
        } => end_run(alloc, state, *machine, receipt.item(), *reading),
        Event::Crash { who } => crash(state, *who),
        Event::Reopen {
            who,
            kept,
            reading,
            ..
        } => reopen(alloc, state, *who, kept.is_some(), *reading),
        Event::Matches {
            list,
            judged,
            reading,
        } => match_all(alloc, state, list.as_slice(), judged.as_slice(), *reading),
        Event::Close { .. } => close(state),
    }
}
