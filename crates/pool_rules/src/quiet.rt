// Whether nothing is left to do.

ghost use Rattle.std.specs.Prelude.{◌≡◌, ◌↔◌, IfOk, IsTrue};
ghost use Rattle.std.specs.Option.{option_copied};
ghost use Rattle.pool_rules.specs.Judging.{IsOfAll};
ghost use Rattle.pool_rules.specs.Refusals.{IsCloseRefusal, IsIdleRefusal, IsUnquietRefusal, claim_left, down_left, moved, not_quiet, order_left, pending_left, under_left, unquiet_refusal};

use crate::asked::are_asked;
use crate::judging::FIRST_SLOT;
use ad_eval::NoMatch;
use ad_value::Memory;
use claim_id::{JobId, SlotId};
use pool_outer::Daemon;
use pool_parts::{Pending, jobs_of_kind, next_job};
use pool_state::PoolState;
use pool_tables::{StepError, Unquiet};
use queue_tx::JobKind;
use std::alloc::Global;

fn moved(asked: u64, length: u64) -> Option<StepError>
    ensures { result ≡ moved asked length }
{
    if asked == length {
        None
    } else {
        Some(StepError::Moved { asked, length })
    }
}

fn not_quiet(what: Option<Unquiet>) -> Option<StepError>
    ensures { result ≡ not_quiet what }
{
    let what = what?;
    Some(StepError::NotQuiet { what })
}

fn down_left(who: Option<Daemon>) -> Option<Unquiet>
    ensures { result ≡ down_left who }
{
    let who = who?;
    Some(Unquiet::Down(who))
}

fn claim_left(slot: Option<SlotId>) -> Option<Unquiet>
    ensures { result ≡ claim_left slot }
{
    let slot = slot?;
    Some(Unquiet::Claim(slot))
}

fn under_left(job: Option<JobId>) -> Option<Unquiet>
    ensures { result ≡ under_left job }
{
    let job = job?;
    Some(Unquiet::Under(job))
}

fn pending_left(pending: Option<&Pending>) -> Option<Unquiet>
    ensures { result ≡ pending_left (option_copied pending.entry) }
{
    let pending = pending?;
    Some(Unquiet::Pending(pending.number))
}

fn order_left(place: Option<usize>) -> Option<Unquiet>
    ensures { result ≡ order_left place }
{
    let place = place?;
    Some(Unquiet::Order(place as u64))
}

/// Why the pool isn't closed.
pub(crate) fn close_refusal(
    state: &PoolState,
    alloc: Global,
    length: u64,
    reading: u64,
    none: &NoMatch,
) -> Result<Option<StepError>, Memory>
    ensures { IfOk result (IsCloseRefusal length reading none.now state.now) }
{
    let idle = jobs_of_kind(alloc, &state.queue, JobKind::Idle)?;
    Ok(idle_refusal(state, &idle, length, reading, none))
}

// By the idle jobs.
fn idle_refusal(
    state: &PoolState,
    idle: &[JobId],
    length: u64,
    reading: u64,
    none: &NoMatch,
) -> Option<StepError>
    ensures { IsIdleRefusal idle.now length reading none.now state.now result }
{
    if !is_of_all(state, idle, none, reading) {
        return Some(StepError::AdMoved { slot: FIRST_SLOT });
    }
    if let Some(error) = moved(length, state.events) {
        return Some(error);
    }
    unquiet_refusal(state)
}

// Whether a mismatch is of the idle jobs and the slots, as they are.
fn is_of_all(state: &PoolState, idle: &[JobId], none: &NoMatch, reading: u64) -> bool
    ensures { IsTrue result ↔ IsOfAll state.now idle.now none.now reading }
{
    are_asked(&state.queue, idle, none.jobs().as_slice())
        && state.machines.are_slot_ads(none.slots().as_slice())
        && none.at() == reading
}

fn unquiet_refusal(state: &PoolState) -> Option<StepError>
    ensures { IsUnquietRefusal state.now result }
{
    let under = next_job(&state.queue, JobKind::Under, None);
    first_unquiet(state, under)
}

fn first_unquiet(state: &PoolState, under: Option<JobId>) -> Option<StepError>
    ensures { result ≡ unquiet_refusal under state.now }
{
    if let Some(error) = not_quiet(down_left(state.daemons.first_down())) {
        return Some(error);
    }
    if let Some(error) = not_quiet(claim_left(state.machines.first_claimed())) {
        return Some(error);
    }
    if let Some(error) = not_quiet(under_left(under)) {
        return Some(error);
    }
    if let Some(error) = not_quiet(pending_left(state.pending.as_ref())) {
        return Some(error);
    }
    not_quiet(order_left(state.orders.first_open(&state.mails)))
}
