// A run ends.

ghost use Rattle.std.specs.Prelude.{◌≡◌, Some, None, IfOk};
ghost use Rattle.std.specs.Option.{option_copied};
ghost use Rattle.startd_slot.specs.EndingTable.{how_of, how_signalled, mark_in, after_last_run, after_run, after_ending};

use crate::ask::granted;
use crate::held::{Mark, Rival, Running, copied_rival};
use crate::reaction::{Reaction, says, says_both};
use crate::slot::{SlotState, is_busy};
use ad_value::{Copied, Memory};
use claim_id::Cue;
use pool_mail::{End, Ending, How, Mail};
use std::alloc::Global;

/// How a run ended whose program ended so.
fn how_of(end: End, mark: Option<Mark>) -> How
    ensures { result ≡ how_of end mark }
{
    match end {
        End::Exited(status) => How::Exited(status),
        End::NotStarted => How::NotStarted,
        End::Signalled(number) => how_signalled(number, mark),
    }
}

fn how_signalled(number: i32, mark: Option<Mark>) -> How
    ensures { result ≡ how_signalled number mark }
{
    match mark {
        None => How::Signalled(number),
        Some(Mark::Stopped) => How::Stopped,
        Some(Mark::Evicted) => How::Evicted,
    }
}

/// What the end of the run that is on a slot, at a reading, makes of it. Computes in O(1).
pub fn react_to_end(
    alloc: Global,
    state: &SlotState,
    ending: &Ending,
    reading: u64,
) -> Result<Reaction, Memory>
    ensures { IfOk result (λ done. done ≡ after_ending ending.now reading state.now) }
{
    let how = how_of(ending.end, mark_of(state.running()));
    let state = state.copy(alloc)?;
    after_run(alloc, *ending, how, reading, state)
}

fn mark_of(running: Option<&Running>) -> Option<Mark>
    ensures { result ≡ mark_in (option_copied running.entry) }
{
    match running {
        Some(running) => running.mark,
        None => None,
    }
}

fn after_run(
    alloc: Global,
    ending: Ending,
    how: How,
    reading: u64,
    state: SlotState,
) -> Result<Reaction, Memory>
    ensures { IfOk result (λ done. done ≡ after_run ending how reading state) }
{
    let run = ending.run;
    let told = Mail::Ended { run, how };
    let is_busy = is_busy(state.pair);
    let mut state = state;
    state.end_run(run, how, reading);
    if is_busy {
        state.enter(Cue::Rest, reading);
        return says(alloc, state, told);
    }
    state.end_claim();
    let rival = copied_rival(alloc, &state.rival)?;
    after_last_run(alloc, rival, told, reading, state)
}

// The slot's claim has ended.
fn after_last_run(
    alloc: Global,
    rival: Option<Rival>,
    told: Mail,
    reading: u64,
    state: SlotState,
) -> Result<Reaction, Memory>
    ensures { IfOk result (λ done. done ≡ after_last_run rival told reading state) }
{
    match rival {
        Some(rival) => hand_over(alloc, rival, told, reading, state),
        None => finish(alloc, told, reading, state),
    }
}

fn finish(alloc: Global, told: Mail, reading: u64, state: SlotState) -> Result<Reaction, Memory>
    ensures { IfOk result (λ done. done ≡ after_last_run None told reading state) }
{
    let mut state = state;
    state.enter(Cue::Finish, reading);
    says(alloc, state, told)
}

// The claim that waited for the slot is held.
fn hand_over(
    alloc: Global,
    rival: Rival,
    told: Mail,
    reading: u64,
    state: SlotState,
) -> Result<Reaction, Memory>
    ensures { IfOk result (λ done. done ≡ after_last_run (Some rival) told reading state) }
{
    let (claim, job, user, rank) = rival.into_parts();
    let mut state = state;
    state.rival = None;
    state.hold(claim, user, rank, reading);
    state.enter(Cue::Handover, reading);
    says_both(alloc, state, told, granted(claim, job))
}
