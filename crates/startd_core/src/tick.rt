// What comes with time.

ghost use Rattle.std.specs.Prelude.{◌≡◌, true, IfOk, OnErr, if◌then◌else◌};
ghost use Rattle.ad_value.specs.Content.{content};
ghost use Rattle.startd_core.specs.TickTable.{is_after, lets_in, is_start_on, is_unheard, is_lease_past, tick_row, after_tick_row, is_act, is_kill, is_update_due, looks_at_start, slot_row};
ghost use Rattle.startd_core.specs.declared.tick.TickRow.{TickRow};
ghost use Rattle.startd_core.specs.declared.tick.TickRow.TheVariants as rows;

use ad_eval::eval;
use ad_value::names::slot::START;
use ad_value::{Memory, Value};
use claim_id::{Cue, Pair};
use pool_mail::Settings;
use startd_slot::{Slot, SlotState};
use std::alloc::Global;

/// Whether a time has come: so many seconds after a reading.
pub(crate) fn is_after(since: u64, seconds: u64, reading: u64) -> bool
    ensures { result ≡ is_after since seconds reading }
{
    u128::from(since) + u128::from(seconds) <= u128::from(reading)
}

// Whether the slot's Start, by its own ad, lets jobs in: it does unless it is FALSE or 0.
fn is_start_on(alloc: Global, slot: &Slot, reading: u64) -> Result<bool, Memory>
    ensures { IfOk result (λ on. on ≡ is_start_on slot.now.ad reading) }
{
    let value = eval(alloc, &slot.ad, None, START, reading)?;
    Ok(lets_in(&value))
}

fn lets_in(value: &Value) -> bool
    ensures { result ≡ lets_in (content value.now) }
{
    match value {
        Value::Bool(on) => *on,
        Value::Int(number) => *number != 0,
        _ => true,
    }
}

/// What a tick makes of a slot.
#[derive(Clone, Copy)]
pub(crate) enum TickRow {
    StartOn,
    StartOff,
    Lapse,
    Finish,
    KillPast,
    Vacate,
    KillVacating,
    Nothing,
}

/// What a tick makes of a slot at a reading. It looks at Start in some pairs alone, and runs out of
/// memory only there.
pub(crate) fn slot_row(
    alloc: Global,
    slot: &Slot,
    settings: &Settings,
    reading: u64,
) -> Result<TickRow, Memory>
    ensures row { IfOk result (λ row. row ≡ slot_row slot.now settings.now reading) }
    ensures refused { OnErr result (looks_at_start slot.now.state.pair ≡ true) }
{
    if !looks_at_start(slot.state.pair) {
        return Ok(tick_row(&slot.state, settings, true, reading));
    }
    let start = is_start_on(alloc, slot, reading)?;
    Ok(tick_row(&slot.state, settings, start, reading))
}

// Whether a tick looks at the Start of a slot in that pair.
fn looks_at_start(pair: Pair) -> bool
    ensures { result ≡ looks_at_start pair }
{
    match pair {
        Pair::OwnerIdle | Pair::UnclaimedIdle | Pair::MatchedIdle => true,
        Pair::ClaimedIdle
        | Pair::ClaimedBusy
        | Pair::ClaimedRetiring
        | Pair::PreemptingVacating
        | Pair::PreemptingKilling => false,
    }
}

// The first cue that time brings; `start` says whether Start lets jobs in.
fn tick_row(state: &SlotState, settings: &Settings, start: bool, reading: u64) -> TickRow
    ensures { result ≡ tick_row state.now settings.now start reading }
{
    match state.pair {
        Pair::OwnerIdle => when(start, TickRow::StartOn),
        Pair::UnclaimedIdle => when(!start, TickRow::StartOff),
        Pair::MatchedIdle => {
            if !start {
                TickRow::StartOff
            } else {
                let waited = is_after(state.entered, settings.match_timeout, reading);
                when(waited, TickRow::Lapse)
            }
        }
        Pair::ClaimedIdle => when(is_unheard(state, settings, reading), TickRow::Finish),
        Pair::ClaimedBusy => when(is_lease_past(state, reading), TickRow::KillPast),
        Pair::ClaimedRetiring => {
            if is_lease_past(state, reading) {
                TickRow::KillPast
            } else {
                let retired = is_after(state.entered, settings.retirement, reading);
                when(retired, TickRow::Vacate)
            }
        }
        Pair::PreemptingVacating => {
            if is_lease_past(state, reading) {
                TickRow::KillPast
            } else {
                let vacated = is_after(state.entered, settings.vacate, reading);
                when(vacated, TickRow::KillVacating)
            }
        }
        Pair::PreemptingKilling => TickRow::Nothing,
    }
}

fn when(holds: bool, row: TickRow) -> TickRow
    ensures { result ≡ (if holds then row else rows.Nothing) }
{
    if holds { row } else { TickRow::Nothing }
}

fn is_unheard(state: &SlotState, settings: &Settings, reading: u64) -> bool
    ensures { result ≡ is_unheard state.now.held settings.now.claim_lease reading }
{
    match &state.held {
        Some(held) => is_after(held.heard, settings.claim_lease, reading),
        None => false,
    }
}

fn is_lease_past(state: &SlotState, reading: u64) -> bool
    ensures { result ≡ is_lease_past state.now reading }
{
    match state.running() {
        Some(running) => running.until <= reading,
        None => false,
    }
}

/// Whether an Update is due for itself.
pub(crate) fn is_update_due(state: &SlotState, settings: &Settings, reading: u64) -> bool
    ensures { result ≡ is_update_due state.now settings.now reading }
{
    match state.told {
        Some(told) => is_after(told, settings.update_interval, reading),
        None => false,
    }
}

/// The slot after a row.
pub(crate) fn apply_row(state: &mut SlotState, row: TickRow, reading: u64)
    ensures { state.new ≡ after_tick_row row reading state.old }
{
    match row {
        TickRow::StartOn => state.enter(Cue::StartOn, reading),
        TickRow::StartOff => state.enter(Cue::StartOff, reading),
        TickRow::Lapse => state.enter(Cue::Lapse, reading),
        TickRow::Finish => {
            state.end_claim();
            state.enter(Cue::Finish, reading);
        }
        TickRow::KillPast | TickRow::KillVacating => {
            state.mark_evicted();
            state.enter(Cue::Kill, reading);
        }
        TickRow::Vacate => state.enter(Cue::Vacate, reading),
        TickRow::Nothing => {}
    }
}

/// Whether a row kills the slot's run.
pub(crate) fn is_kill(row: TickRow) -> bool
    ensures { result ≡ is_kill row }
{
    match row {
        TickRow::KillPast | TickRow::KillVacating => true,
        _ => false,
    }
}

/// Whether a row does anything.
pub(crate) fn is_act(row: TickRow) -> bool
    ensures { result ≡ is_act row }
{
    match row {
        TickRow::Nothing => false,
        _ => true,
    }
}
