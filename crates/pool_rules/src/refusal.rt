// Why an event isn't accepted.

ghost use Rattle.std.specs.Prelude.{◌≡◌, ◌∷◌, [], IfOk};
ghost use Rattle.std.specs.Option.{option_copied};
ghost use Rattle.pool_outer.specs.declared.gate.Daemon.TheVariants.{Schedd, Startd};
ghost use Rattle.pool_rules.specs.Refusals.{IsEventRefusal, IsLoggedRefusal, IsMatchesRefusal, IsReceiveRefusal, IsRefusal, IsReopenRefusal, IsReturnRefusal, busy_refusal, check_refusal, closed_refusal, ended_refusal, events_refusal, first_of, jobs_refusal, matchmaker_refusal, order_refusal, receive_refusal, run_left, run_refusal, schedd_refusal, submit_refusal, tick_refusal, unless_due};

use crate::judging::{ad_refusal, is_some_live};
use crate::quiet::close_refusal;
use ad_eval::{Judged, NoMatch};
use ad_value::Memory;
use claim_id::{JobId, RunNo, Verb};
use pool_mail::{Ending, Match};
use pool_outer::Daemon;
use pool_parts::{Event, kept_refusal, receipt_refusal, still_pending};
use pool_state::{MAX_JOBS, PoolState};
use pool_tables::StepError;
use queue_tx::Tx;
use receipt_roll::Receipt;
use std::alloc::Global;

/// How many events a history may have.
pub const MAX_EVENTS: u64 = 1_000_000;

// The refusal of what isn't due.
fn unless_due(due: bool) -> Option<StepError>
    ensures { result ≡ unless_due due }
{
    if due { None } else { Some(StepError::NotDue) }
}

fn jobs_refusal(jobs: u64, count: usize) -> Option<StepError>
    ensures { result ≡ jobs_refusal jobs count }
{
    if jobs.saturating_add(count as u64) > MAX_JOBS {
        Some(StepError::Jobs)
    } else {
        None
    }
}

fn run_refusal(has: bool, run: RunNo) -> Option<StepError>
    ensures { result ≡ run_refusal has run }
{
    if has {
        None
    } else {
        Some(StepError::NoRun { run })
    }
}

fn run_left(run: Option<RunNo>) -> Option<StepError>
    ensures { result ≡ run_left run }
{
    let run = run?;
    Some(StepError::RunLeft { run })
}

/// Why an event isn't accepted: the first cause by the order of `StepError`, but for `Bytes`
/// and `Memory`; none where it is. Computes in O(jobs + slots + orders) for a Close, and for
/// other events as the daemons' own questions do.
pub fn refusal_of(
    state: &PoolState,
    alloc: Global,
    event: &Event,
) -> Result<Option<StepError>, Memory>
    ensures { IfOk result (IsRefusal event.now state.now) }
{
    if let Some(error) = end_refusal(state) {
        return Ok(Some(error));
    }
    event_refusal(state, alloc, event)
}

// Of a pool that goes on.
fn event_refusal(
    state: &PoolState,
    alloc: Global,
    event: &Event,
) -> Result<Option<StepError>, Memory>
    ensures { IfOk result (IsEventRefusal event.now state.now) }
{
    match event {
        Event::Submit { boot, jobs, .. } => Ok(submit_refusal(state, *boot, jobs.len())),
        Event::Order { verb, job, reading } => Ok(order_refusal(state, *verb, *job, *reading)),
        Event::Receive {
            who,
            boot,
            index,
            reading,
            judged,
            none,
        } => {
            let (judged, none) = (judged.as_ref(), none.as_ref());
            Ok(receive_refusal(state, *who, *boot, *index, *reading, judged, none))
        }
        Event::Tick { who, boot, reading } => tick_refusal(state, alloc, *who, *boot, *reading),
        Event::Check { boot, job, reading } => Ok(check_refusal(state, *boot, *job, *reading)),
        Event::Logged { boot, receipt } => Ok(logged_refusal(state, *boot, receipt)),
        Event::Ended {
            machine,
            boot,
            receipt,
            ..
        } => Ok(ended_refusal(state, *machine, *boot, receipt.item().run)),
        Event::Crash { who } => Ok(state.daemons.crash_refusal(*who)),
        Event::Reopen {
            who,
            kept,
            ended,
            ..
        } => Ok(reopen_refusal(state, *who, kept.as_ref(), ended.as_slice())),
        Event::Matches {
            list,
            judged,
            reading,
        } => Ok(matches_refusal(state, list.as_slice(), judged.as_slice(), *reading)),
        Event::Close {
            length,
            reading,
            none,
        } => close_refusal(state, alloc, *length, *reading, none),
    }
}

// A pool that was closed, or has as many events as it may.
fn end_refusal(state: &PoolState) -> Option<StepError>
    ensures { result ≡ first_of (closed_refusal state.now ∷ events_refusal state.now ∷ []) }
{
    if state.closed {
        Some(StepError::Closed)
    } else if state.events < MAX_EVENTS {
        None
    } else {
        Some(StepError::Events)
    }
}

// ---- of the schedd

fn schedd_refusal(state: &PoolState, boot: u64) -> Option<StepError>
    ensures { result ≡ schedd_refusal boot state.now }
{
    if let Some(error) = state.daemons.refusal(Daemon::Schedd, boot) {
        return Some(error);
    }
    still_pending(state.pending.as_ref())
}

fn submit_refusal(state: &PoolState, boot: u64, count: usize) -> Option<StepError>
    ensures { result ≡ submit_refusal boot count state.now }
{
    if let Some(error) = schedd_refusal(state, boot) {
        return Some(error);
    }
    jobs_refusal(state.counts.jobs, count)
}

fn check_refusal(state: &PoolState, boot: u64, job: JobId, reading: u64) -> Option<StepError>
    ensures { result ≡ check_refusal boot job reading state.now }
{
    if let Some(error) = schedd_refusal(state, boot) {
        return Some(error);
    }
    unless_due(state.schedd.is_check_due(&state.queue, job, reading))
}

fn logged_refusal(state: &PoolState, boot: u64, receipt: &Receipt<Tx>) -> Option<StepError>
    ensures { IsLoggedRefusal boot receipt.now state.now result }
{
    if let Some(error) = state.daemons.refusal(Daemon::Schedd, boot) {
        return Some(error);
    }
    receipt_refusal(state.pending.as_ref(), receipt)
}

// ---- of any daemon

fn tick_refusal(
    state: &PoolState,
    alloc: Global,
    who: Daemon,
    boot: u64,
    reading: u64,
) -> Result<Option<StepError>, Memory>
    ensures { IfOk result (λ r. r ≡ tick_refusal who boot reading state.now) }
{
    match who {
        Daemon::Schedd => Ok(schedd_tick_refusal(state, boot, reading)),
        Daemon::Startd(machine) => startd_tick_refusal(state, alloc, machine, boot, reading),
        Daemon::Matchmaker => match state.daemons.refusal(who, boot) {
            Some(error) => Ok(Some(error)),
            None => Ok(Some(StepError::NotDue)),
        },
    }
}

fn schedd_tick_refusal(state: &PoolState, boot: u64, reading: u64) -> Option<StepError>
    ensures { result ≡ tick_refusal Schedd boot reading state.now }
{
    if let Some(error) = schedd_refusal(state, boot) {
        return Some(error);
    }
    unless_due(state.schedd.due(&state.queue, reading))
}

fn startd_tick_refusal(
    state: &PoolState,
    alloc: Global,
    machine: u16,
    boot: u64,
    reading: u64,
) -> Result<Option<StepError>, Memory>
    ensures { IfOk result (λ r. r ≡ tick_refusal (Startd machine) boot reading state.now) }
{
    if let Some(error) = state.daemons.refusal(Daemon::Startd(machine), boot) {
        return Ok(Some(error));
    }
    let due = state.is_startd_due(alloc, machine, reading)?;
    Ok(unless_due(due))
}

fn ended_refusal(state: &PoolState, machine: u16, boot: u64, run: RunNo) -> Option<StepError>
    ensures { result ≡ ended_refusal machine boot run state.now }
{
    if let Some(error) = state.daemons.refusal(Daemon::Startd(machine), boot) {
        return Some(error);
    }
    run_refusal(state.machines.has_run(machine, run), run)
}

fn reopen_refusal(
    state: &PoolState,
    who: Daemon,
    kept: Option<&Receipt<Tx>>,
    ended: &[Receipt<Ending>],
) -> Option<StepError>
    ensures { IsReopenRefusal who (option_copied kept.entry) ended.now state.now result }
{
    if let Some(error) = state.daemons.reopen_refusal(who) {
        return Some(error);
    }
    return_refusal(state, who, kept, ended)
}

fn return_refusal(
    state: &PoolState,
    who: Daemon,
    kept: Option<&Receipt<Tx>>,
    ended: &[Receipt<Ending>],
) -> Option<StepError>
    ensures { IsReturnRefusal who (option_copied kept.entry) ended.now state.now result }
{
    match who {
        Daemon::Schedd => kept_refusal(state.pending.as_ref(), kept),
        Daemon::Startd(machine) => run_left(state.machines.first_left(machine, ended)),
        Daemon::Matchmaker => None,
    }
}

// ---- of a mail

fn receive_refusal(
    state: &PoolState,
    who: Daemon,
    boot: u64,
    index: u64,
    reading: u64,
    judged: Option<&Judged>,
    none: Option<&NoMatch>,
) -> Option<StepError>
    ensures { IsReceiveRefusal who boot index reading
        (option_copied judged.entry) (option_copied none.entry) state.now result }
{
    if let Some(error) = mail_refusal(state, who, boot, index) {
        return Some(error);
    }
    ad_refusal(state, state.mails.get(index), reading, judged, none)
}

fn mail_refusal(state: &PoolState, who: Daemon, boot: u64, index: u64) -> Option<StepError>
    ensures { result ≡ receive_refusal who boot index state.now }
{
    if let Some(error) = state.daemons.refusal(who, boot) {
        return Some(error);
    }
    if let Some(error) = state.mails.refusal(who, index) {
        return Some(error);
    }
    busy_refusal(state, who)
}

fn busy_refusal(state: &PoolState, who: Daemon) -> Option<StepError>
    ensures { result ≡ busy_refusal who state.now }
{
    match who {
        Daemon::Schedd => still_pending(state.pending.as_ref()),
        Daemon::Startd(_) | Daemon::Matchmaker => None,
    }
}

// ---- of the master and the matchmaker

fn order_refusal(state: &PoolState, verb: Verb, job: JobId, reading: u64) -> Option<StepError>
    ensures { result ≡ order_refusal verb job reading state.now }
{
    unless_due(state.orders.first_due(verb, job, reading).is_some())
}

fn matchmaker_refusal(state: &PoolState) -> Option<StepError>
    ensures { result ≡ matchmaker_refusal state.now }
{
    if state.daemons.is_up(Daemon::Matchmaker) {
        None
    } else {
        Some(StepError::Down {
            who: Daemon::Matchmaker,
        })
    }
}

fn matches_refusal(
    state: &PoolState,
    list: &[Match],
    judged: &[Judged],
    reading: u64,
) -> Option<StepError>
    ensures { IsMatchesRefusal list.now judged.now reading state.now result }
{
    if let Some(error) = matchmaker_refusal(state) {
        return Some(error);
    }
    unless_due(is_some_live(state, list, judged, reading))
}
