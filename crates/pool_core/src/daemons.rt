// What happens to each kind of daemon.

ghost use Rattle.std.specs.Prelude.{◌≡◌, ◌+◌, ◌<◌, ◌^◌, slice_get, Err, IfErr, IfOk, IfSome, IsSomeAnd, OnErr, OnOk};
ghost use Rattle.std.specs.Option.{option_copied};
ghost use Rattle.pool_core.specs.Made.{IsMade};
ghost use Rattle.pool_rules.specs.Deeds.{at_rest, receives};
ghost use Rattle.pool_rules.specs.Happens.{ComesBack, IsReopened, Receives, Ticks, crashes, is_known};
ghost use Rattle.pool_rules.specs.Limits.{IsLimit, IsTooLarge, IsWithin};
ghost use Rattle.pool_state.specs.Readings.{boot_of};
ghost use Rattle.pool_tables.specs.DaemonTables.{daemon_state};
ghost use Rattle.pool_tables.specs.declared.refusal.StepError.TheVariants as error;

use ad_eval::Judged;
use pool_mail::Mail;
use pool_outer::Daemon;
use pool_parts::Stepped;
use pool_state::PoolState;
use pool_steps::{limited, nothing_asked, reboot_startd, receive_by_startd, tick_startd};
use pool_tables::StepError;
use schedd_steps::{receive_by_schedd, reopen_schedd, tick_schedd};
use std::alloc::Global;

/// A daemon receives the mail of a number. Memory too where there is no such mail, or it was
/// received as often as it may be.
pub(crate) fn receive(
    alloc: Global,
    state: &mut PoolState,
    who: Daemon,
    index: u64,
    judged: Option<&Judged>,
    reading: u64,
) -> Result<Stepped, StepError>
    ensures received { IfOk result (λ r. IsSomeAnd (slice_get state.old.mails.sent index) (λ sent.
        Receives who index sent.mail reading (option_copied judged.entry) (at_rest state.old)
        (at_rest state.new) r)) }
    ensures within { OnOk result (IsWithin state.new) }
    ensures large { result ≡ Err error.Bytes
        → IsTooLarge (λ new r. IsSomeAnd (slice_get state.old.mails.sent index) (λ sent.
        Receives who index sent.mail reading (option_copied judged.entry) (at_rest state.old)
        new r)) }
    ensures refused { IfErr result IsLimit }
    ensures kept { OnErr result (at_rest state.new ≡ at_rest state.old) }
{
    if !state.mails.may_receive(index) {
        return Err(StepError::Memory);
    }
    match who {
        Daemon::Schedd => {
            let known = is_known_at(state, index);
            receive_by_schedd(alloc, state, index, known, reading)
        }
        Daemon::Startd(machine) => {
            receive_by_startd(alloc, state, machine, index, judged, reading)
        }
        Daemon::Matchmaker => receive_by_matchmaker(state, index),
    }
}

fn receive_by_matchmaker(state: &mut PoolState, index: u64) -> Result<Stepped, StepError>
    requires { IfSome (slice_get state.old.mails.sent index) (λ s. s.received + 1 < 2 ^ 64) }
    ensures received { IfOk result
        (IsMade (receives index (at_rest state.old)) (at_rest state.new)) }
    ensures within { OnOk result (IsWithin state.new) }
    ensures large { result ≡ Err error.Bytes
        → IsTooLarge (IsMade (receives index (at_rest state.old))) }
    ensures refused { IfErr result IsLimit }
    ensures kept { OnErr result (at_rest state.new ≡ at_rest state.old) }
{
    let _bytes = limited(state.counts.bytes)?;
    state.mails.receive(index);
    Ok(nothing_asked())
}

// Whether the pool has or had the job that the mail of a number orders to be removed.
fn is_known_at(state: &PoolState, index: u64) -> bool
    ensures { IfSome (slice_get state.now.mails.sent index)
        (λ sent. result ≡ is_known sent.mail (at_rest state.now)) }
{
    match state.mails.get(index) {
        Some(sent) => is_known(&sent.mail, state),
        None => false,
    }
}

fn is_known(mail: &Mail, state: &PoolState) -> bool
    ensures { result ≡ is_known mail.now (at_rest state.now) }
{
    match mail {
        Mail::Remove { job } => state.has_job(*job),
        _ => false,
    }
}

/// Time passes for a daemon.
pub(crate) fn tick(
    alloc: Global,
    state: &mut PoolState,
    who: Daemon,
    reading: u64,
) -> Result<Stepped, StepError>
    ensures ticked { IfOk result (Ticks who reading (at_rest state.old) (at_rest state.new)) }
    ensures within { OnOk result (IsWithin state.new) }
    ensures large { result ≡ Err error.Bytes
        → IsTooLarge (Ticks who reading (at_rest state.old)) }
    ensures refused { IfErr result IsLimit }
    ensures kept { OnErr result (at_rest state.new ≡ at_rest state.old) }
{
    match who {
        Daemon::Schedd => tick_schedd(alloc, state, reading),
        Daemon::Startd(machine) => tick_startd(alloc, state, machine, reading),
        Daemon::Matchmaker => pass_over(state),
    }
}

// Nothing happens.
fn pass_over(state: &PoolState) -> Result<Stepped, StepError>
    ensures nothing { IfOk result (IsMade (at_rest state.now) (at_rest state.now)) }
    ensures within { OnOk result (IsWithin state.now) }
    ensures large { result ≡ Err error.Bytes
        → IsTooLarge (IsMade (at_rest state.now)) }
    ensures refused { IfErr result IsLimit }
{
    let _bytes = limited(state.counts.bytes)?;
    Ok(nothing_asked())
}

/// A daemon crashes.
pub(crate) fn crash(state: &mut PoolState, who: Daemon) -> Result<Stepped, StepError>
    ensures crashed { IfOk result
        (IsMade (crashes who (at_rest state.old)) (at_rest state.new)) }
    ensures within { OnOk result (IsWithin state.new) }
    ensures large { result ≡ Err error.Bytes
        → IsTooLarge (IsMade (crashes who (at_rest state.old))) }
    ensures refused { IfErr result IsLimit }
    ensures kept { OnErr result (at_rest state.new ≡ at_rest state.old) }
{
    let _bytes = limited(state.counts.bytes)?;
    state.daemons.crash(who);
    Ok(nothing_asked())
}

/// A daemon comes back in its next boot.
pub(crate) fn reopen(
    alloc: Global,
    state: &mut PoolState,
    who: Daemon,
    kept: bool,
    reading: u64,
) -> Result<Stepped, StepError>
    ensures back { IfOk result
        (IsReopened who kept reading (at_rest state.old) (at_rest state.new)) }
    ensures within { OnOk result (IsWithin state.new) }
    ensures large { result ≡ Err error.Bytes
        → IsTooLarge (IsReopened who kept reading (at_rest state.old)) }
    ensures refused { IfErr result IsLimit }
    ensures kept { OnErr result (at_rest state.new ≡ at_rest state.old) }
{
    let boot = next_boot(state, who)?;
    match come_back(alloc, state, who, kept, reading) {
        Ok(stepped) => {
            state.daemons.reopen(who, boot);
            Ok(stepped)
        }
        Err(error) => Err(error),
    }
}

// Memory where the boot is the last of 64 bits, or the daemon is not of the pool.
fn next_boot(state: &PoolState, who: Daemon) -> Result<u64, StepError>
    ensures boot { IfOk result
        (λ boot. boot ≡ boot_of (daemon_state who state.now.daemons) + 1) }
    ensures memory { IfErr result (λ e. e ≡ error.Memory) }
{
    let Some(daemon) = state.daemons.get(who) else {
        return Err(StepError::Memory);
    };
    match daemon.boot.checked_add(1) {
        Some(boot) => Ok(boot),
        None => Err(StepError::Memory),
    }
}

fn come_back(
    alloc: Global,
    state: &mut PoolState,
    who: Daemon,
    kept: bool,
    reading: u64,
) -> Result<Stepped, StepError>
    ensures back { IfOk result
        (ComesBack who kept reading (at_rest state.old) (at_rest state.new)) }
    ensures within { OnOk result (IsWithin state.new) }
    ensures large { result ≡ Err error.Bytes
        → IsTooLarge (ComesBack who kept reading (at_rest state.old)) }
    ensures refused { IfErr result IsLimit }
    ensures kept { OnErr result (at_rest state.new ≡ at_rest state.old) }
{
    match who {
        Daemon::Schedd => reopen_schedd(alloc, state, kept, reading),
        Daemon::Startd(machine) => reboot_startd(alloc, state, machine, reading),
        Daemon::Matchmaker => pass_over(state),
    }
}
