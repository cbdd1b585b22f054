// How one daemon stands.

ghost use Rattle.std.specs.Prelude.{◌≡◌, ◌+◌, ◌<◌, ◌^◌, count_by, length, position, IfOk, IfSome};
ghost use Rattle.pool_tables.specs.DaemonTables.{first_state, first_startds, same_daemon, state_refusal, boot_refusal, crash_refusal_at, reopen_refusal_at, is_down, with_startd};

use crate::refusal::StepError;
use ad_value::{Copied, Memory};
use pool_outer::Daemon;
use std::alloc::Global;

/// How a daemon stands.
#[derive(Clone, Copy)]
pub struct DaemonState {
    pub boot: u64,
    pub up: bool,
    /// How often it may still crash.
    pub crashes: u64,
}

impl Copied for DaemonState {
    /// An equal state, without memory. Computes in O(1).
    fn copy(&self, _: Global) -> Result<DaemonState, Memory> {
        Ok(*self)
    }
}

/// A daemon that is up in its first boot, and may crash once for each time that it is listed.
pub(crate) fn first_state(boot: u64, who: Daemon, crashes: &[Daemon]) -> DaemonState
    ensures { result ≡ first_state boot who crashes.now }
{
    DaemonState {
        boot,
        up: true,
        crashes: crashes_of(who, crashes),
    }
}

// How often a daemon is listed.
fn crashes_of(who: Daemon, crashes: &[Daemon]) -> u64
    ensures { result ≡ count_by (same_daemon who) crashes.now }
{
    crashes
        .iter()
        .filter(|other| is_same_daemon(who, **other))
        .count() as u64
}

/// Whether both are one daemon.
pub(crate) fn is_same_daemon(who: Daemon, other: Daemon) -> bool
    ensures { result ≡ same_daemon who other }
{
    match (who, other) {
        (Daemon::Schedd, Daemon::Schedd) => true,
        (Daemon::Matchmaker, Daemon::Matchmaker) => true,
        (Daemon::Startd(machine), Daemon::Startd(other)) => machine == other,
        _ => false,
    }
}

/// Why an event of a daemon in a boot isn't accepted.
pub(crate) fn state_refusal(who: Daemon, boot: u64, state: Option<DaemonState>) -> Option<StepError>
    ensures { result ≡ state_refusal who boot state }
{
    match state {
        Some(state) if state.up => boot_refusal(boot, state.boot),
        _ => Some(StepError::Down { who }),
    }
}

fn boot_refusal(asked: u64, current: u64) -> Option<StepError>
    ensures { result ≡ boot_refusal asked current }
{
    if asked == current {
        None
    } else {
        Some(StepError::OldBoot { asked, current })
    }
}

/// Why a daemon's crash isn't accepted.
pub(crate) fn crash_refusal_at(who: Daemon, state: Option<DaemonState>) -> Option<StepError>
    ensures { result ≡ crash_refusal_at who state }
{
    match state {
        Some(state) if state.up => {
            if state.crashes == 0 {
                Some(StepError::NotDue)
            } else {
                None
            }
        }
        _ => Some(StepError::Down { who }),
    }
}

/// Why a daemon may not come back.
pub(crate) fn reopen_refusal_at(who: Daemon, state: Option<DaemonState>) -> Option<StepError>
    ensures { result ≡ reopen_refusal_at who state }
{
    match state {
        Some(state) => {
            if state.up {
                Some(StepError::Up { who })
            } else {
                None
            }
        }
        None => Some(StepError::Down { who }),
    }
}

/// The startds of a pool of so many machines.
#[tactic(auto, using(crate::proofs::Startds::count_startds))]
pub(crate) fn first_startds(
    alloc: Global,
    machines: u16,
    boot: u64,
    crashes: &[Daemon],
) -> Result<Vec<DaemonState>, Memory>
    ensures startds { IfOk result (λ s. s.items ≡ first_startds machines boot crashes.now) }
    ensures few { IfOk result (λ s. length s.items < 2 ^ 16) }
{
    let mut startds = Vec::new(alloc);
    for machine in 0..machines {
        push_startd(&mut startds, machine, boot, crashes)?;
    }
    Ok(startds)
}

#[tactic(auto, using(crate::proofs::Startds::one_startd))]
fn push_startd(
    startds: &mut Vec<DaemonState>,
    machine: u16,
    boot: u64,
    crashes: &[Daemon],
) -> Result<(), Memory>
    ensures { IfOk result (λ _. startds.old.items ≡ first_startds machine boot crashes.now
        → startds.new.items ≡ first_startds (machine + 1) boot crashes.now) }
{
    startds.push(first_state(boot, Daemon::Startd(machine), crashes))?;
    Ok(())
}

/// The first startd that is down.
pub(crate) fn first_startd_down(startds: &[DaemonState]) -> Option<usize>
    ensures down { result ≡ position is_down startds.now }
    ensures within { IfSome result (λ place. place < length startds.now) }
{
    startds.iter().position(|state| is_down(state))
}

fn is_down(state: &DaemonState) -> bool
    ensures { result ≡ is_down state.now }
{
    !state.up
}

/// The startd of a machine stands so.
pub(crate) fn set_startd(startds: &mut Vec<DaemonState>, machine: u16, state: DaemonState)
    ensures { startds.new.items ≡ with_startd machine state startds.old.items }
{
    let place = usize::from(machine);
    if place < startds.len() {
        startds[place] = state;
    }
}
