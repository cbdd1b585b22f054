// Which daemons are up, their boots, and how often they may still crash.

ghost use Rattle.std.specs.Prelude.{◌≡◌, IfOk};
ghost use Rattle.pool_tables.specs.DaemonTables.{first_daemons, daemon_state, is_up, first_down, daemon_refusal, crash_refusal, reopen_refusal, crashed, reopened, with_state, set_state};

use crate::copies::copy_list;
use crate::refusal::StepError;
use crate::states::{
    DaemonState, crash_refusal_at, first_startd_down, first_startds, first_state,
    reopen_refusal_at, set_startd, state_refusal,
};
use ad_value::{Copied, Memory};
use pool_outer::Daemon;
use std::alloc::Global;
use std::marker::Model;

/// The daemons of a pool. Contracts see them as a `DaemonsValue`.
#[derive(Drop)]
pub struct Daemons {
    schedd: DaemonState,
    startds: Vec<DaemonState>,
    matchmaker: DaemonState,
}

impl Model for Daemons {
    ghost use Rattle.std.specs.Prelude.{length, ◌<◌, ◌^◌};
    ghost use Rattle.std.specs.Coded.{codes};
    ghost use Rattle.pool_tables.specs.contracts.states.DaemonState as of_state;
    ghost use Rattle.pool_tables.specs.DaemonTables.{DaemonsValue};

    ghost Value = { DaemonsValue };

    ghost coded = { Prim.hlevel (codes, of_state.the_row.coded) };

    ghost view = { λ d. record {
      schedd = d.schedd;
      startds = d.startds.items;
      matchmaker = d.matchmaker;
    } };

    ghost invariant = { λ d. length d.startds.items < 2 ^ 16 };
}

impl Copied for Daemons {
    /// Equal daemons. Computes in O(machines).
    fn copy(&self, alloc: Global) -> Result<Daemons, Memory> {
        Ok(Daemons {
            schedd: self.schedd,
            startds: copy_list(alloc, &self.startds, 0)?,
            matchmaker: self.matchmaker,
        })
    }
}

impl Daemons {
    /// All daemons of a pool of so many machines, up in one boot; each may crash once for each time
    /// that it is listed. Computes in O(machines * crashes).
    pub fn new(
        alloc: Global,
        machines: u16,
        boot: u64,
        crashes: &[Daemon],
    ) -> Result<Daemons, Memory>
        ensures { IfOk result (λ d. d ≡ first_daemons machines boot crashes.now) }
    {
        Ok(Daemons {
            schedd: first_state(boot, Daemon::Schedd, crashes),
            startds: first_startds(alloc, machines, boot, crashes)?,
            matchmaker: first_state(boot, Daemon::Matchmaker, crashes),
        })
    }

    /// How a daemon stands; none where it isn't of the pool. Computes in O(1).
    pub fn get(&self, who: Daemon) -> Option<DaemonState>
        ensures { result ≡ daemon_state who self.now }
    {
        match who {
            Daemon::Schedd => Some(self.schedd),
            Daemon::Matchmaker => Some(self.matchmaker),
            Daemon::Startd(machine) => self.startds.get(usize::from(machine)).copied(),
        }
    }

    /// Whether a daemon is of the pool, and up. Computes in O(1).
    pub fn is_up(&self, who: Daemon) -> bool
        ensures { result ≡ is_up (daemon_state who self.now) }
    {
        match self.get(who) {
            Some(state) => state.up,
            None => false,
        }
    }

    /// The first daemon that is down: the schedd, a startd in the order of the machines, or the
    /// matchmaker. Computes in O(machines).
    pub fn first_down(&self) -> Option<Daemon>
        ensures { result ≡ first_down self.now }
    {
        if !self.schedd.up {
            return Some(Daemon::Schedd);
        }
        match first_startd_down(&self.startds) {
            Some(place) => Some(Daemon::Startd(place as u16)),
            None => {
                if self.matchmaker.up {
                    None
                } else {
                    Some(Daemon::Matchmaker)
                }
            }
        }
    }

    /// Why an event of a daemon in a boot isn't accepted: the daemon is down or not of the pool, or
    /// its boot is another. Computes in O(1).
    pub fn refusal(&self, who: Daemon, boot: u64) -> Option<StepError>
        ensures { result ≡ daemon_refusal who boot self.now }
    {
        state_refusal(who, boot, self.get(who))
    }

    /// Why a daemon's crash isn't accepted: it is down or not of the pool, or it has crashed as
    /// often as it may. Computes in O(1).
    pub fn crash_refusal(&self, who: Daemon) -> Option<StepError>
        ensures { result ≡ crash_refusal who self.now }
    {
        crash_refusal_at(who, self.get(who))
    }

    /// Why a daemon may not come back: it is not of the pool, or up. Computes in O(1).
    pub fn reopen_refusal(&self, who: Daemon) -> Option<StepError>
        ensures { result ≡ reopen_refusal who self.now }
    {
        reopen_refusal_at(who, self.get(who))
    }

    /// A daemon crashes, where it is of the pool. Computes in O(1).
    pub fn crash(&mut self, who: Daemon)
        ensures { self.new ≡ with_state who (crashed (daemon_state who self.old)) self.old }
    {
        if let Some(state) = self.get(who) {
            let state = DaemonState {
                boot: state.boot,
                up: false,
                crashes: state.crashes.saturating_sub(1),
            };
            self.set(who, state);
        }
    }

    /// A daemon comes back in that boot, where it is of the pool. Computes in O(1).
    pub fn reopen(&mut self, who: Daemon, boot: u64)
        ensures { self.new ≡ with_state who (reopened boot (daemon_state who self.old)) self.old }
    {
        if let Some(state) = self.get(who) {
            let state = DaemonState {
                boot,
                up: true,
                crashes: state.crashes,
            };
            self.set(who, state);
        }
    }

    fn set(&mut self, who: Daemon, state: DaemonState)
        ensures { self.new ≡ set_state who state self.old }
    {
        match who {
            Daemon::Schedd => self.schedd = state,
            Daemon::Matchmaker => self.matchmaker = state,
            Daemon::Startd(machine) => set_startd(&mut self.startds, machine, state),
        }
    }
}
