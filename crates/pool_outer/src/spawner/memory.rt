//! Child programs in memory.
ghost use Rattle.std.specs.Prelude.{◌≡◌, ◌<◌, ◌↔◌, length, IfOk, IsOk, IsOkAnd, IsErrOf, IsOkUnless, OnErr, OnOk};
ghost use Rattle.std.specs.Option.{option_copied};
ghost use Rattle.pool_outer.specs.declared.spawner.ChildState.TheVariants.{Running, Signalled};
ghost use Rattle.pool_outer.specs.declared.spawner.SpawnError.TheVariants.{Failed};
ghost use Rattle.pool_outer.specs.Cause.{HasCause};
ghost use Rattle.pool_outer.specs.MemoryCalls.{NextFails, one_more};
ghost use Rattle.pool_outer.specs.MemoryChildren.{child_of, new_child, script_of, Looks};

use super::{ChildState, Launch, SpawnError, Spawner};
use crate::failing::FailingCalls;
use crate::faults::count_fault;
use ad_value::{Copied, Text};
use std::alloc::Global;

/// The signal that kills.
const SIGKILL: i32 = 9;

/// What becomes of a program of that name: it runs on for so many looks, and the next one finds
/// that ending.
pub struct Script {
    pub program: Text,
    pub looks: u64,
    pub end: ChildEnd,
}

impl Drop for Script {
    fn drop(self) {
        let Script {
            program: _program,
            looks: _,
            end: _,
        } = self;
    }
}

/// How a child ends: by an exit code or a signal's number.
#[derive(Clone, Copy, PartialEq, Eq)]
pub enum ChildEnd {
    Exited(i32),
    Signalled(i32),
}

impl From<ChildEnd> for ChildState {
    ghost use Rattle.std.specs.Prelude.{◌≡◌};
    ghost use Rattle.pool_outer.specs.MemoryChildren.{state_of};

    ghost from_gives = { λ end state. state ≡ state_of end };

    fn from(end: ChildEnd) -> ChildState {
        match end {
            ChildEnd::Exited(code) => ChildState::Exited(code),
            ChildEnd::Signalled(signal) => ChildState::Signalled(signal),
        }
    }
}

/// A child as it was last seen, and what the next looks will find.
#[derive(Clone, Copy)]
struct MemChild {
    state: ChildState,
    looks: u64,
    end: ChildEnd,
    killed: bool,
}

impl MemChild {
    fn new(looks: u64, end: ChildEnd) -> MemChild
        ensures { result ≡ new_child looks end }
    {
        MemChild {
            state: ChildState::Running,
            looks,
            end,
            killed: false,
        }
    }

    fn look(&mut self) -> ChildState
        ensures seen { result ≡ self.new.state }
        ensures look { Looks self.old self.new }
    {
        if self.state != ChildState::Running {
            return self.state;
        }
        if self.killed {
            self.state = ChildState::Signalled(SIGKILL);
        } else if self.looks == 0 {
            self.state = ChildState::from(self.end);
        } else {
            self.looks -= 1;
        }
        self.state
    }
}

fn script_for<'a>(scripts: &'a [Script], program: &str) -> Option<&'a Script>
    ensures { option_copied result ≡ script_of scripts.now program.now }
{
    scripts
        .iter()
        .find(|script| script.program.as_str() == program)
}

fn child_for(scripts: &[Script], program: &str) -> MemChild
    ensures { result ≡ child_of scripts.now program.now }
{
    match script_for(scripts, program) {
        Some(script) => MemChild::new(script.looks, script.end),
        None => MemChild::new(0, ChildEnd::Exited(0)),
    }
}

/// Children in memory, which are started and looked at without fail. A program without a script
/// exits with 0 at its first look, and a killed child that wasn't seen to end is ended by signal 9
/// at its next look.
pub struct SureSpawner {
    scripts: Vec<Script>,
    launches: Vec<Launch>,
    children: Vec<MemChild>,
    ghost each_launched: { length launches.items ≡ length children.items },
}

impl Drop for SureSpawner {
    fn drop(self) {
        let SureSpawner {
            scripts: _scripts,
            launches: _launches,
            children: _children,
        } = self;
    }
}

impl SureSpawner {
    ghost use Rattle.pool_outer.specs.MemoryParts.{scripts_of};

    pub fn new(alloc: Global, scripts: Vec<Script>) -> SureSpawner
        ensures scripts { scripts_of result ≡ scripts.items }
        ensures idle { ⟦<SureSpawner as Spawner>⟧.count result ≡ 0 }
    {
        SureSpawner {
            scripts,
            launches: Vec::new(alloc),
            children: Vec::new(alloc),
        }
    }

    /// What was launched, in order.
    pub fn launches(&self) -> &[Launch]
        ensures { result.now ≡ ⟦<SureSpawner as Spawner>⟧.launches self.now }
    {
        self.launches.as_slice()
    }
}

impl Spawner for SureSpawner {
    ghost use Rattle.std.specs.Prelude.{true, length};
    ghost use Rattle.pool_outer.specs.MemoryChildren.{last_seen, is_killed, unborn};
    ghost use Rattle.pool_outer.specs.MemorySpawners.{IsSame, Kills, Launches, Polls};

    ghost faults = { λ _. 0 };

    ghost count = { λ s. length s.children.items };

    ghost tells = { λ _. true };

    ghost launches = { λ s. s.launches.items };

    ghost killed = { λ s k. is_killed s.children.items k };

    ghost seen = { λ s k. last_seen s.children.items k };

    ghost counted = { λ s tells. s.each_launched };

    ghost unborn = { λ s k tells past. unborn s.children.items k past };

    fn launch(&mut self, alloc: Global, what: &Launch) -> Result<u64, SpawnError>
        ensures ok { IfOk result (λ number. Launches what.now self.old self.new number) }
        ensures err { OnErr result (IsSame self.old self.new) }
        ensures sure { IsOkUnless result SpawnError.Memory }
    {
        let number = self.children.len() as u64;
        let child = child_for(self.scripts.as_slice(), what.program.as_str());
        let launch = what.copy(alloc)?;
        self.children.reserve(1)?;
        self.launches.push(launch)?;
        self.children.push(child).unwrap();
        Ok(number)
    }

    fn poll(&mut self, child: u64) -> Result<ChildState, SpawnError>
        requires { child < ⟦<SureSpawner as Spawner>⟧.count self.old }
        ensures { IsOkAnd result (Polls child self.old self.new) }
    {
        let child = &mut self.children[child as usize];
        Ok(child.look())
    }

    fn kill(&mut self, child: u64) -> Result<(), SpawnError>
        requires { child < ⟦<SureSpawner as Spawner>⟧.count self.old }
        ensures ok { IsOk result }
        ensures kill { Kills child self.old self.new }
    {
        let child = &mut self.children[child as usize];
        child.killed = true;
        Ok(())
    }
}

/// The calls of a `MemSpawner` that fail, by their numbers from 0; each kind of call is counted by
/// itself.
#[derive(Drop)]
pub struct FailingSpawns {
    pub launches: Vec<u64>,
    pub polls: Vec<u64>,
    pub kills: Vec<u64>,
}

/// A `SureSpawner` some of whose calls fail.
pub struct MemSpawner {
    inner: SureSpawner,
    launches: FailingCalls,
    polls: FailingCalls,
    kills: FailingCalls,
    faults: u64,
}

impl Drop for MemSpawner {
    fn drop(self) {
        let MemSpawner {
            inner: _inner,
            launches: _launches,
            polls: _polls,
            kills: _kills,
            faults: _,
        } = self;
    }
}

impl MemSpawner {
    ghost use Rattle.pool_outer.specs.MemoryParts.{scripts_of, sure_spawner, launch_calls, poll_calls, kill_calls};

    pub fn new(alloc: Global, scripts: Vec<Script>, fails: FailingSpawns) -> MemSpawner
        ensures scripts { scripts_of (sure_spawner result) ≡ scripts.items }
        ensures launches { launch_calls result ≡ record { next = 0; fails = fails.launches } }
        ensures polls { poll_calls result ≡ record { next = 0; fails = fails.polls } }
        ensures kills { kill_calls result ≡ record { next = 0; fails = fails.kills } }
        ensures idle { ⟦<MemSpawner as Spawner>⟧.count result ≡ 0 }
        ensures faults { ⟦<MemSpawner as Spawner>⟧.faults result ≡ 0 }
    {
        MemSpawner {
            inner: SureSpawner::new(alloc, scripts),
            launches: FailingCalls::new(fails.launches),
            polls: FailingCalls::new(fails.polls),
            kills: FailingCalls::new(fails.kills),
            faults: 0,
        }
    }

    /// What was launched, in order.
    pub fn launches(&self) -> &[Launch]
        ensures { result.now ≡ ⟦<MemSpawner as Spawner>⟧.launches self.now }
    {
        self.inner.launches()
    }
}

// Counts a call, and refuses one that fails.
fn begin(calls: &mut FailingCalls, faults: &mut u64) -> Result<(), SpawnError>
    ensures fails { IsErrOf result SpawnError.Failed ↔ NextFails calls.old }
    ensures only { IsOkUnless result SpawnError.Failed }
    ensures calls { calls.new ≡ one_more calls.old }
    ensures cause { HasCause Failed faults.old faults.new result }
{
    if calls.fails_now() {
        count_fault(faults);
        return Err(SpawnError::Failed);
    }
    Ok(())
}

impl Spawner for MemSpawner {
    ghost use Rattle.std.specs.Prelude.{true, length};
    ghost use Rattle.pool_outer.specs.MemoryChildren.{last_seen, is_killed, unborn};
    ghost use Rattle.pool_outer.specs.MemoryParts.{sure_spawner, launch_calls, poll_calls, kill_calls, spawner_faults};
    ghost use Rattle.pool_outer.specs.MemorySpawners.{CountsKill, CountsLaunch, CountsPoll, IsSame, Kills, Launches, Polls};

    ghost faults = { λ s. s.faults };

    ghost count = { λ s. length s.inner.children.items };

    ghost tells = { λ _. true };

    ghost launches = { λ s. s.inner.launches.items };

    ghost killed = { λ s k. is_killed s.inner.children.items k };

    ghost seen = { λ s k. last_seen s.inner.children.items k };

    ghost counted = { λ s tells. s.inner.each_launched };

    ghost unborn = { λ s k tells past. unborn s.inner.children.items k past };

    fn launch(&mut self, alloc: Global, what: &Launch) -> Result<u64, SpawnError>
        ensures ok { IfOk result
            (Launches what.now (sure_spawner self.old) (sure_spawner self.new)) }
        ensures err { OnErr result (IsSame (sure_spawner self.old) (sure_spawner self.new)) }
        ensures counted { CountsLaunch self.old self.new }
        ensures fails { IsErrOf result SpawnError.Failed ↔ NextFails (launch_calls self.old) }
        ensures cause { HasCause Failed (spawner_faults self.old) (spawner_faults self.new) result }
    {
        begin(&mut self.launches, &mut self.faults)?;
        self.inner.launch(alloc, what)
    }

    fn poll(&mut self, child: u64) -> Result<ChildState, SpawnError>
        requires { child < ⟦<MemSpawner as Spawner>⟧.count self.old }
        ensures ok { IfOk result (Polls child (sure_spawner self.old) (sure_spawner self.new)) }
        ensures err { OnErr result (IsSame (sure_spawner self.old) (sure_spawner self.new)) }
        ensures only { IsOkUnless result SpawnError.Failed }
        ensures counted { CountsPoll self.old self.new }
        ensures fails { IsErrOf result SpawnError.Failed ↔ NextFails (poll_calls self.old) }
        ensures cause { HasCause Failed (spawner_faults self.old) (spawner_faults self.new) result }
    {
        begin(&mut self.polls, &mut self.faults)?;
        self.inner.poll(child)
    }

    fn kill(&mut self, child: u64) -> Result<(), SpawnError>
        requires { child < ⟦<MemSpawner as Spawner>⟧.count self.old }
        ensures ok { OnOk result (Kills child (sure_spawner self.old) (sure_spawner self.new)) }
        ensures err { OnErr result (IsSame (sure_spawner self.old) (sure_spawner self.new)) }
        ensures only { IsOkUnless result SpawnError.Failed }
        ensures counted { CountsKill self.old self.new }
        ensures fails { IsErrOf result SpawnError.Failed ↔ NextFails (kill_calls self.old) }
        ensures cause { HasCause Failed (spawner_faults self.old) (spawner_faults self.new) result }
    {
        begin(&mut self.kills, &mut self.faults)?;
        self.inner.kill(child)
    }
}
