// What is set, one value after the other.

ghost use Rattle.std.specs.Prelude.{◌≡◌, ◌+◌, IfOk, OnOk, Ok, None, is_some, length, map, nat_le, nat_lt};
ghost use Rattle.std.specs.List.{list_any};
ghost use Rattle.std.specs.Str.{bytes_eq};
ghost use Rattle.pool_config.specs.Configuration.{configuration_of, outcome, machine_of, plain_configuration, total_slots};
ghost use Rattle.pool_config.specs.Errors.{Becomes, UnlessMemory};
ghost use Rattle.pool_config.specs.Keys.{sets_of, ceiling, prio_factor, of_slots, attribute};
ghost use Rattle.pool_config.specs.Settings.{set_to, pool_with, spool_with, machine_check, is_unfit, has_machine, whole, with_seconds, is_homeless};
ghost use Rattle.pool_config.specs.SoFar.{so_far};

use crate::config::{Config, MAX_MACHINES, MAX_SLOTS, Machine};
use crate::error::ConfigError;
use crate::key::Key;
use crate::setting_word::{Interval, PoolWord, SlotWord};
use crate::users::Users;
use crate::value::{
    MAX_CEILING, MAX_FACTOR, MAX_SECONDS, is_machine_name, number_within, set_expression,
    small_within,
};
use ad_token::is_name;
use ad_value::{Memory, Text};
use std::alloc::Global;

/// What was set so far. The users' numbers stand apart from the rest of the configuration, and so
/// does the machine that is being set, behind the others.
#[derive(Drop)]
pub struct Settings {
    pub(crate) config: Config,
    pub(crate) ceiling: Users,
    pub(crate) prio_factor: Users,
    pub(crate) last: Option<Machine>,
}

impl Settings {
    /// Nothing is set. Computes in O(1).
    pub fn new(alloc: Global) -> Result<Settings, Memory>
        ensures { IfOk result (λ s.
            so_far s ≡ record { config = plain_configuration; last = None }) }
    {
        Ok(Settings {
            config: Config::plain(alloc)?,
            ceiling: Users::new(alloc),
            prio_factor: Users::new(alloc),
            last: None,
        })
    }

    /// Sets a key to a value of line `line`, in which macros are replaced. After an error the
    /// settings are of no use. Computes in O(bytes of the value) where the names of users and of
    /// attributes do not collide, and O(machines) for a machine and its number of slots.
    pub fn set(
        &mut self,
        alloc: Global,
        key: Key<'_>,
        text: &str,
        line: u32,
    ) -> Result<(), ConfigError>
        ensures { Becomes (so_far self.new) result
            (set_to (sets_of key.entry) text.now line (so_far self.old)) }
    {
        match key {
            Key::Pool(word) => self.set_pool(alloc, word, text, line),
            Key::Ceiling(user) => self.set_ceiling(alloc, user, text, line),
            Key::PrioFactor(user) => self.set_factor(alloc, user, text, line),
            Key::Slots(word) => self.set_slots(alloc, word, text, line),
            Key::Attribute(name) => self.set_attribute(alloc, name, text, line),
        }
    }

    fn set_pool(
        &mut self,
        alloc: Global,
        word: PoolWord,
        text: &str,
        line: u32,
    ) -> Result<(), ConfigError>
        ensures { Becomes (so_far self.new) result
            (pool_with word text.now line (so_far self.old)) }
    {
        match word {
            PoolWord::Spool => self.set_spool(alloc, text),
            PoolWord::Owner => self.set_owner(alloc, text, line),
            PoolWord::Seconds(interval) => self.set_seconds(interval, text, line),
            PoolWord::PreemptionRequirements => self.set_preemption(alloc, text, line),
            PoolWord::Machine => self.begin_machine(alloc, text, line),
        }
    }

    fn set_spool(&mut self, alloc: Global, text: &str) -> Result<(), ConfigError>
        ensures { Becomes (so_far self.new) result
            (Ok (spool_with text.now (so_far self.old))) }
    {
        let text = Text::from_str(alloc, text)?;
        self.config.spool = Some(text);
        Ok(())
    }

    fn set_owner(&mut self, alloc: Global, text: &str, line: u32) -> Result<(), ConfigError>
        ensures { Becomes (so_far self.new) result
            (pool_with PoolWord.Owner text.now line (so_far self.old)) }
    {
        if !is_name(text) {
            return Err(ConfigError::BadValue { line });
        }
        self.config.owner = Text::from_str(alloc, text)?;
        Ok(())
    }

    fn set_seconds(&mut self, interval: Interval, text: &str, line: u32) -> Result<(), ConfigError>
        ensures { Becomes (so_far self.new) result
            (pool_with (PoolWord.Seconds interval) text.now line (so_far self.old)) }
    {
        match number_within(interval.least_seconds(), MAX_SECONDS, text) {
            Some(n) => {
                self.config.set_seconds(interval, n);
                Ok(())
            }
            None => Err(ConfigError::BadValue { line }),
        }
    }

    fn set_preemption(&mut self, alloc: Global, text: &str, line: u32) -> Result<(), ConfigError>
        ensures { Becomes (so_far self.new) result
            (pool_with PoolWord.PreemptionRequirements text.now line (so_far self.old)) }
    {
        set_expression(&mut self.config.preemption_requirements, alloc, text, line)
    }

    fn set_ceiling(
        &mut self,
        alloc: Global,
        user: &str,
        text: &str,
        line: u32,
    ) -> Result<(), ConfigError>
        ensures { Becomes (so_far self.new) result
            (set_to (ceiling user.now) text.now line (so_far self.old)) }
    {
        match small_within(0, MAX_CEILING, text) {
            Some(n) => {
                self.ceiling.set(alloc, user, n)?;
                Ok(())
            }
            None => Err(ConfigError::BadValue { line }),
        }
    }

    fn set_factor(
        &mut self,
        alloc: Global,
        user: &str,
        text: &str,
        line: u32,
    ) -> Result<(), ConfigError>
        ensures { Becomes (so_far self.new) result
            (set_to (prio_factor user.now) text.now line (so_far self.old)) }
    {
        match small_within(1, MAX_FACTOR, text) {
            Some(n) => {
                self.prio_factor.set(alloc, user, n)?;
                Ok(())
            }
            None => Err(ConfigError::BadValue { line }),
        }
    }

    // A machine begins behind all others.
    fn begin_machine(&mut self, alloc: Global, text: &str, line: u32) -> Result<(), ConfigError>
        ensures { Becomes (so_far self.new) result
            (pool_with PoolWord.Machine text.now line (so_far self.old)) }
    {
        self.keep_last()?;
        match self.config.check_machine(text, line) {
            Ok(()) => {
                let machine = Machine::plain(alloc, text)?;
                self.last = Some(machine);
                Ok(())
            }
            Err(error) => Err(error),
        }
    }

    // Puts the last machine behind the others.
    fn keep_last(&mut self) -> Result<(), Memory>
        ensures { OnOk result (
            so_far self.new ≡ record { config = whole (so_far self.old); last = None }) }
    {
        match self.last.take() {
            Some(machine) => self.config.machines.push(machine),
            None => Ok(()),
        }
    }

    /// Whether there is a machine. Computes in O(1).
    pub fn has_machine(&self) -> bool
        ensures { result ≡ is_some (so_far self.now).last }
    {
        match &self.last {
            Some(_) => true,
            None => false,
        }
    }

    /// Whether a key sets what a machine's slots have, and there is no machine yet. Computes in
    /// O(1).
    pub fn is_homeless(&self, key: Key<'_>) -> bool
        ensures { result ≡ is_homeless (sets_of key.entry) (so_far self.now) }
    {
        key.is_of_machine() && !self.has_machine()
    }

    /// All that is set, as a configuration. Computes in O(users).
    pub fn into_config(mut self, alloc: Global) -> Result<Config, ConfigError>
        ensures { UnlessMemory (λ q. q ≡ Ok (whole (so_far self))) (outcome result) }
    {
        self.finish(alloc)?;
        let Settings { config, .. } = self;
        Ok(config)
    }

    // Puts everything into the configuration.
    fn finish(&mut self, alloc: Global) -> Result<(), Memory>
        ensures { OnOk result (configuration_of self.new.config ≡ whole (so_far self.old)) }
    {
        self.keep_last()?;
        self.config.ceiling = self.ceiling.list(alloc)?;
        self.config.prio_factor = self.prio_factor.list(alloc)?;
        Ok(())
    }

    fn set_slots(
        &mut self,
        alloc: Global,
        word: SlotWord,
        text: &str,
        line: u32,
    ) -> Result<(), ConfigError>
        ensures { Becomes (so_far self.new) result
            (set_to (of_slots word) text.now line (so_far self.old)) }
    {
        let others = self.config.machines.as_slice();
        match &mut self.last {
            Some(machine) => machine.set(alloc, word, text, line, others),
            None => Err(ConfigError::BadLine { line }),
        }
    }

    fn set_attribute(
        &mut self,
        alloc: Global,
        name: &str,
        text: &str,
        line: u32,
    ) -> Result<(), ConfigError>
        ensures { Becomes (so_far self.new) result
            (set_to (attribute name.now) text.now line (so_far self.old)) }
    {
        match &mut self.last {
            Some(machine) => machine.set_attribute(alloc, name, text, line),
            None => Err(ConfigError::BadLine { line }),
        }
    }
}

impl Config {
    fn set_seconds(&mut self, interval: Interval, n: u64)
        ensures { configuration_of self.new ≡ with_seconds interval n (configuration_of self.old) }
    {
        match interval {
            Interval::ClassadLifetime => self.classad_lifetime = n,
            Interval::UpdateInterval => self.update_interval = n,
            Interval::NegotiatorInterval => self.negotiator_interval = n,
            Interval::AliveInterval => self.alive_interval = n,
            Interval::JobLease => self.job_lease = n,
            Interval::ClaimLease => self.claim_lease = n,
            Interval::MatchTimeout => self.match_timeout = n,
            Interval::PeriodicExprInterval => self.periodic_expr_interval = n,
            Interval::DecayTick => self.decay_tick = n,
            Interval::MaxJobRetirementTime => self.maxjobretirementtime = n,
            Interval::MachineMaxVacateTime => self.machinemaxvacatetime = n,
        }
    }

    // Whether a machine may begin behind the others.
    fn check_machine(&self, name: &str, line: u32) -> Result<(), ConfigError>
        ensures { result ≡ machine_check name.now line (configuration_of self.now).machines }
    {
        let machines = self.machines.as_slice();
        if is_unfit(machines, name) {
            return Err(ConfigError::BadValue { line });
        }
        if are_most(machines) {
            return Err(ConfigError::Machines { line });
        }
        if are_above(machines, 1) {
            return Err(ConfigError::Slots { line });
        }
        Ok(())
    }
}

// Whether a name is none of a machine, or that of another.
fn is_unfit(machines: &[Machine], name: &str) -> bool
    ensures { result ≡ is_unfit name.now (map machine_of machines.now) }
{
    !is_machine_name(name) || has_machine(machines, name)
}

// Whether a machine has that name, with case.
fn has_machine(machines: &[Machine], name: &str) -> bool
    ensures { result ≡ has_machine name.now (map machine_of machines.now) }
{
    is_named(machines, name)
}

fn is_named(machines: &[Machine], name: &str) -> bool
    ensures { result ≡ list_any (λ m. bytes_eq name.now m.name) machines.now }
{
    machines.iter().any(|machine| name == machine.name.as_str())
}

// Whether there are as many machines as may be.
fn are_most(machines: &[Machine]) -> bool
    ensures { result ≡ nat_le MAX_MACHINES (length (map machine_of machines.now)) }
{
    machines.len() >= MAX_MACHINES
}

/// Whether machines have, with so many slots more, too many of them. Computes in O(machines).
pub(crate) fn are_above(machines: &[Machine], more: u64) -> bool
    ensures { result ≡ nat_lt MAX_SLOTS (total_slots (map machine_of machines.now) + more) }
{
    let mut left = MAX_SLOTS as u64;
    for machine in machines {
        let slots = u64::from(machine.slots);
        if slots > left {
            return true;
        }
        left -= slots;
    }
    more > left
}
