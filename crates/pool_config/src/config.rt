// Configurations.

ghost use Rattle.std.specs.Prelude.{◌≡◌, IfOk};
ghost use Rattle.pool_config.specs.Configuration.{configuration_of, machine_of, plain_configuration, plain_machine};

use ad_tree::{Ad, Expr};
use ad_value::{Memory, Seq, Text, UserNumberList, Value};
use std::alloc::Global;

/// How many machines a configuration may have.
pub const MAX_MACHINES: usize = 64;

/// How many slots all machines may have.
pub const MAX_SLOTS: usize = 256;

/// How many attributes of its own a machine may give its slots.
pub const MAX_MACHINE_ATTRIBUTES: usize = 240;

/// What a configuration says (HTCondor manual, Configuration Macros; HTCondor's names, where it has
/// them). Times are in seconds.
pub struct Config {
    /// What is put before the names of the pool's files; none where it is not set.
    pub spool: Option<Text>,
    /// Whose the jobs are whose file names no owner.
    pub owner: Text,
    /// How long the collector keeps an ad.
    pub classad_lifetime: u64,
    /// After which time a slot tells the collector of itself again.
    pub update_interval: u64,
    /// The time from one negotiation cycle to the next.
    pub negotiator_interval: u64,
    /// After which time the lease of a running job is lengthened.
    pub alive_interval: u64,
    /// How long the lease of a run is, where its job does not say.
    pub job_lease: u64,
    /// After which time a claim that is not heard of ends.
    pub claim_lease: u64,
    /// After which time a match that is not claimed lapses.
    pub match_timeout: u64,
    /// The time from one look at a job's periodic expressions to the next.
    pub periodic_expr_interval: u64,
    /// The step of the decay of user priorities.
    pub decay_tick: u64,
    /// How long a preempted job may run on.
    pub maxjobretirementtime: u64,
    /// How long a job may take to leave its slot.
    pub machinemaxvacatetime: u64,
    /// Which jobs may preempt which, by priority.
    pub preemption_requirements: Expr,
    /// How many slots a user may have at once, at most 256, in the order of the users' first lines.
    pub ceiling: UserNumberList,
    /// A user's priority factor, from 1 to 1000000, in the order of the users' first lines.
    pub prio_factor: UserNumberList,
    /// From 1 to `MAX_MACHINES`.
    pub machines: MachineList,
}

impl Drop for Config {
    fn drop(self) {
        let Config {
            spool: _spool,
            owner: _owner,
            classad_lifetime: _,
            update_interval: _,
            negotiator_interval: _,
            alive_interval: _,
            job_lease: _,
            claim_lease: _,
            match_timeout: _,
            periodic_expr_interval: _,
            decay_tick: _,
            maxjobretirementtime: _,
            machinemaxvacatetime: _,
            preemption_requirements,
            ceiling: _ceiling,
            prio_factor: _prio_factor,
            machines: _machines,
        } = self;
        discard(preemption_requirements);
    }
}

/// A machine, and what each of its slots has.
pub struct Machine {
    /// No other machine has it, with case.
    pub name: Text,
    /// How many slots, from 1.
    pub slots: u32,
    pub cpus: u32,
    /// In MiB.
    pub memory: u32,
    /// In KiB.
    pub disk: u32,
    /// Which jobs the slots start.
    pub start: Expr,
    /// Which jobs the slots prefer.
    pub rank: Expr,
    /// The slots' further attributes, at most `MAX_MACHINE_ATTRIBUTES`.
    pub attrs: Ad,
}

impl Drop for Machine {
    fn drop(self) {
        let Machine {
            name: _name,
            slots: _,
            cpus: _,
            memory: _,
            disk: _,
            start,
            rank,
            attrs: _attrs,
        } = self;
        discard(start);
        discard(rank);
    }
}

// Ends an expression. Its drop is large, and so it is proved here alone.
pub(crate) fn discard(_: Expr) {}

/// A list of machines.
pub type MachineList = Seq<Machine>;

impl Config {
    /// What holds where nothing is set, without machines. Computes in O(1).
    pub(crate) fn plain(alloc: Global) -> Result<Config, Memory>
        ensures { IfOk result (λ c. configuration_of c ≡ plain_configuration) }
    {
        Ok(Config {
            spool: None,
            owner: Text::from_str(alloc, "user")?,
            classad_lifetime: 900,
            update_interval: 300,
            negotiator_interval: 60,
            alive_interval: 300,
            job_lease: 2400,
            claim_lease: 2400,
            match_timeout: 120,
            periodic_expr_interval: 60,
            decay_tick: 84,
            maxjobretirementtime: 0,
            machinemaxvacatetime: 600,
            preemption_requirements: Expr::Lit(Value::Bool(false)),
            ceiling: Seq::new(alloc),
            prio_factor: Seq::new(alloc),
            machines: Seq::new(alloc),
        })
    }
}

impl Machine {
    /// A machine of which only the name is set. Computes in O(bytes of the name).
    pub(crate) fn plain(alloc: Global, name: &str) -> Result<Machine, Memory>
        ensures { IfOk result (λ m. machine_of m ≡ plain_machine name.now) }
    {
        Ok(Machine {
            name: Text::from_str(alloc, name)?,
            slots: 1,
            cpus: 1,
            memory: 1024,
            disk: 1_048_576,
            start: Expr::Lit(Value::Bool(true)),
            rank: Expr::Lit(Value::Int(0)),
            attrs: Ad::new(alloc),
        })
    }
}
