// The words that set something.

ghost use Rattle.std.specs.Prelude.{◌≡◌};
ghost use Rattle.pool_config.specs.Keys.{least_seconds};

/// A time that a configuration sets, in seconds.
#[derive(Clone, Copy)]
pub enum Interval {
    ClassadLifetime,
    UpdateInterval,
    NegotiatorInterval,
    AliveInterval,
    JobLease,
    ClaimLease,
    MatchTimeout,
    PeriodicExprInterval,
    DecayTick,
    MaxJobRetirementTime,
    MachineMaxVacateTime,
}

/// What a word sets of the pool.
#[derive(Clone, Copy)]
pub enum PoolWord {
    Spool,
    Owner,
    Seconds(Interval),
    PreemptionRequirements,
    /// It begins a machine.
    Machine,
}

/// What a word sets of a machine's slots.
#[derive(Clone, Copy)]
pub enum SlotWord {
    /// How many there are.
    Slots,
    Cpus,
    /// In MiB.
    Memory,
    /// In KiB.
    Disk,
    Start,
    Rank,
}

impl Interval {
    /// How short it may be, in seconds. Computes in O(1).
    pub(crate) fn least_seconds(self) -> u64
        ensures { result ≡ least_seconds self }
    {
        match self {
            Interval::MaxJobRetirementTime | Interval::MachineMaxVacateTime => 0,
            _ => 1,
        }
    }
}
