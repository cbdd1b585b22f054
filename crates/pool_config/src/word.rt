// The names of a configuration that are one word.

ghost use Rattle.std.specs.Prelude.{◌≡◌, find};
ghost use Rattle.ad_value.specs.Names.{same_name};
ghost use Rattle.pool_config.specs.Names.{interval_name, pool_word_name, slot_word_name, pool_words, slot_words};

use crate::{Interval, PoolWord, SlotWord};

// All of them.
const POOL_WORDS: &[PoolWord] = &[
    PoolWord::Spool,
    PoolWord::Owner,
    PoolWord::Seconds(Interval::ClassadLifetime),
    PoolWord::Seconds(Interval::UpdateInterval),
    PoolWord::Seconds(Interval::NegotiatorInterval),
    PoolWord::Seconds(Interval::AliveInterval),
    PoolWord::Seconds(Interval::JobLease),
    PoolWord::Seconds(Interval::ClaimLease),
    PoolWord::Seconds(Interval::MatchTimeout),
    PoolWord::Seconds(Interval::PeriodicExprInterval),
    PoolWord::Seconds(Interval::DecayTick),
    PoolWord::Seconds(Interval::MaxJobRetirementTime),
    PoolWord::Seconds(Interval::MachineMaxVacateTime),
    PoolWord::PreemptionRequirements,
    PoolWord::Machine,
];

const SLOT_WORDS: &[SlotWord] = &[
    SlotWord::Slots,
    SlotWord::Cpus,
    SlotWord::Memory,
    SlotWord::Disk,
    SlotWord::Start,
    SlotWord::Rank,
];

// How a time is written.
fn interval_name(interval: Interval) -> &'static str
    ensures { result.now ≡ interval_name interval }
{
    match interval {
        Interval::ClassadLifetime => "CLASSAD_LIFETIME",
        Interval::UpdateInterval => "UPDATE_INTERVAL",
        Interval::NegotiatorInterval => "NEGOTIATOR_INTERVAL",
        Interval::AliveInterval => "ALIVE_INTERVAL",
        Interval::JobLease => "JOB_LEASE",
        Interval::ClaimLease => "CLAIM_LEASE",
        Interval::MatchTimeout => "MATCH_TIMEOUT",
        Interval::PeriodicExprInterval => "PERIODIC_EXPR_INTERVAL",
        Interval::DecayTick => "DECAY_TICK",
        Interval::MaxJobRetirementTime => "MAXJOBRETIREMENTTIME",
        Interval::MachineMaxVacateTime => "MACHINEMAXVACATETIME",
    }
}

// How a word of the pool is written.
fn pool_word_name(word: PoolWord) -> &'static str
    ensures { result.now ≡ pool_word_name word }
{
    match word {
        PoolWord::Spool => "SPOOL",
        PoolWord::Owner => "OWNER",
        PoolWord::Seconds(interval) => interval_name(interval),
        PoolWord::PreemptionRequirements => "PREEMPTION_REQUIREMENTS",
        PoolWord::Machine => "MACHINE",
    }
}

// How a word of a machine's slots is written.
fn slot_word_name(word: SlotWord) -> &'static str
    ensures { result.now ≡ slot_word_name word }
{
    match word {
        SlotWord::Slots => "SLOTS",
        SlotWord::Cpus => "CPUS",
        SlotWord::Memory => "MEMORY",
        SlotWord::Disk => "DISK",
        SlotWord::Start => "START",
        SlotWord::Rank => "RANK",
    }
}

/// What a word, without case, sets of the pool. Computes in O(bytes).
pub(crate) fn pool_word(name: &str) -> Option<PoolWord>
    ensures { result ≡ find (λ w. same_name name.now (pool_word_name w)) pool_words }
{
    POOL_WORDS
        .iter()
        .copied()
        .find(|word| name.eq_ignore_ascii_case(pool_word_name(*word)))
}

/// What a word, without case, sets of a machine's slots. Computes in O(bytes).
pub(crate) fn slot_word(name: &str) -> Option<SlotWord>
    ensures { result ≡ find (λ w. same_name name.now (slot_word_name w)) slot_words }
{
    SLOT_WORDS
        .iter()
        .copied()
        .find(|word| name.eq_ignore_ascii_case(slot_word_name(*word)))
}
