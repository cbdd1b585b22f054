// What a name of a configuration sets.

ghost use Rattle.std.specs.Prelude.{◌≡◌};
ghost use Rattle.std.specs.List.{list_any};
ghost use Rattle.std.specs.Option.{option_map};
ghost use Rattle.ad_value.specs.Names.{same_name};
ghost use Rattle.pool_config.specs.Keys.{sets_of};
ghost use Rattle.pool_config.specs.Names.{name_sets, word_sets, dotted_sets, attribute_sets, user_sets, slot_sets, is_taken, slot_attributes, job_attributes};

use crate::Key;
use crate::line::cut_at;
use crate::word::{pool_word, slot_word};
use ad_token::is_name;
use ad_value::names::is_pool_name;
use ad_value::names::job::{
    ARGS, ARGUMENTS, CLUSTER_ID, CMD, ERR, IN, IWD, JOB_LEASE_DURATION, JOB_PRIO, JOB_UNIVERSE,
    ON_EXIT_HOLD, ON_EXIT_REMOVE, OUT, OWNER, PERIODIC_HOLD, PERIODIC_RELEASE, PERIODIC_REMOVE,
    PROC_ID, Q_DATE, REQUEST_CPUS, REQUEST_DISK, REQUEST_MEMORY, USER_LOG,
};
use ad_value::names::matching::{RANK, REQUIREMENTS};
use ad_value::names::slot::{
    ARCH, CPUS, DISK, MACHINE, MEMORY, MY_TYPE, NAME, OP_SYS, SLOT_ID, START,
};

// What a slot's ad has from the pool.
const SLOT_ATTRIBUTES: &[&str] = &[
    MY_TYPE,
    NAME,
    MACHINE,
    SLOT_ID,
    OP_SYS,
    ARCH,
    CPUS,
    MEMORY,
    DISK,
    START,
    REQUIREMENTS,
    RANK,
];

// What a job's ad has from its submission on, beside Requirements, Rank and JobStatus.
const JOB_ATTRIBUTES: &[&str] = &[
    CLUSTER_ID,
    PROC_ID,
    OWNER,
    Q_DATE,
    JOB_UNIVERSE,
    CMD,
    ARGS,
    ARGUMENTS,
    IWD,
    IN,
    OUT,
    ERR,
    USER_LOG,
    JOB_PRIO,
    REQUEST_CPUS,
    REQUEST_MEMORY,
    REQUEST_DISK,
    JOB_LEASE_DURATION,
    ON_EXIT_HOLD,
    ON_EXIT_REMOVE,
    PERIODIC_HOLD,
    PERIODIC_REMOVE,
    PERIODIC_RELEASE,
];

/// What a name sets; none for a name that a configuration does not have. Computes in O(bytes).
pub(crate) fn key_of(name: &str) -> Option<Key<'_>>
    ensures { option_map sets_of result ≡ name_sets name.now }
{
    match cut_at(name, '.') {
        Some((prefix, rest)) => dotted_key(prefix, rest),
        None => word_key(name),
    }
}

fn word_key<'a>(name: &'a str) -> Option<Key<'a>>
    ensures { option_map sets_of result ≡ word_sets name.now }
{
    match pool_word(name) {
        Some(word) => Some(Key::Pool(word)),
        None => slot_key(name),
    }
}

fn slot_key<'a>(name: &'a str) -> Option<Key<'a>>
    ensures { option_map sets_of result ≡ slot_sets name.now }
{
    match slot_word(name) {
        Some(word) => Some(Key::Slots(word)),
        None => None,
    }
}

// What a prefix before a dot and the rest after it set.
fn dotted_key<'a>(prefix: &'a str, rest: &'a str) -> Option<Key<'a>>
    ensures { option_map sets_of result ≡ dotted_sets prefix.now rest.now }
{
    if prefix.eq_ignore_ascii_case("ATTR") {
        attribute_key(rest)
    } else if rest.is_empty() {
        None
    } else {
        user_key(prefix, rest)
    }
}

fn user_key<'a>(prefix: &'a str, user: &'a str) -> Option<Key<'a>>
    ensures { option_map sets_of result ≡ user_sets prefix.now user.now }
{
    if prefix.eq_ignore_ascii_case("CEILING") {
        Some(Key::Ceiling(user))
    } else if prefix.eq_ignore_ascii_case("PRIO_FACTOR") {
        Some(Key::PrioFactor(user))
    } else {
        None
    }
}

fn attribute_key(name: &str) -> Option<Key<'_>>
    ensures { option_map sets_of result ≡ attribute_sets name.now }
{
    if is_name(name) && !is_taken(name) {
        Some(Key::Attribute(name))
    } else {
        None
    }
}

// Whether the pool gives slots or jobs an attribute of that name.
fn is_taken(name: &str) -> bool
    ensures { result ≡ is_taken name.now }
{
    is_slot_attribute(name) || is_job_attribute(name) || is_pool_name(name)
}

fn is_slot_attribute(name: &str) -> bool
    ensures { result ≡ list_any (same_name name.now) slot_attributes }
{
    is_among(SLOT_ATTRIBUTES, name)
}

fn is_job_attribute(name: &str) -> bool
    ensures { result ≡ list_any (same_name name.now) job_attributes }
{
    is_among(JOB_ATTRIBUTES, name)
}

fn is_among(names: &[&str], name: &str) -> bool
    ensures { result ≡ list_any (λ other. same_name name.now other.now) names.now }
{
    names.iter().any(|other| name.eq_ignore_ascii_case(other))
}
