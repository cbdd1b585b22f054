// The names of the attributes that ads of jobs and slots have, each spelled once. Names are equal
// without ASCII case.

ghost use Rattle.std.specs.Prelude.{◌≡◌};
ghost use Rattle.std.specs.List.{list_any};
ghost use Rattle.ad_value.specs.Names.{same_name};
ghost use Rattle.ad_value.specs.Groups.{pool_names, run_names};

pub mod job;
pub mod matching;
pub mod pool;
pub mod slot;

use crate::name::same_name;
use crate::names::job::JOB_STATUS;
use crate::names::pool::{
    EXIT_BY_SIGNAL, EXIT_CODE, EXIT_SIGNAL, HOLD_REASON, LEASE_UNTIL, RUN_CLAIM, RUN_NUMBER,
};

/// Whether a job has the attribute only while it runs, without memory. Computes in O(1).
pub fn is_run_name(name: &str) -> bool
    ensures { result ≡ list_any (same_name name.now) run_names }
{
    same_name(name, RUN_CLAIM) || same_name(name, RUN_NUMBER) || same_name(name, LEASE_UNTIL)
}

/// Whether the pool itself sets the attribute of a job, without memory. Computes in O(1).
pub fn is_pool_name(name: &str) -> bool
    ensures { result ≡ list_any (same_name name.now) pool_names }
{
    same_name(name, JOB_STATUS)
        || same_name(name, HOLD_REASON)
        || same_name(name, EXIT_BY_SIGNAL)
        || same_name(name, EXIT_CODE)
        || same_name(name, EXIT_SIGNAL)
        || is_run_name(name)
}
