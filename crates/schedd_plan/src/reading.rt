// What a schedd reads of a job's ad.

ghost use Rattle.std.specs.Prelude.{◌≡◌};
ghost use Rattle.ad_tree.specs.Tree.{tree};
ghost use Rattle.schedd_plan.specs.JobAttributes.{status_of, reason_of, lease_until, run_number, natural, natural_in, status_in, reason_in, natural_at};

use crate::reason::Reason;
use crate::status::{JobStatus, status_numbered};
use ad_tree::{Ad, Expr};
use ad_value::Value;
use ad_value::names::job::JOB_STATUS;
use ad_value::names::pool::{HOLD_REASON, LEASE_UNTIL, RUN_NUMBER};

/// What the job's JobStatus says, a literal integer. Takes no memory. Computes as `Ad::get`.
pub fn status_of(ad: &Ad) -> JobStatus
    ensures { result ≡ status_of ad.now }
{
    match ad.get(JOB_STATUS) {
        Some(expr) => status_in(expr),
        None => JobStatus::Other,
    }
}

fn status_in(expr: &Expr) -> JobStatus
    ensures { result ≡ status_in (tree expr.now) }
{
    match expr {
        Expr::Lit(Value::Int(number)) => status_numbered(*number),
        _ => JobStatus::Other,
    }
}

/// Why the job is held, by its HoldReason; words that the schedd doesn't write count as a user's.
/// Takes no memory. Computes as `Ad::get`.
pub fn reason_of(ad: &Ad) -> Reason
    ensures { result ≡ reason_of ad.now }
{
    match ad.get(HOLD_REASON) {
        Some(expr) => reason_in(expr),
        None => Reason::ByCommand,
    }
}

fn reason_in(expr: &Expr) -> Reason
    ensures { result ≡ reason_in (tree expr.now) }
{
    match expr {
        Expr::Lit(Value::Str(words)) => Reason::worded(words.as_str()),
        _ => Reason::ByCommand,
    }
}

/// When the lease of the job's run ends, in seconds since 1970; none where LeaseUntil is no literal
/// integer. Takes no memory. Computes as `Ad::get`.
pub fn lease_until(ad: &Ad) -> Option<u64>
    ensures { result ≡ lease_until ad.now }
{
    natural_at(ad, LEASE_UNTIL)
}

/// The number of the job's run; none where RunNumber is no literal integer. Takes no memory.
/// Computes as `Ad::get`.
pub fn run_number(ad: &Ad) -> Option<u64>
    ensures { result ≡ run_number ad.now }
{
    natural_at(ad, RUN_NUMBER)
}

/// The literal integer under a name, where it is at least 0. Takes no memory. Computes as
/// `Ad::get`.
pub fn natural_at(ad: &Ad, name: &str) -> Option<u64>
    ensures { result ≡ natural_at name.now ad.now }
{
    natural_in(ad.get(name)?)
}

fn natural_in(expr: &Expr) -> Option<u64>
    ensures { result ≡ natural_in (tree expr.now) }
{
    match expr {
        Expr::Lit(Value::Int(number)) => natural(*number),
        _ => None,
    }
}

/// The number, where it is at least 0. Computes in O(1).
pub fn natural(number: i64) -> Option<u64>
    ensures { result ≡ natural number }
{
    if number < 0 {
        None
    } else {
        Some(number.unsigned_abs())
    }
}
