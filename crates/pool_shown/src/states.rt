// How the ad of a job says that it stands.

ghost use Rattle.std.specs.Prelude.{◌≡◌, ℕ, List, Option};
ghost use Rattle.ad_tree.specs.Tree.{tree};
ghost use Rattle.claim_id.specs.declared.numbers.ClaimId.{ClaimId};
ghost use Rattle.schedd_state.specs.Reopening.{IsReader, claim_in, claim_in_tree};
ghost use Rattle.pool_shown.specs.ShownJobs.{run_in, shown_state, under_state};

use ad_tree::{Ad, Expr};
use ad_value::Value;
use ad_value::names::pool::RUN_CLAIM;
use claim_id::{ClaimId, RunNo};
use pool_view::State;
use queue_tx::{JobKind, kind_of};
use schedd_plan::{lease_until, run_number};

fn claim_of_text(text: &str) -> Option<ClaimId>
    ensures { (read : List ℕ → Option ClaimId) → IsReader read → result ≡ read text.now }
{
    ClaimId::read(text).ok()
}

fn claim_in_tree(expr: &Expr) -> Option<ClaimId>
    ensures { (read : List ℕ → Option ClaimId) → IsReader read
        → result ≡ claim_in_tree read (tree expr.now) }
{
    match expr {
        Expr::Lit(Value::Str(text)) => claim_of_text(text.as_str()),
        _ => None,
    }
}

fn claim_in(ad: &Ad) -> Option<ClaimId>
    ensures { (read : List ℕ → Option ClaimId) → IsReader read
        → result ≡ claim_in read ad.now }
{
    claim_in_tree(ad.get(RUN_CLAIM)?)
}

fn run_in(ad: &Ad) -> Option<RunNo>
    ensures { (read : List ℕ → Option ClaimId) → IsReader read → result ≡ run_in read ad.now }
{
    let claim = claim_in(ad)?;
    let number = run_number(ad)?;
    Some(RunNo {
        claim: claim.no,
        number,
    })
}

fn under_state(ad: &Ad) -> Option<State>
    ensures { (read : List ℕ → Option ClaimId) → IsReader read
        → result ≡ under_state read ad.now }
{
    let run = run_in(ad)?;
    let end = lease_until(ad)?;
    Some(State::Under { run, end })
}

/// How a job stands by its ad, where it was left by an earlier boot of the pool or not; none where
/// the ad is no job's, or is under a claim and names no run or no end of its lease. Computes as
/// `Ad::get`, without memory.
pub fn state_of_ad(ad: &Ad, left: bool) -> Option<State>
    ensures { (read : List ℕ → Option ClaimId) → IsReader read
        → result ≡ shown_state read left ad.now }
{
    match kind_of(ad) {
        Some(JobKind::Idle) => Some(State::Idle),
        Some(JobKind::Held) => Some(State::Held),
        Some(JobKind::Under) => {
            if left {
                Some(State::Left)
            } else {
                under_state(ad)
            }
        }
        None => None,
    }
}
