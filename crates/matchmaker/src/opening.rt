//! In which order a cycle comes to submitters and requests.

ghost use Rattle.std.specs.Prelude.{◌≡◌, ◌<◌, IfOk, OnOk, map, length, []};
ghost use Rattle.std.specs.List.{All, AllZip};
ghost use Rattle.std.specs.List.Sorted.{IsPermutation, IsSortedBy};
ghost use Rattle.std.specs.Ordering.{is_lt};
ghost use Rattle.ad_value.specs.Content.{content};
ghost use Rattle.ad_eval.specs.Match.{rank_as};
ghost use Rattle.matchmaker.specs.Loops.{bidder_of};
ghost use Rattle.matchmaker.specs.Keyed.{keyed_cmp, IsKeyed};
ghost use Rattle.matchmaker.specs.Opening as opening;

use crate::course::{Account, Bidder};
use crate::snapshot::{Snapshot, Submitter};
use ad_eval::eval;
use ad_value::names::job::{JOB_PRIO, Q_DATE};
use ad_value::{Copied, Memory, Value};
use pool_mail::Request;
use std::alloc::Global;
use std::cmp::{Ordering, Reverse};
use std::collections::VecDeque;

// A request with what it is ordered by.
#[derive(Drop)]
struct Keyed {
    priority: i64,
    date: i64,
    request: Request,
}

// An integer, or 1 or 0 for a truth value; anything else counts 0.
fn number_of(value: &Value) -> i64
    ensures { result ≡ rank_as (content value.now) }
{
    match value {
        Value::Bool(b) => i64::from(*b),
        Value::Int(n) => *n,
        Value::Undefined | Value::Error | Value::Str(_) | Value::List(_) => 0,
    }
}

// A number of the request's ad alone.
fn number_in(alloc: Global, now: u64, request: &Request, name: &str) -> Result<i64, Memory>
    ensures { IfOk result (λ n. n ≡ opening.number_in now request.now name.now) }
{
    let value = eval(alloc, &request.ad, None, name, now)?;
    Ok(number_of(&value))
}

// An equal request with what it is ordered by.
fn keyed_request(alloc: Global, now: u64, request: &Request) -> Result<Keyed, Memory>
    ensures { IfOk result (λ k. (k.request ≡ request.now) × IsKeyed now k) }
{
    Ok(Keyed {
        priority: number_in(alloc, now, request, JOB_PRIO)?,
        date: number_in(alloc, now, request, Q_DATE)?,
        request: request.copy(alloc)?,
    })
}

// Requests with what they are ordered by.
fn all_keyed(alloc: Global, now: u64, requests: &[Request]) -> Result<Vec<Keyed>, Memory>
    ensures same { IfOk result (λ list. map (λ k. k.request) list.items ≡ requests.now) }
    ensures each { IfOk result (λ list. All (IsKeyed now) list.items) }
{
    let mut list = Vec::with_capacity(alloc, requests.len())?;
    for request in requests {
        let one = keyed_request(alloc, now, request)?;
        list.push(one)?;
    }
    Ok(list)
}

// The requests in order.
fn ordered_requests(
    alloc: Global,
    now: u64,
    requests: &[Request],
) -> Result<VecDeque<Request>, Memory>
    ensures same { IfOk result (λ left. IsPermutation requests.now left.items) }
    ensures sorted { IfOk result
        (λ left. IsSortedBy (λ r q. is_lt (opening.request_cmp now r q)) left.items) }
{
    let mut list = all_keyed(alloc, now, requests)?;
    sort_keyed(&mut list)?;
    let left = requests_of(alloc, list)?;
    Ok(left)
}

// Sorts by JobPrio, the greater first, then by QDate, then by job.
fn sort_keyed(list: &mut Vec<Keyed>) -> Result<(), Memory>
    ensures same { IsPermutation list.old.items list.new.items }
    ensures sorted { OnOk result (IsSortedBy (λ k l. is_lt (keyed_cmp k l)) list.new.items) }
{
    list.sort_by_key(|k| (Reverse(k.priority), k.date, k.request.job))?;
    Ok(())
}

// The requests alone.
fn requests_of(alloc: Global, list: Vec<Keyed>) -> Result<VecDeque<Request>, Memory>
    ensures { IfOk result (λ left. left.items ≡ map (λ k. k.request) list.items) }
{
    Ok(list.into_iter().map(|k| k.request).collect(alloc)?)
}

// A submitter with its requests in order.
fn bidder_of(alloc: Global, now: u64, submitter: &Submitter) -> Result<Bidder, Memory>
    ensures { IfOk result (λ b. opening.IsBidderOf now submitter.now (bidder_of b)) }
{
    Ok(Bidder {
        account: Account::of(alloc, submitter)?,
        left: ordered_requests(alloc, now, submitter.jobs.as_slice())?,
    })
}

// Which of two submitters comes first.
#[tactic(auto, unfolding(crate::specs::Opening::account_cmp))]
fn account_cmp(one: &Account, other: &Account) -> Ordering
    ensures { result ≡ opening.account_cmp one.now other.now }
{
    let names = one.user.as_str().cmp(other.user.as_str());
    one.effective.cmp(&other.effective).then(names)
}

// The submitters as they were given, each with its requests in order.
fn given_bidders(alloc: Global, now: u64, submitters: &[Submitter]) -> Result<Vec<Bidder>, Memory>
    ensures { IfOk result
        (λ bs. AllZip (opening.IsBidderOf now) submitters.now (map bidder_of bs.items)) }
{
    let mut bidders = Vec::new(alloc);
    for submitter in submitters {
        let one = bidder_of(alloc, now, submitter)?;
        bidders.push(one)?;
    }
    Ok(bidders)
}

// Sorts by effective priority, then by name.
fn sort_bidders(bidders: &mut Vec<Bidder>) -> Result<(), Memory>
    ensures same { IsPermutation bidders.old.items bidders.new.items }
    ensures sorted { OnOk result
        (IsSortedBy (λ b c. is_lt (opening.account_cmp b.account c.account)) bidders.new.items) }
{
    bidders.sort_by(|a, b| account_cmp(&a.account, &b.account))?;
    Ok(())
}

/// The submitters in order, by effective priority and then by name, each with its requests in
/// order, by JobPrio, QDate and job. Computes in O(requests × log requests), and in two evaluations
/// for each request.
pub fn bidders_of(alloc: Global, snapshot: &Snapshot) -> Result<Vec<Bidder>, Memory>
    ensures opening { IfOk result
        (λ bs. opening.IsOpening snapshot.entry.now (map bidder_of bs.items)) }
    ensures positive { All (λ b. 0 < b.effective) snapshot.entry.now.submitters
        → IfOk result (λ bs. All (λ b. 0 < b.account.effective) bs.items) }
    ensures as_many { IfOk result
        (λ bs. length bs.items ≡ length snapshot.entry.now.submitters) }
{
    let submitters = snapshot.submitters.as_slice();
    let mut bidders = given_bidders(alloc, snapshot.now, submitters)?;
    sort_bidders(&mut bidders)?;
    Ok(bidders)
}
