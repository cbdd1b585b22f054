ghost use Rattle.std.specs.Prelude.{◌≡◌, ◌↔◌, Some, IsTrue, slice_get};
ghost use Rattle.std.specs.Option.{option_map_or};
ghost use Rattle.ad_tree.specs.Tree.{tree};
ghost use Rattle.ad_tree.specs.Ad.{lookup, AreDistinct};
ghost use Rattle.queue_tx.specs.RequestDigests.{asked_digest, request_digest};
ghost use Rattle.queue_tx.specs.Requests.{is_asked, AgreesAt, AsksWithin, SameRequest};

use ad_rows::attribute_digest;
use ad_tree::{Ad, Expr};
use ad_value::names::is_run_name;
use ad_value::names::job::{
    ARGS, ARGUMENTS, CLUSTER_ID, CMD, ERR, IN, IWD, JOB_PRIO, JOB_STATUS, OUT, PROC_ID, Q_DATE,
    USER_LOG,
};
use ad_value::names::pool::HOLD_REASON;
use ad_value::same_name;

/// Whether the ads of two jobs make the same request: they agree in all attributes but those that
/// tell one job from another, or say where it stands. Takes no memory. Computes in O(attributes)
/// look-ups.
pub fn makes_same_request(one: &Ad, other: &Ad) -> bool
    ensures { IsTrue result ↔ SameRequest one.now other.now }
{
    asks_within(one, other) && asks_within(other, one)
}

// Whether one ad asks for nothing that another doesn't.
fn asks_within(one: &Ad, other: &Ad) -> bool
    ensures { IsTrue result ↔ AsksWithin one.now other.now }
{
    'places: for place in 0..one.len() {
        if !agrees_at(one, other, place) {
            return false;
        }
    }
    true
}

// Whether the attribute at a place isn't asked, or another ad has it too.
fn agrees_at(one: &Ad, other: &Ad, place: usize) -> bool
    ensures { IsTrue result ↔ AgreesAt other.now (slice_get one.now place) }
{
    match one.attribute(place) {
        Some((name, expr)) => !is_asked(name) || has(other, name, expr),
        None => true,
    }
}

fn has(ad: &Ad, name: &str, expr: &Expr) -> bool
    ensures { IsTrue result ↔ (lookup name.now ad.now ≡ Some (tree expr.now)) }
{
    match ad.get(name) {
        Some(other) => other.same(expr),
        None => false,
    }
}

// Whether jobs that make the same request agree in an attribute.
fn is_asked(name: &str) -> bool
    ensures { result ≡ is_asked name.now }
{
    !(same_name(name, CLUSTER_ID)
        || same_name(name, PROC_ID)
        || same_name(name, Q_DATE)
        || same_name(name, CMD)
        || same_name(name, ARGS)
        || same_name(name, ARGUMENTS)
        || same_name(name, IWD)
        || same_name(name, IN)
        || same_name(name, OUT)
        || same_name(name, ERR)
        || same_name(name, USER_LOG)
        || same_name(name, JOB_PRIO)
        || same_name(name, JOB_STATUS)
        || same_name(name, HOLD_REASON)
        || is_run_name(name))
}

// A number that ads which make the same request have in common.
#[tactic(auto, using(crate::proofs::RequestDigests::steps))]
pub(crate) fn request_digest(ad: &Ad) -> u64
    ensures digest { result ≡ request_digest ad.now }
    ensures distinct { AreDistinct ad.now }
{
    let mut digest = 0u64;
    for place in 0..ad.len() {
        digest = digest.wrapping_add(asked_digest(ad, place));
    }
    digest
}

// What the attribute at a place adds to it.
fn asked_digest(ad: &Ad, place: usize) -> u64
    ensures { result ≡ option_map_or asked_digest (slice_get ad.now place) 0 }
{
    match ad.attribute(place) {
        Some((name, expr)) if is_asked(name) => attribute_digest(name, expr),
        _ => 0,
    }
}
