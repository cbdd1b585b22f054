//! Whether a slot is offered to a request, and matches it.

ghost use Rattle.std.specs.Prelude.{◌≡◌, IfOk, ◌+◌};
ghost use Rattle.matchmaker.specs.Offers as offers;

use crate::course::Account;
use crate::snapshot::{Holder, Offer, Snapshot};
use ad_eval::{Steps, holds_expr, matches, rank};
use ad_value::Memory;
use pool_mail::Request;
use std::alloc::Global;
use std::cmp::Ordering;
use std::sync::ledger::Ledger;

/// How a slot is offered to a request.
#[derive(Clone, Copy)]
pub enum Offering {
    /// Not at all.
    Withheld,
    /// It has no holder, or ranks the request above the job that has its claim.
    Plain,
    /// Its holder has a worse priority, and PREEMPTION_REQUIREMENTS holds.
    ByPriority,
}

// How a slot is offered to a request of the submitter.
#[tactic(auto, unfolding(crate::specs::Offers::offering_of))]
pub(crate) fn offering_of(
    alloc: Global,
    snapshot: &Snapshot,
    account: &Account,
    request: &Request,
    slot: &Offer,
) -> Result<Offering, Memory>
    ensures { IfOk result
        (λ o. o ≡ offers.offering_of snapshot.entry.now account.now request.now slot.now) }
{
    match &slot.holder {
        None => Ok(Offering::Plain),
        Some(holder) => offering_over(alloc, snapshot, account, request, slot, holder),
    }
}

// How a slot that has a holder is offered.
fn offering_over(
    alloc: Global,
    snapshot: &Snapshot,
    account: &Account,
    request: &Request,
    slot: &Offer,
    holder: &Holder,
) -> Result<Offering, Memory>
    ensures { IfOk result (λ o. o
        ≡ offers.offering_over snapshot.entry.now account.now request.now slot.now holder.now) }
{
    let rank = rank(alloc, &slot.ad, &request.ad, snapshot.now)?;
    match rank.cmp(&holder.rank) {
        Ordering::Greater => Ok(Offering::Plain),
        Ordering::Less => Ok(Offering::Withheld),
        Ordering::Equal => offering_by_priority(alloc, snapshot, account, request, slot, holder),
    }
}

// How a slot is offered that ranks the request as it ranks the job that has its claim.
fn offering_by_priority(
    alloc: Global,
    snapshot: &Snapshot,
    account: &Account,
    request: &Request,
    slot: &Offer,
    holder: &Holder,
) -> Result<Offering, Memory>
    ensures { IfOk result (λ o. o ≡ offers.offering_by_priority
        snapshot.entry.now account.now request.now slot.now holder.now) }
{
    if account.effective >= holder.effective {
        return Ok(Offering::Withheld);
    }
    let holds = holds_expr(
        alloc,
        &slot.ad,
        Some(&request.ad),
        &snapshot.preemption,
        snapshot.now,
    )?;
    if holds {
        Ok(Offering::ByPriority)
    } else {
        Ok(Offering::Withheld)
    }
}

/// Whether the slot is offered to the request of the submitter. Computes in two evaluations at
/// most.
#[tactic(auto, unfolding(crate::specs::Offers::is_offered))]
pub fn is_offered(
    alloc: Global,
    snapshot: &Snapshot,
    account: &Account,
    request: &Request,
    slot: &Offer,
) -> Result<bool, Memory>
    ensures { IfOk result
        (λ b. b ≡ offers.is_offered snapshot.entry.now account.now request.now slot.now) }
{
    match offering_of(alloc, snapshot, account, request, slot)? {
        Offering::Withheld => Ok(false),
        Offering::Plain | Offering::ByPriority => Ok(true),
    }
}

// Whether a match of them is by priority.
#[tactic(auto, unfolding(crate::specs::Offers::is_by_priority))]
pub(crate) fn is_by_priority(
    alloc: Global,
    snapshot: &Snapshot,
    account: &Account,
    request: &Request,
    slot: &Offer,
) -> Result<bool, Memory>
    ensures { IfOk result
        (λ b. b ≡ offers.is_by_priority snapshot.entry.now account.now request.now slot.now) }
{
    match offering_of(alloc, snapshot, account, request, slot)? {
        Offering::ByPriority => Ok(true),
        Offering::Plain | Offering::Withheld => Ok(false),
    }
}

/// Whether the slot and the request match, by the Requirements of both. One step. Computes in two
/// evaluations.
#[tactic(auto, unfolding(crate::specs::Offers::fits))]
pub fn fits<L: Ledger>(
    alloc: Global,
    now: u64,
    request: &Request,
    slot: &Offer,
    steps: &mut Steps<L>,
) -> Result<bool, Memory>
    ensures fits { IfOk result (λ b. b ≡ offers.fits now request.now slot.now) }
    ensures step { steps.new ≡ steps.old + 1 }
{
    matches(alloc, &request.ad, &slot.ad, now, steps)
}

/// How the request ranks the slot. Computes in one evaluation.
#[tactic(auto, unfolding(crate::specs::Offers::rank_of_slot))]
pub fn rank_of_slot(alloc: Global, now: u64, request: &Request, slot: &Offer) -> Result<i64, Memory>
    ensures { IfOk result (λ n. n ≡ offers.rank_of_slot now request.now slot.now) }
{
    rank(alloc, &request.ad, &slot.ad, now)
}
