//! One request: which slots it may choose among, and which one it gets.

ghost use Rattle.std.specs.Prelude.{◌≡◌, Some, IfOk, option_copied};
ghost use Rattle.std.specs.List.{list_any};
ghost use Rattle.matchmaker.specs.Cycle as cycle;
ghost use Rattle.matchmaker.specs.Loops as loops;

use crate::course::{Account, Made};
use crate::offering::{fits, is_by_priority, is_offered, rank_of_slot};
use crate::snapshot::{Offer, Snapshot};
use ad_eval::Steps;
use ad_value::{Copied, Memory};
use claim_id::SlotId;
use pool_mail::{Match, Request};
use std::alloc::Global;
use std::cmp::Ordering;
use std::sync::ledger::Ledger;

pub(crate) fn is_slot(a: SlotId, b: SlotId) -> bool
    ensures { result ≡ cycle.same_slot a b }
{
    a.machine == b.machine && a.slot == b.slot
}

// Whether a match names the slot.
fn is_named(made: &[Made], slot: SlotId) -> bool
    ensures { result ≡ list_any (λ m. cycle.same_slot m.slot slot) made.now }
{
    made.iter().any(|m| is_slot(m.slot, slot))
}

/// Whether no match names the slot. Computes in O(matches), without memory.
#[tactic(auto, unfolding(crate::specs::Cycle::is_unmatched))]
pub fn is_unmatched(made: &[Made], slot: &Offer) -> bool
    ensures { result ≡ cycle.is_unmatched made.now slot.now }
{
    !is_named(made, slot.slot)
}

// Whether a request may choose the slot: it is unmatched, is offered to it and matches it. At most
// one step.
#[tactic(auto, unfolding(crate::specs::Cycle::may_choose))]
fn may_choose<L: Ledger>(
    alloc: Global,
    snapshot: &Snapshot,
    account: &Account,
    made: &[Made],
    request: &Request,
    slot: &Offer,
    steps: &mut Steps<L>,
) -> Result<bool, Memory>
    ensures { IfOk result
        (λ b. b ≡ cycle.may_choose snapshot.entry.now account.now made.now request.now slot.now) }
{
    if !is_unmatched(made, slot) || !is_offered(alloc, snapshot, account, request, slot)? {
        return Ok(false);
    }
    fits(alloc, snapshot.now, request, slot, steps)
}

/// Which of two slots comes first for a request that ranks each so: the one of the greater rank,
/// then the one without holder, then the one of the least name. Computes in O(bytes of the names),
/// without memory.
#[tactic(auto, unfolding(crate::specs::Cycle::choice_order))]
pub fn choice_order(one: &Offer, rank: i64, other: &Offer, other_rank: i64) -> Ordering
    ensures { result ≡ cycle.choice_order
        (record { slot = one.now; rank = rank })
        (record { slot = other.now; rank = other_rank }) }
{
    let holders = one.holder.is_some().cmp(&other.holder.is_some());
    let names = one.name.as_str().cmp(other.name.as_str());
    other_rank.cmp(&rank).then(holders.then(names))
}

// Whether a request would rather have the slot `one`.
#[tactic(auto, unfolding(crate::specs::Cycle::goes_before))]
fn goes_before(
    alloc: Global,
    now: u64,
    request: &Request,
    one: &Offer,
    other: &Offer,
) -> Result<bool, Memory>
    ensures { IfOk result (λ b. b ≡ cycle.goes_before now request.now one.now other.now) }
{
    let rank = rank_of_slot(alloc, now, request, one)?;
    let other_rank = rank_of_slot(alloc, now, request, other)?;
    Ok(choice_order(one, rank, other, other_rank).is_lt())
}

// The better of the best slot so far and one more.
fn better<'a>(
    alloc: Global,
    now: u64,
    request: &Request,
    best: Option<&'a Offer>,
    slot: &'a Offer,
) -> Result<&'a Offer, Memory>
    ensures { IfOk result (λ o. o.now
        ≡ loops.better now request.now (option_copied best.entry) slot.now) }
{
    let Some(best) = best else {
        return Ok(slot);
    };
    if goes_before(alloc, now, request, slot, best)? {
        Ok(slot)
    } else {
        Ok(best)
    }
}

// The slot that a request gets.
pub(crate) fn choice<'a, L: Ledger>(
    alloc: Global,
    snapshot: &'a Snapshot,
    account: &Account,
    made: &[Made],
    request: &Request,
    steps: &mut Steps<L>,
) -> Result<Option<&'a Offer>, Memory>
    ensures { IfOk result (λ o. option_copied o
        ≡ cycle.choice snapshot.entry.now account.now made.now request.now) }
{
    let mut best: Option<&'a Offer> = None;
    let slots = snapshot.slots.as_slice();
    for slot in slots {
        if may_choose(alloc, snapshot, account, made, request, slot, steps)? {
            best = Some(better(alloc, snapshot.now, request, best, slot)?);
        }
    }
    Ok(best)
}

/// The match of a request and the slot that it gets. Computes in two evaluations at most, and in
/// O(bytes of the name).
pub fn match_of(
    alloc: Global,
    snapshot: &Snapshot,
    account: &Account,
    request: &Request,
    slot: &Offer,
) -> Result<Made, Memory>
    ensures { IfOk result
        (λ m. m ≡ cycle.match_of snapshot.entry.now account.now request.now slot.now) }
{
    let by_priority = is_by_priority(alloc, snapshot, account, request, slot)?;
    Ok(Made {
        user: account.user.copy(alloc)?,
        slot: slot.slot,
        matched: Match {
            job: request.job,
            claim: slot.claim,
            by_priority,
        },
    })
}
