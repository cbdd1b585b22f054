//! A turn in which one request of each autocluster is judged: the others use its list.

ghost use Rattle.std.specs.Prelude.{◌≡◌, ◌+◌, ◌≤◌, ◌<◌, ◌&&◌, length, map, if◌then◌else◌, Some, None, IfOk, OnOk, get_or, set, Vec, option_copied};
ghost use Rattle.std.specs.Option.{is_some, option_map};
ghost use Rattle.std.specs.Global.{Global as TheGlobal};
ghost use Rattle.negotiate.specs.declared.grouping.Kept.{Kept as AKept};
ghost use Rattle.matchmaker.specs.Cycle as cycle;
ghost use Rattle.matchmaker.specs.Offers as offers;
ghost use Rattle.negotiate.specs.Grouped as grouped;

use ad_eval::Steps;
use ad_value::Memory;
use matchmaker::{
    Account, Made, Offer, Snapshot, choice_order, fits, is_offered, is_unmatched, match_of,
    rank_of_slot,
};
use pool_mail::Request;
use std::alloc::Global;
use std::collections::VecDeque;
use std::sync::ledger::Ledger;

/// A slot that matches the requests of an autocluster, with the rank that they give it.
#[derive(Clone, Copy)]
pub struct Kept<'a> {
    pub slot: &'a Offer,
    pub rank: i64,
}

/// A request with the number of its autocluster.
#[derive(Drop)]
pub struct Clustered {
    pub request: Request,
    pub cluster: usize,
}

// A list for each autocluster, once it was judged.
pub(crate) type Lists<'a> = Vec<Option<Vec<Kept<'a>>>>;

// What a list keeps of a slot: nothing where a match names it, and then it is not judged.
fn kept_now<'a, L: Ledger>(
    alloc: Global,
    snapshot: &Snapshot,
    made: &[Made],
    request: &Request,
    slot: &'a Offer,
    steps: &mut Steps<L>,
) -> Result<Option<Kept<'a>>, Memory>
    ensures kept { IfOk result (λ o. option_map grouped.ranked o
        ≡ (if grouped.fits_now snapshot.entry.now.now made.now request.now slot.now
        then Some (cycle.ranked_for snapshot.entry.now.now request.now slot.now)
        else None)) }
    ensures cost { steps.new ≤ steps.old + 1 }
{
    if !is_unmatched(made, slot) {
        return Ok(None);
    }
    if !fits(alloc, snapshot.now, request, slot, steps)? {
        return Ok(None);
    }
    let rank = rank_of_slot(alloc, snapshot.now, request, slot)?;
    Ok(Some(Kept { slot, rank }))
}

// The unmatched slots that match the request, with their ranks.
fn judge_all<'a, L: Ledger>(
    alloc: Global,
    snapshot: &'a Snapshot,
    made: &[Made],
    request: &Request,
    steps: &mut Steps<L>,
) -> Result<Vec<Kept<'a>>, Memory>
    ensures kept { IfOk result (λ v. grouped.all_ranked v.items
        ≡ grouped.list_for snapshot.entry.now.now snapshot.entry.now.slots made.now request.now) }
    ensures cost { IfOk result (λ v. steps.new ≤ steps.old + length snapshot.entry.now.slots) }
{
    let mut list = Vec::new(alloc);
    let slots = snapshot.slots.as_slice();
    for slot in slots {
        if let Some(kept) = kept_now(alloc, snapshot, made, request, slot, steps)? {
            list.push(kept)?;
        }
    }
    Ok(list)
}

// Whether a slot of a list is unmatched and offered to the request.
fn is_free(
    alloc: Global,
    snapshot: &Snapshot,
    account: &Account,
    made: &[Made],
    request: &Request,
    slot: &Offer,
) -> Result<bool, Memory>
    ensures { IfOk result (λ b. b ≡ (cycle.is_unmatched made.now slot.now
        && offers.is_offered snapshot.entry.now account.now request.now slot.now)) }
{
    if is_unmatched(made, slot) {
        is_offered(alloc, snapshot, account, request, slot)
    } else {
        Ok(false)
    }
}

// Whether a request would rather have the first slot.
fn kept_before(one: Kept<'_>, other: Kept<'_>) -> bool
    ensures { result
        ≡ grouped.kept_before (grouped.ranked one.entry) (grouped.ranked other.entry) }
{
    choice_order(one.slot, one.rank, other.slot, other.rank).is_lt()
}

// The better of the best so far and one more.
fn better_kept<'a>(best: Option<Kept<'a>>, kept: Kept<'a>) -> Kept<'a>
    ensures { grouped.ranked result
        ≡ grouped.better_kept (option_map grouped.ranked best.entry) (grouped.ranked kept.entry) }
{
    match best {
        None => kept,
        Some(best) => { if kept_before(kept, best) { kept } else { best } }
    }
}

fn slot_of<'a>(kept: Option<Kept<'a>>) -> Option<&'a Offer>
    ensures { option_copied result
        ≡ option_map (λ k. k.slot) (option_map grouped.ranked kept.entry) }
{
    match kept {
        None => None,
        Some(kept) => Some(kept.slot),
    }
}

// The slot that a request gets of its autocluster's list.
fn choice_in<'a>(
    alloc: Global,
    snapshot: &Snapshot,
    account: &Account,
    made: &[Made],
    request: &Request,
    list: &[Kept<'a>],
) -> Result<Option<&'a Offer>, Memory>
    ensures { IfOk result (λ o. option_copied o ≡ grouped.choice_in
        snapshot.entry.now account.now made.now request.now (grouped.all_ranked list.now)) }
{
    let mut best: Option<Kept<'a>> = None;
    for kept in list {
        if is_free(alloc, snapshot, account, made, request, kept.slot)? {
            best = Some(better_kept(best, *kept));
        }
    }
    Ok(slot_of(best))
}

fn put<'a>(lists: &mut Lists<'a>, cluster: usize, list: Vec<Kept<'a>>)
    requires { cluster < length lists.old.items }
    ensures { lists.new.items ≡ set lists.old.items cluster (Some list.entry) }
{
    lists[cluster] = Some(list);
}

fn has_list(lists: &[Option<Vec<Kept<'_>>>], cluster: usize) -> bool
    requires { cluster < length lists.now }
    ensures { result ≡ is_some (get_or lists.now cluster None) }
{
    lists[cluster].is_some()
}

// Judges the request with each unmatched slot, where its autocluster has no list yet.
fn see<'a, L: Ledger>(
    alloc: Global,
    snapshot: &'a Snapshot,
    made: &[Made],
    request: &Clustered,
    lists: &mut Lists<'a>,
    steps: &mut Steps<L>,
) -> Result<(), Memory>
    requires { request.now.cluster < length lists.old.items }
    ensures seen { OnOk result (grouped.Seen
        snapshot.entry.now made.now request.now lists.old.items lists.new.items) }
    ensures cost { OnOk result (grouped.CostsLists
        (length snapshot.entry.now.slots) lists.old.items lists.new.items steps.old steps.new) }
{
    if has_list(lists, request.cluster) {
        return Ok(());
    }
    let list = judge_all(alloc, snapshot, made, &request.request, steps)?;
    put(lists, request.cluster, list);
    Ok(())
}

// The slot that a request gets, by the list of its autocluster.
fn choice_at<'a>(
    alloc: Global,
    snapshot: &Snapshot,
    account: &Account,
    made: &[Made],
    request: &Clustered,
    lists: &[Option<Vec<Kept<'a>>>],
) -> Result<Option<&'a Offer>, Memory>
    requires { request.now.cluster < length lists.now }
    ensures { (v : Vec AKept TheGlobal)
        → get_or lists.now request.now.cluster None ≡ Some v
        → IfOk result (λ o. option_copied o ≡ grouped.choice_in
        snapshot.entry.now account.now made.now request.now.request
        (grouped.all_ranked v.items)) }
{
    match &lists[request.cluster] {
        None => Ok(None),
        Some(list) => choice_in(alloc, snapshot, account, made, &request.request, list),
    }
}

// The slot that a request gets, once its autocluster has a list.
fn place<'a, L: Ledger>(
    alloc: Global,
    snapshot: &'a Snapshot,
    account: &Account,
    made: &[Made],
    request: &Clustered,
    lists: &mut Lists<'a>,
    steps: &mut Steps<L>,
) -> Result<Option<&'a Offer>, Memory>
    requires within { request.now.cluster < length lists.old.items }
    requires serves { (v : Vec AKept TheGlobal)
        → get_or lists.old.items request.now.cluster None ≡ Some v
        → grouped.Serves snapshot.now.now snapshot.now.slots
        made.now request.now.request (grouped.all_ranked v.items) }
    ensures choice { IfOk result (λ o. option_copied o
        ≡ cycle.choice snapshot.entry.now account.now made.now request.now.request) }
    ensures seen { OnOk result (grouped.Seen
        snapshot.entry.now made.now request.now lists.old.items lists.new.items) }
    ensures cost { OnOk result (grouped.CostsLists
        (length snapshot.entry.now.slots) lists.old.items lists.new.items steps.old steps.new) }
{
    see(alloc, snapshot, made, request, lists, steps)?;
    let chosen = choice_at(alloc, snapshot, account, made, request, lists)?;
    Ok(chosen)
}

// Takes the submitter's requests in order, as `turn` does, and judges one request of each
// autocluster.
pub(crate) fn grouped_turn<'a, L: Ledger>(
    alloc: Global,
    snapshot: &'a Snapshot,
    account: &Account,
    most: u64,
    left: &mut VecDeque<Clustered>,
    lists: &mut Lists<'a>,
    made: &mut Vec<Made>,
    steps: &mut Steps<L>,
) -> Result<(), Memory>
    requires { grouped.Tables
        snapshot.now made.old.items lists.old.items left.old.items }
    ensures turned { OnOk result ((map (λ r. r.request) left.new.items, made.new.items)
        ≡ cycle.turn snapshot.entry.now account.now most
        (map (λ r. r.request) left.old.items) made.old.items) }
    ensures tables { OnOk result (grouped.Tables
        snapshot.entry.now made.new.items lists.new.items left.new.items) }
    ensures cost { OnOk result (grouped.CostsLists
        (length snapshot.entry.now.slots) lists.old.items lists.new.items steps.old steps.new) }
{
    let mut most = most;
    while most > 0 {
        let Some(request) = left.pop_front() else {
            return Ok(());
        };
        let chosen = place(alloc, snapshot, account, made, &request, lists, steps)?;
        if let Some(slot) = chosen {
            let one = match_of(alloc, snapshot, account, &request.request, slot)?;
            made.push(one)?;
            most -= 1;
        }
    }
    Ok(())
}
