//! A cycle in which one request of each autocluster is judged.

ghost use Rattle.std.specs.Prelude.{◌≡◌, [], map, IfOk, OnOk};
ghost use Rattle.std.specs.List.{AllZip};
ghost use Rattle.auto_cluster.specs.Clustering.{IsNumbered, AreClusters};
ghost use Rattle.negotiate.specs.Parties as those;
ghost use Rattle.matchmaker.specs.Plain.{PlainCycle};
ghost use Rattle.matchmaker.specs.Snapshots.{IsSnapshot};

use crate::grouping::{Clustered, Lists};
use crate::parties::{Party, grouped_matches};
use ad_eval::Steps;
use ad_tree::AdList;
use ad_value::{Copied, Memory, Seq};
use auto_cluster::Clusters;
use auto_cluster::laws::agreeing_jobs_match_alike;
use matchmaker::{Bidder, Offer, Snapshot, bidders_of, matches_of};
use pool_mail::{MatchList, Request};
use std::alloc::Global;
use std::collections::VecDeque;
use std::sync::ledger::Ledger;

// The slots' ads.
fn slot_ads(alloc: Global, slots: &[Offer]) -> Result<AdList, Memory>
    ensures { IfOk result (λ ads. ads ≡ map (λ o. o.ad) slots.now) }
{
    let mut ads = Vec::with_capacity(alloc, slots.len())?;
    for slot in slots {
        let ad = slot.ad.copy(alloc)?;
        ads.push(ad)?;
    }
    Ok(Seq::from_vec(ads))
}

// A request with the number of its autocluster.
fn clustered(alloc: Global, request: Request, clusters: &mut Clusters) -> Result<Clustered, Memory>
    ensures request { IfOk result (λ r. r.request ≡ request) }
    ensures number { IfOk result
        (λ r. IsNumbered clusters.old clusters.new r.request.ad r.cluster) }
    ensures apart { IfOk result (λ r. AreClusters clusters.new.parts) }
{
    let cluster = clusters.cluster_of(alloc, &request.ad)?;
    Ok(Clustered {
        request,
        cluster: cluster as usize,
    })
}

// Requests with the numbers of their autoclusters.
fn all_clustered(
    alloc: Global,
    requests: VecDeque<Request>,
    clusters: &mut Clusters,
) -> Result<VecDeque<Clustered>, Memory>
    requires { clusters.old.parts ≡ [] }
    ensures same { IfOk result (λ left. those.requests_of left.items ≡ requests.items) }
    ensures clustered { IfOk result
        (λ left. those.IsClustered clusters.old.slots left.items clusters.new) }
{
    let mut requests = requests;
    let mut left = VecDeque::new(alloc);
    while let Some(request) = requests.pop_front() {
        let one = clustered(alloc, request, clusters)?;
        left.push_back(one)?;
    }
    Ok(left)
}

// No lists yet.
fn no_lists<'a>(alloc: Global, count: usize) -> Result<Lists<'a>, Memory>
    ensures { IfOk result (λ lists. those.AreUnmade lists.items count) }
{
    let mut lists = Vec::with_capacity(alloc, count)?;
    while lists.len() < count {
        lists.push(None)?;
    }
    Ok(lists)
}

// A submitter with its requests' autoclusters.
fn party_of<'a>(alloc: Global, bidder: Bidder, clusters: &mut Clusters) -> Result<Party<'a>, Memory>
    ensures party { IfOk result (those.IsPartyOf clusters.old.slots bidder) }
    ensures slots { OnOk result (clusters.new.slots ≡ clusters.old.slots) }
{
    clusters.clear();
    let Bidder { account, left } = bidder;
    let left = all_clustered(alloc, left, clusters)?;
    let lists = no_lists(alloc, clusters.len())?;
    Ok(Party {
        account,
        left,
        lists,
    })
}

// The submitters with their requests' autoclusters.
fn parties_of<'a>(
    alloc: Global,
    bidders: Vec<Bidder>,
    clusters: &mut Clusters,
) -> Result<Vec<Party<'a>>, Memory>
    ensures { IfOk result
        (λ ps. AllZip (those.IsPartyOf clusters.old.slots) bidders.items ps.items) }
{
    let mut parties = Vec::with_capacity(alloc, bidders.len())?;
    let mut bidders = queue_of(alloc, bidders)?;
    while let Some(bidder) = bidders.pop_front() {
        let party = party_of(alloc, bidder, clusters)?;
        parties.push(party)?;
    }
    Ok(parties)
}

fn queue_of(alloc: Global, bidders: Vec<Bidder>) -> Result<VecDeque<Bidder>, Memory>
    ensures { IfOk result (λ queue. queue.items ≡ bidders.items) }
{
    Ok(bidders.into_iter().collect(alloc)?)
}

/// The matches of a cycle, in the order in which they are made, as `plain_cycle` gives them. One
/// request of each submitter's autocluster is judged with each slot at most. Computes in
/// O(autoclusters × slots) judgements, in a `Clusters::cluster_of` for each request, and in
/// O(requests × slots) looks at slots, with two evaluations each where the slot has a holder. Each
/// look compares the slot with those that the cycle gave so far.
pub fn cycle<L: Ledger>(
    alloc: Global,
    snapshot: &Snapshot,
    steps: &mut Steps<L>,
) -> Result<MatchList, Memory>
    requires { IsSnapshot snapshot.now }
    ensures matches { IfOk result (PlainCycle snapshot.entry.now) }
    ensures judged { OnOk result (those.JudgesWithin snapshot.entry.now steps.old steps.new) }
{
    let bidders = bidders_of(alloc, snapshot)?;
    let slots = snapshot.slots.as_slice();
    let ads = slot_ads(alloc, slots)?;
    let mut clusters = Clusters::new(alloc, ads)?;
    let parties = parties_of(alloc, bidders, &mut clusters)?;
    agreeing_jobs_match_alike();
    let made = grouped_matches(alloc, snapshot, parties, steps)?;
    let matches = matches_of(alloc, &made)?;
    Ok(Seq::from_vec(matches))
}
