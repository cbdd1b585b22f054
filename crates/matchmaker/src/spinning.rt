//! A spin: its shares, and a turn for each submitter.

ghost use Rattle.std.specs.Prelude.{◌≡◌, ◌+◌, ◌*◌, ◌^◌, ◌≤◌, ◌<◌, map, max, length, OnOk};
ghost use Rattle.std.specs.List.{All, sum_by};
ghost use Rattle.matchmaker.specs.Cycle as cycle;
ghost use Rattle.matchmaker.specs.Loops as loops;

use crate::bidding::{is_below_ceiling, turn, under_ceiling};
use crate::choosing::is_unmatched;
use crate::course::{Account, Bidder, Made};
use crate::snapshot::{Offer, Snapshot};
use crate::{MAX_SLOTS, MAX_USERS};
use ad_eval::Steps;
use ad_value::Memory;
use std::alloc::Global;
use std::sync::ledger::Ledger;

// How many of the slots no match names.
#[tactic(auto, unfolding(crate::specs::Cycle::unmatched))]
fn count_unmatched(slots: &[Offer], made: &[Made]) -> usize
    ensures count { result ≡ cycle.unmatched slots.now made.now }
    ensures within { result ≤ length slots.now }
{
    slots.iter().filter(|o| is_unmatched(made, o)).count()
}

/// How many of the snapshot's slots no match names. Computes in O(slots × matches), without memory.
pub fn unmatched(snapshot: &Snapshot, made: &[Made]) -> u64
    ensures count { result ≡ cycle.unmatched snapshot.entry.now.slots made.now }
    ensures within { result ≤ length snapshot.entry.now.slots }
{
    let slots = snapshot.slots.as_slice();
    count_unmatched(slots, made) as u64
}

// Whether the submitter takes part in a spin.
#[tactic(auto, unfolding(crate::specs::Cycle::takes_part, crate::specs::Cycle::has_left))]
pub(crate) fn takes_part(bidder: &Bidder, made: &[Made]) -> bool
    ensures { result ≡ cycle.takes_part made.now (loops.bidder_of bidder.now) }
{
    !bidder.left.is_empty() && is_below_ceiling(&bidder.account, made)
}

/// What a submitter's share is in proportion to. Computes in O(1), without memory.
#[tactic(auto, unfolding(crate::specs::Cycle::weight))]
pub fn weight(account: &Account) -> u128
    requires { 0 < account.now.effective }
    ensures weight { result ≡ cycle.weight account.now }
    ensures within { result ≤ 2 ^ 96 }
    ensures some { 0 < result }
{
    let effective = account.effective;
    (1 << 96) / u128::from(effective)
}

// The sum of the submitters' weights.
fn weights(bidders: &[Bidder]) -> u128
    requires positive { All (λ b. 0 < b.account.effective) bidders.now }
    requires few { length bidders.now ≤ MAX_USERS }
    ensures sum { result ≡ sum_by (λ b. cycle.weight b.account) bidders.now }
    ensures some { length bidders.now ≤ result }
{
    let mut sum = 0;
    for bidder in bidders {
        sum += weight(&bidder.account);
    }
    sum
}

/// A submitter's part of the `total` slots that are unmatched as a spin begins, where the weights
/// of those who take part sum to `weights`. Computes in O(1), without memory.
#[tactic(auto, unfolding(crate::specs::Cycle::share))]
pub fn share(total: u64, weights: u128, account: &Account) -> u64
    requires positive { 0 < account.now.effective }
    requires part { cycle.weight account.now ≤ weights }
    requires some { 0 < weights }
    requires few { total ≤ MAX_SLOTS }
    ensures { result ≡ cycle.share total weights account.now }
{
    (u128::from(total) * weight(account) / weights) as u64
}

/// The greater of two counts, as of a share and the least that a submitter is given. Computes in
/// O(1), without memory.
pub fn greater(x: u64, y: u64) -> u64
    ensures { result ≡ max x y }
{
    x.max(y)
}

// Gives each submitter its turn, in order.
pub(crate) fn spin<L: Ledger>(
    alloc: Global,
    snapshot: &Snapshot,
    bidders: &mut [Bidder],
    made: &mut Vec<Made>,
    steps: &mut Steps<L>,
) -> Result<(), Memory>
    requires positive { All (λ b. 0 < b.account.effective) bidders.old }
    requires few { length bidders.old ≤ MAX_USERS }
    requires slots { length snapshot.now.slots ≤ MAX_SLOTS }
    ensures spun { OnOk result (loops.course_of loops.bidder_of bidders.new made.new.items
        ≡ cycle.spin_of snapshot.entry.now (map loops.bidder_of bidders.old) made.old.items) }
    ensures same { map (λ b. b.account) bidders.new ≡ map (λ b. b.account) bidders.old }
{
    let total = unmatched(snapshot, made);
    let weights = weights(bidders);
    let mut least = 1;
    for bidder in bidders.iter_mut() {
        let share = greater(least, share(total, weights, &bidder.account));
        let most = under_ceiling(&bidder.account, made, share);
        turn(
            alloc,
            snapshot,
            &bidder.account,
            most,
            &mut bidder.left,
            made,
            steps,
        )?;
        least = 0;
    }
    Ok(())
}
