//! Spins in which one request of each autocluster is judged.

ghost use Rattle.std.specs.Prelude.{◌≡◌, ◌==◌, ◌||◌, ◌+◌, ◌*◌, ◌≤◌, ◌<◌, map, length, [], IfOk, OnOk};
ghost use Rattle.std.specs.List.{All, sum_by};
ghost use Rattle.matchmaker.specs.Cycle as cycle;
ghost use Rattle.matchmaker.specs.Loops as loops;
ghost use Rattle.negotiate.specs.Parties as those;

use crate::grouping::{Clustered, Lists, grouped_turn};
use ad_eval::Steps;
use ad_value::Memory;
use matchmaker::{
    Account, MAX_SLOTS, MAX_USERS, Made, Snapshot, greater, is_below_ceiling, share, under_ceiling,
    unmatched, weight,
};
use std::alloc::Global;
use std::collections::VecDeque;
use std::sync::ledger::Ledger;

/// A submitter with the requests that it has left, in order, and a list for each of its
/// autoclusters that was judged.
#[derive(Drop)]
pub struct Party<'a> {
    pub account: Account,
    pub left: VecDeque<Clustered>,
    pub lists: Lists<'a>,
}

fn takes_part(party: &Party<'_>, made: &[Made]) -> bool
    ensures { result ≡ cycle.takes_part made.now (those.bidder_of party.now) }
{
    !party.left.is_empty() && is_below_ceiling(&party.account, made)
}

// The sum of the submitters' weights.
fn weights(parties: &[Party<'_>]) -> u128
    requires positive { All (λ b. 0 < b.account.effective) parties.now }
    requires few { length parties.now ≤ MAX_USERS }
    ensures sum { result ≡ sum_by (λ b. cycle.weight b.account) parties.now }
    ensures some { length parties.now ≤ result }
{
    let mut sum = 0;
    for party in parties {
        sum += weight(&party.account);
    }
    sum
}

// Gives each submitter its turn, in order.
fn grouped_spin<'a, L: Ledger>(
    alloc: Global,
    snapshot: &'a Snapshot,
    parties: &mut [Party<'a>],
    made: &mut Vec<Made>,
    steps: &mut Steps<L>,
) -> Result<(), Memory>
    requires positive { All (λ b. 0 < b.account.effective) parties.old }
    requires few { length parties.old ≤ MAX_USERS }
    requires slots { length snapshot.now.slots ≤ MAX_SLOTS }
    requires tables { All (those.HasTables snapshot.now made.old.items) parties.old }
    ensures spun { OnOk result (loops.course_of those.bidder_of parties.new made.new.items
        ≡ cycle.spin_of snapshot.entry.now (map those.bidder_of parties.old) made.old.items) }
    ensures same { map (λ b. b.account) parties.new ≡ map (λ b. b.account) parties.old }
    ensures tables { OnOk result
        (All (those.HasTables snapshot.entry.now made.new.items) parties.new) }
    ensures cost { OnOk result (those.CostsAll
        (length snapshot.entry.now.slots) parties.old parties.new steps.old steps.new) }
{
    let total = unmatched(snapshot, made);
    let weights = weights(parties);
    let mut least = 1;
    for party in parties.iter_mut() {
        let share = greater(least, share(total, weights, &party.account));
        let most = under_ceiling(&party.account, made, share);
        grouped_turn(
            alloc,
            snapshot,
            &party.account,
            most,
            &mut party.left,
            &mut party.lists,
            made,
            steps,
        )?;
        least = 0;
    }
    Ok(())
}

// Drops the submitters that take no part any more.
fn keep_players(parties: &mut Vec<Party<'_>>, made: &[Made])
    ensures { parties.new.items
        ≡ loops.those_who_play those.bidder_of made.now parties.old.items }
{
    parties.retain(|party| takes_part(party, made));
}

// Whether no submitter takes part, or no slot is left.
fn is_over(snapshot: &Snapshot, players: &[Party<'_>], made: &[Made]) -> bool
    ensures { result ≡ ((length players.now == 0)
        || (cycle.unmatched snapshot.entry.now.slots made.now == 0)) }
{
    players.is_empty() || unmatched(snapshot, made) == 0
}

// The matches of submitters in order, whose lists tell nothing false yet.
pub(crate) fn grouped_matches<'a, L: Ledger>(
    alloc: Global,
    snapshot: &'a Snapshot,
    mut parties: Vec<Party<'a>>,
    steps: &mut Steps<L>,
) -> Result<Vec<Made>, Memory>
    requires positive { All (λ b. 0 < b.account.effective) parties.items }
    requires few { length parties.items ≤ MAX_USERS }
    requires slots { length snapshot.now.slots ≤ MAX_SLOTS }
    requires tables { All (those.HasTables snapshot.now []) parties.items }
    ensures matches { IfOk result (λ made. made.items
        ≡ cycle.cycle_of snapshot.entry.now (map those.bidder_of parties.entry.items)) }
    ensures cost { IfOk result (λ made. steps.new
        ≤ steps.old + those.to_judge parties.entry.items * length snapshot.entry.now.slots) }
{
    let mut made = Vec::new(alloc);
    'spins: loop {
        keep_players(&mut parties, &made);
        let over = is_over(snapshot, &parties, &made);
        if over {
            return Ok(made);
        }
        grouped_spin(alloc, snapshot, &mut parties, &mut made, steps)?;
    }
}
