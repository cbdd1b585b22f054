//! A cycle in which each request looks at every slot: spins until no submitter takes part, or no
//! slot is left.

ghost use Rattle.std.specs.Prelude.{◌≡◌, ◌==◌, ◌||◌, ◌≤◌, ◌<◌, map, length, IfOk};
ghost use Rattle.std.specs.List.{All};
ghost use Rattle.matchmaker.specs.Cycle as cycle;
ghost use Rattle.matchmaker.specs.Loops as loops;
ghost use Rattle.matchmaker.specs.Plain.{PlainCycle};
ghost use Rattle.matchmaker.specs.Snapshots.{IsSnapshot};

use crate::course::{Bidder, Made};
use crate::opening::bidders_of;
use crate::snapshot::Snapshot;
use crate::spinning::{spin, takes_part, unmatched};
use crate::{MAX_SLOTS, MAX_USERS};
use ad_eval::Steps;
use ad_value::{Memory, Seq};
use pool_mail::{Match, MatchList};
use std::alloc::Global;
use std::sync::ledger::Ledger;

// Drops the submitters that take no part any more.
fn keep_players(bidders: &mut Vec<Bidder>, made: &[Made])
    ensures { bidders.new.items
        ≡ loops.those_who_play loops.bidder_of made.now bidders.old.items }
{
    bidders.retain(|bidder| takes_part(bidder, made));
}

// Whether no submitter takes part, or no slot is left.
fn is_over(snapshot: &Snapshot, players: &[Bidder], made: &[Made]) -> bool
    ensures { result ≡ ((length players.now == 0)
        || (cycle.unmatched snapshot.entry.now.slots made.now == 0)) }
{
    players.is_empty() || unmatched(snapshot, made) == 0
}

// The matches of submitters in order.
fn plain_matches<L: Ledger>(
    alloc: Global,
    snapshot: &Snapshot,
    mut bidders: Vec<Bidder>,
    steps: &mut Steps<L>,
) -> Result<Vec<Made>, Memory>
    requires positive { All (λ b. 0 < b.account.effective) bidders.items }
    requires few { length bidders.items ≤ MAX_USERS }
    requires slots { length snapshot.now.slots ≤ MAX_SLOTS }
    ensures { IfOk result (λ made. made.items
        ≡ cycle.cycle_of snapshot.entry.now (map loops.bidder_of bidders.items)) }
{
    let mut made = Vec::new(alloc);
    'spins: loop {
        keep_players(&mut bidders, &made);
        let over = is_over(snapshot, &bidders, &made);
        if over {
            return Ok(made);
        }
        spin(alloc, snapshot, &mut bidders, &mut made, steps)?;
    }
}

/// The matches without whom they are made of. Computes in O(matches).
pub fn matches_of(alloc: Global, made: &[Made]) -> Result<Vec<Match>, Memory>
    ensures { IfOk result (λ ms. ms.items ≡ map (λ m. m.matched) made.now) }
{
    Ok(made.iter().map(|m| m.matched).collect(alloc)?)
}

/// The matches of a cycle in which each request looks at every slot, in the order in which they are
/// made. A plain and slow program. Computes in O(requests × slots) evaluations.
pub fn plain_cycle<L: Ledger>(
    alloc: Global,
    snapshot: &Snapshot,
    steps: &mut Steps<L>,
) -> Result<MatchList, Memory>
    requires { IsSnapshot snapshot.now }
    ensures { IfOk result (PlainCycle snapshot.entry.now) }
{
    let bidders = bidders_of(alloc, snapshot)?;
    let made = plain_matches(alloc, snapshot, bidders, steps)?;
    Ok(Seq::from_vec(matches_of(alloc, &made)?))
}
