//! One submitter's turn in a spin.

ghost use Rattle.std.specs.Prelude.{◌≡◌, ◌+◌, OnOk};
ghost use Rattle.std.specs.List.{count_by};
ghost use Rattle.std.specs.Str.{bytes_eq};
ghost use Rattle.matchmaker.specs.Cycle as cycle;

use crate::choosing::{choice, match_of};
use crate::course::{Account, Made};
use crate::snapshot::Snapshot;
use ad_eval::Steps;
use ad_value::Memory;
use pool_mail::Request;
use std::alloc::Global;
use std::collections::VecDeque;
use std::sync::ledger::Ledger;

// How many of the matches name the user.
fn count_of_user(user: &str, made: &[Made]) -> u64
    ensures { result ≡ count_by (λ m. bytes_eq m.user user.now) made.now }
{
    made.iter().filter(|m| m.user.as_str() == user).count() as u64
}

// How many slots the cycle gave to the submitter so far.
#[tactic(auto, unfolding(crate::specs::Cycle::given))]
fn given(account: &Account, made: &[Made]) -> u64
    ensures { result ≡ cycle.given account.now made.now }
{
    count_of_user(account.user.as_str(), made)
}

/// How many slots of its share the submitter may still be given. Computes in O(matches), without
/// memory.
#[tactic(auto, unfolding(crate::specs::Cycle::under_ceiling))]
pub fn under_ceiling(account: &Account, made: &[Made], share: u64) -> u64
    ensures { result ≡ cycle.under_ceiling
        account.now.ceiling (account.now.in_use + cycle.given account.now made.now) share }
{
    match account.ceiling {
        None => share,
        Some(ceiling) => share.min(u64::from(ceiling.saturating_sub(account.in_use)).saturating_sub(
            given(account, made),
        )),
    }
}

/// Whether the submitter is below its ceiling: slots in use and slots matched count together.
/// Computes in O(matches), without memory.
#[tactic(auto, unfolding(crate::specs::Cycle::is_under, crate::specs::Cycle::is_below_ceiling))]
pub fn is_below_ceiling(account: &Account, made: &[Made]) -> bool
    ensures { result ≡ cycle.is_below_ceiling account.now made.now }
{
    match account.ceiling {
        None => true,
        Some(ceiling) => {
            given(account, made) < u64::from(ceiling.saturating_sub(account.in_use))
        }
    }
}

// Takes the submitter's requests in order, until `most` slots were given or no request is left.
pub(crate) fn turn<L: Ledger>(
    alloc: Global,
    snapshot: &Snapshot,
    account: &Account,
    most: u64,
    left: &mut VecDeque<Request>,
    made: &mut Vec<Made>,
    steps: &mut Steps<L>,
) -> Result<(), Memory>
    ensures { OnOk result ((left.new.items, made.new.items)
        ≡ cycle.turn snapshot.entry.now account.now most left.old.items made.old.items) }
{
    let mut most = most;
    while most > 0 {
        let Some(request) = left.pop_front() else {
            return Ok(());
        };
        if let Some(slot) = choice(alloc, snapshot, account, made, &request, steps)? {
            let one = match_of(alloc, snapshot, account, &request, slot)?;
            made.push(one)?;
            most -= 1;
        }
    }
    Ok(())
}
