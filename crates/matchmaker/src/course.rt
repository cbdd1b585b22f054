ghost use Rattle.std.specs.Prelude.{◌≡◌, IfOk};
ghost use Rattle.matchmaker.specs.Cycle.{account_of};

use crate::snapshot::Submitter;
use ad_value::{Copied, Memory, Text};
use claim_id::SlotId;
use pool_mail::{Match, Request};
use std::alloc::Global;
use std::collections::VecDeque;

/// A submitter without its requests.
#[derive(Drop)]
pub struct Account {
    /// The user's name, with case.
    pub user: Text,
    /// The effective priority, in millionths; lower is better.
    pub effective: u64,
    /// How many slots the user has in use.
    pub in_use: u32,
    /// How many slots the user may have at most, where that is bounded.
    pub ceiling: Option<u32>,
}

/// A match, with whom and what it is made of.
#[derive(Drop)]
pub struct Made {
    /// The submitter's user.
    pub user: Text,
    pub slot: SlotId,
    pub matched: Match,
}

/// A submitter with the requests that it has left, in order.
#[derive(Drop)]
pub struct Bidder {
    pub account: Account,
    pub left: VecDeque<Request>,
}

impl Account {
    /// The account of a submitter. Computes in O(bytes of the name).
    pub fn of(alloc: Global, submitter: &Submitter) -> Result<Account, Memory>
        ensures { IfOk result (λ account. account ≡ account_of submitter.now) }
    {
        Ok(Account {
            user: submitter.user.copy(alloc)?,
            effective: submitter.effective,
            in_use: submitter.in_use,
            ceiling: submitter.ceiling,
        })
    }
}
