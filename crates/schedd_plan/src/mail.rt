// What becomes of a mail.

ghost use Rattle.std.specs.Prelude.{◌≡◌, slice_get};
ghost use Rattle.schedd_plan.specs.MailTable.{after_fate, fate_of_gone, order_row, denied_row, granted_row, matched_row, is_idle_place, fate_at, is_spent_why, is_leaving, is_leaving_in};

use crate::JobPlan;
use crate::claims::{KeptClaim, Stage, place_of_claim, remove_claim, set_stage};
use crate::places::JobPlace;
use claim_id::{ClaimId, ClaimNo, JobId};
use pool_mail::{Match, Why};

/// What becomes of the claim of a run that is over.
#[derive(Clone, Copy)]
pub enum Fate {
    /// It goes.
    Goes,
    /// It is ready.
    Ready,
    /// It is ready, unless it is leaving.
    Stays,
}

/// What becomes of a mail.
#[derive(Clone, Copy)]
pub enum MailRow {
    Nothing,
    /// A claim is asked for.
    Ask {
        claim: ClaimId,
        job: JobId,
        by_priority: bool,
    },
    /// The claim of a place is ready.
    Ready {
        place: usize,
    },
    /// A claim that the schedd doesn't know is given up.
    Release {
        claim: ClaimNo,
    },
    /// The claim of a place goes.
    Forget {
        place: usize,
    },
    /// The claim of a place is leaving.
    Leave {
        place: usize,
    },
    /// The run of a place is alive.
    Note {
        place: usize,
    },
    /// The run of a place is over.
    Free {
        place: usize,
        plan: JobPlan,
        claim: ClaimNo,
        fate: Fate,
    },
    /// An order is carried out.
    Order {
        plan: JobPlan,
    },
}

fn is_idle_place(place: JobPlace) -> bool
    ensures { result ≡ is_idle_place place }
{
    match place {
        JobPlace::Idle => true,
        _ => false,
    }
}

/// A match of a job and a claim. Computes in O(1), as do the other rows.
pub fn matched_row(place: JobPlace, engaged: bool, known: Option<usize>, found: &Match) -> MailRow
    ensures { result ≡ matched_row place engaged known found.now }
{
    if is_idle_place(place) && !engaged && known.is_none() {
        MailRow::Ask {
            claim: found.claim,
            job: found.job,
            by_priority: found.by_priority,
        }
    } else {
        MailRow::Nothing
    }
}

/// A claim is given; `stage` is how far it has come.
pub fn granted_row(known: Option<(usize, Stage)>, claim: ClaimNo) -> MailRow
    ensures { result ≡ granted_row known claim }
{
    match known {
        None => MailRow::Release { claim },
        Some((place, stage)) => match stage {
            Stage::Asked { .. } => MailRow::Ready { place },
            Stage::Ready | Stage::Leaving => MailRow::Nothing,
        },
    }
}

fn is_spent_why(why: Why) -> bool
    ensures { result ≡ is_spent_why why }
{
    match why {
        Why::Spent { .. } => true,
        _ => false,
    }
}

/// A claim, or a run of it, is denied.
pub fn denied_row(known: Option<(usize, Stage)>, of_run: bool, why: Why) -> MailRow
    ensures { result ≡ denied_row known of_run why }
{
    match known {
        None => MailRow::Nothing,
        Some((place, stage)) => {
            if of_run {
                if is_spent_why(why) {
                    MailRow::Nothing
                } else {
                    MailRow::Leave { place }
                }
            } else {
                match stage {
                    Stage::Asked { .. } => MailRow::Forget { place },
                    Stage::Ready | Stage::Leaving => MailRow::Nothing,
                }
            }
        }
    }
}

/// An order to a job, with what it plans. Computes in O(1).
pub fn order_row(plan: Option<JobPlan>) -> MailRow
    ensures { result ≡ order_row plan }
{
    match plan {
        Some(plan) => MailRow::Order { plan },
        None => MailRow::Nothing,
    }
}

/// What becomes of the claim where its run is gone, by whether the startd keeps the claim. Computes
/// in O(1).
pub fn fate_of_gone(kept: bool) -> Fate
    ensures { result ≡ fate_of_gone kept }
{
    if kept { Fate::Stays } else { Fate::Goes }
}

/// The claim of a run that is over. Computes in O(claims), without memory.
#[tactic(auto, unfolding(crate::specs::MailTable::after_fate))]
pub fn settle_claim(claims: &mut Vec<KeptClaim>, claim: ClaimNo, fate: Fate)
    ensures { claims.new.items ≡ after_fate fate claim claims.old.items }
{
    if let Some(place) = place_of_claim(claims, claim) {
        settle_at(claims, place, fate);
    }
}

fn settle_at(claims: &mut Vec<KeptClaim>, place: usize, fate: Fate)
    ensures { claims.new.items ≡ fate_at fate place claims.old.items }
{
    match fate {
        Fate::Goes => remove_claim(claims, place),
        Fate::Ready => set_stage(claims, place, Stage::Ready),
        Fate::Stays => {
            if !is_leaving_at(claims, place) {
                set_stage(claims, place, Stage::Ready);
            }
        }
    }
}

fn is_leaving_at(claims: &[KeptClaim], place: usize) -> bool
    ensures { result ≡ is_leaving_in (slice_get claims.now place) }
{
    match claims.get(place) {
        Some(kept) => is_leaving(kept.stage),
        None => false,
    }
}

fn is_leaving(stage: Stage) -> bool
    ensures { result ≡ is_leaving stage }
{
    match stage {
        Stage::Leaving => true,
        Stage::Asked { .. } | Stage::Ready => false,
    }
}
