ghost use Rattle.std.specs.Prelude.{◌≡◌};
ghost use Rattle.claim_id.specs.SlotTable.{next_of};

use crate::pair::{Cue, Pair};

/// Where a cue leads from a state and activity, and None where it leads nowhere (HTCondor manual,
/// Policy Configuration for Execution Points, State and Activity Transitions). Computes in O(1),
/// without memory.
pub fn next(pair: Pair, cue: Cue) -> Option<Pair>
    ensures { result ≡ next_of pair cue }
{
    match (pair, cue) {
        (Pair::OwnerIdle, Cue::StartOn) => Some(Pair::UnclaimedIdle),
        (Pair::UnclaimedIdle, Cue::StartOff) => Some(Pair::OwnerIdle),
        (Pair::UnclaimedIdle, Cue::Match) => Some(Pair::MatchedIdle),
        (Pair::UnclaimedIdle, Cue::Grant) => Some(Pair::ClaimedIdle),
        (Pair::MatchedIdle, Cue::StartOff) => Some(Pair::OwnerIdle),
        (Pair::MatchedIdle, Cue::Lapse) => Some(Pair::OwnerIdle),
        (Pair::MatchedIdle, Cue::Grant) => Some(Pair::ClaimedIdle),
        (Pair::ClaimedIdle, Cue::Begin) => Some(Pair::ClaimedBusy),
        (Pair::ClaimedIdle, Cue::Finish) => Some(Pair::OwnerIdle),
        (Pair::ClaimedIdle, Cue::Handover) => Some(Pair::ClaimedIdle),
        (Pair::ClaimedBusy, Cue::Rest) => Some(Pair::ClaimedIdle),
        (Pair::ClaimedBusy, Cue::Retire) => Some(Pair::ClaimedRetiring),
        (Pair::ClaimedBusy, Cue::Kill) => Some(Pair::PreemptingKilling),
        (Pair::ClaimedRetiring, Cue::Vacate) => Some(Pair::PreemptingVacating),
        (Pair::ClaimedRetiring, Cue::Kill) => Some(Pair::PreemptingKilling),
        (Pair::ClaimedRetiring, Cue::Finish) => Some(Pair::OwnerIdle),
        (Pair::ClaimedRetiring, Cue::Handover) => Some(Pair::ClaimedIdle),
        (Pair::PreemptingVacating, Cue::Kill) => Some(Pair::PreemptingKilling),
        (Pair::PreemptingVacating, Cue::Finish) => Some(Pair::OwnerIdle),
        (Pair::PreemptingVacating, Cue::Handover) => Some(Pair::ClaimedIdle),
        (Pair::PreemptingKilling, Cue::Finish) => Some(Pair::OwnerIdle),
        (Pair::PreemptingKilling, Cue::Handover) => Some(Pair::ClaimedIdle),
        _ => None,
    }
}
