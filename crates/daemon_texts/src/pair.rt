ghost use Rattle.std.specs.Prelude.{◌≡◌, ◌≢◌, ◌++◌, MatchOption, OnOk, string_bytes};
ghost use Rattle.daemon_texts.specs.PairNames.{pair_name, cue_name};
ghost use Rattle.claim_id.specs.declared.pair.Cue.{Cue};
ghost use Rattle.claim_id.specs.declared.pair.Pair.{Pair};

use claim_id::{Cue, Pair};
use std::alloc::AllocError;

/// The state and activity of a name, as `Claimed/Busy`. Computes in O(1).
pub fn pair_of(name: &str) -> Option<Pair>
    ensures { MatchOption result ((pair : Pair) → name.now ≢ pair_name pair)
        (λ pair. name.now ≡ pair_name pair) }
{
    match name {
        "Owner/Idle" => Some(Pair::OwnerIdle),
        "Unclaimed/Idle" => Some(Pair::UnclaimedIdle),
        "Matched/Idle" => Some(Pair::MatchedIdle),
        "Claimed/Idle" => Some(Pair::ClaimedIdle),
        "Claimed/Busy" => Some(Pair::ClaimedBusy),
        "Claimed/Retiring" => Some(Pair::ClaimedRetiring),
        "Preempting/Vacating" => Some(Pair::PreemptingVacating),
        "Preempting/Killing" => Some(Pair::PreemptingKilling),
        _ => None,
    }
}

/// Appends a state and activity. Computes in O(1).
pub fn write_pair(pair: Pair, out: &mut String) -> Result<(), AllocError>
    ensures { OnOk result (string_bytes out.new ≡ string_bytes out.old ++ pair_name pair) }
{
    out.push_str(name_of(pair))
}

fn name_of(pair: Pair) -> &'static str
    ensures { result.now ≡ pair_name pair }
{
    match pair {
        Pair::OwnerIdle => "Owner/Idle",
        Pair::UnclaimedIdle => "Unclaimed/Idle",
        Pair::MatchedIdle => "Matched/Idle",
        Pair::ClaimedIdle => "Claimed/Idle",
        Pair::ClaimedBusy => "Claimed/Busy",
        Pair::ClaimedRetiring => "Claimed/Retiring",
        Pair::PreemptingVacating => "Preempting/Vacating",
        Pair::PreemptingKilling => "Preempting/Killing",
    }
}

/// The cue of a name. Computes in O(1).
pub fn cue_of(name: &str) -> Option<Cue>
    ensures { MatchOption result ((cue : Cue) → name.now ≢ cue_name cue)
        (λ cue. name.now ≡ cue_name cue) }
{
    match name {
        "StartOn" => Some(Cue::StartOn),
        "StartOff" => Some(Cue::StartOff),
        "Match" => Some(Cue::Match),
        "Lapse" => Some(Cue::Lapse),
        "Grant" => Some(Cue::Grant),
        "Begin" => Some(Cue::Begin),
        "Rest" => Some(Cue::Rest),
        "Retire" => Some(Cue::Retire),
        "Vacate" => Some(Cue::Vacate),
        "Kill" => Some(Cue::Kill),
        "Handover" => Some(Cue::Handover),
        "Finish" => Some(Cue::Finish),
        _ => None,
    }
}
