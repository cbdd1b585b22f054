//! What holds of every slot, whatever its cues.

ghost use Rattle.std.specs.Prelude.{◌≡◌, ◌↔◌, ◌<◌, Contains, IsTrue, not, Some};
ghost use Rattle.claim_id.specs.declared.pair.Cue.{Cue};
ghost use Rattle.claim_id.specs.declared.pair.Cue.TheVariants as cue;
ghost use Rattle.claim_id.specs.declared.pair.Pair.{Pair};
ghost use Rattle.claim_id.specs.declared.pair.Pair.TheVariants as pair;
ghost use Rattle.claim_id.specs.SlotTable.{◌⇒◌, next_of, ways_from};
ghost use Rattle.claim_id.specs.States.{has_claim, has_run, urgency};

/// A cue leads somewhere exactly where the table says so, and there.
pub fn table_is_all()
    ensures { (from to : Pair) (by : Cue)
        → (next_of from by ≡ Some to) ↔ Contains (ways_from from) (by ⇒ to) }
{}

/// Wherever a cue leads somewhere, it leads to the same state and activity.
pub fn cue_has_one_end()
    ensures { (p q a b : Pair) (by : Cue)
        → next_of p by ≡ Some a → next_of q by ≡ Some b → a ≡ b }
{}

/// A slot without a claim gets one by Grant alone, and is then Claimed/Idle.
pub fn claims_begin_with_grant()
    ensures { (from to : Pair) (by : Cue) → next_of from by ≡ Some to
        → IsTrue (not (has_claim from)) → IsTrue (has_claim to)
        → (by ≡ cue.Grant) × (to ≡ pair.ClaimedIdle) }
{}

/// A slot loses its claim by Finish alone, and is then Owner/Idle: it is offered again only after
/// its Start was looked at.
pub fn claims_end_with_finish()
    ensures { (from to : Pair) (by : Cue) → next_of from by ≡ Some to
        → IsTrue (has_claim from) → IsTrue (not (has_claim to))
        → (by ≡ cue.Finish) × (to ≡ pair.OwnerIdle) }
{}

/// A slot becomes Unclaimed only from Owner/Idle.
pub fn slots_are_offered_from_owner()
    ensures { (from : Pair) (by : Cue) → next_of from by ≡ Some pair.UnclaimedIdle
        → (from ≡ pair.OwnerIdle) × (by ≡ cue.StartOn) }
{}

/// A run begins in Claimed/Idle alone, by Begin.
pub fn runs_begin_on_idle_claims()
    ensures { (from to : Pair) (by : Cue) → next_of from by ≡ Some to
        → IsTrue (not (has_run from)) → IsTrue (has_run to)
        → (from ≡ pair.ClaimedIdle) × (by ≡ cue.Begin) × (to ≡ pair.ClaimedBusy) }
{}

/// A cue that leaves the run on the slot hastens it: from Busy to Retiring, to Vacating, to
/// Killing, and never back.
pub fn runs_are_only_hastened()
    ensures { (from to : Pair) (by : Cue) → next_of from by ≡ Some to
        → IsTrue (has_run from) → IsTrue (has_run to) → urgency from < urgency to }
{}
