//! What holds of each cycle.

ghost use Rattle.negotiate.specs.Laws as laws;

/// A request that a cycle leaves idle is at its submitter's ceiling, or no slot that is left
/// unmatched is offered to it and matches it.
pub fn idle_for_cause()
    ensures { laws.CyclesIdleForCause }
{}

/// Each match is of a request and a slot of the snapshot that match both ways, and the slot was
/// offered.
pub fn matches_are_sound()
    ensures { laws.CyclesAreSound }
{}

/// No slot is given twice.
pub fn slots_are_given_once()
    ensures { laws.CyclesGiveOnce }
{}

/// Where no two submitters are one user, none has more slots in the end than its ceiling, or than
/// it had in use before.
pub fn ceilings_are_kept()
    ensures { laws.CeilingsAreKept }
{}
