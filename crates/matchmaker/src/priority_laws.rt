//! What the ticks do, in the words of the subject.

ghost use Rattle.matchmaker.specs.PriorityLaws.{RisesToUse, FallsToUse, TicksAddUp};

/// A priority better than the use of its user gets worse at each tick, and never passes the use.
pub fn priorities_rise_to_use()
    ensures { RisesToUse }
{}

/// A priority worse than the use of its user gets better at each tick, and never passes the use,
/// or the best.
pub fn priorities_fall_to_use()
    ensures { FallsToUse }
{}

/// Ticks that pass at once are those that pass one after the other.
pub fn ticks_add_up()
    ensures { TicksAddUp }
{}
