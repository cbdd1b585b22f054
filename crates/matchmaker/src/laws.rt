//! What a collector keeps, in the words of the subject.

ghost use Rattle.matchmaker.specs.Laws.{KeepsWhatIsHeard};

/// A collector keeps exactly the last ad of each name that was not forgotten since, nor found too
/// old by an `expire` since.
pub fn collector_keeps_what_is_heard()
    ensures { KeepsWhatIsHeard }
{}
