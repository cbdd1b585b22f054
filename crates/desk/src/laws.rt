//! What holds of the entries of every pass.

ghost use Rattle.std.specs.Prelude.{◌≡◌, ◌<◌, ◌||◌, ◌∷◌, ◌++◌, [], List, length};
ghost use Rattle.claim_id.specs.declared.numbers.RunNo.{RunNo};
ghost use Rattle.desk.specs.declared.entry.Entry.{Entry};
ghost use Rattle.desk.specs.Entries.{Gained};
ghost use Rattle.desk.specs.Launches.{is_launch_of, was_launched};
ghost use Rattle.desk.specs.Logs.{log_after, log_of};
ghost use Rattle.pool_parts.specs.declared.answer.Answer.{Answer};
ghost use Rattle.pool_parts.specs.declared.event.Event.{Event};

/// Which transactions were logged, by entries and one more, is what they say and the new one adds.
/// So it is with the runs that were launched.
pub fn entries_add_up()
    ensures log { (es : List Entry) (e : Entry)
        → log_of (es ++ e ∷ []) ≡ log_after (log_of es) e }
    ensures launches { (run : RunNo) (es : List Entry) (e : Entry)
        → was_launched run (es ++ e ∷ []) ≡ (was_launched run es || is_launch_of run e.kept) }
    ensures longer { (before : List Entry) (e : Event) (a : Answer) (now : List Entry)
        → Gained before e a now → length before < length now }
{}
