//! What always holds of a launcher, run by run.

ghost use Rattle.std.specs.Prelude.{◌≡◌, ◌+◌, ◌≤◌, ℕ, List, Some, slice_get};
ghost use Rattle.claim_id.specs.declared.numbers.RunNo.{RunNo};
ghost use Rattle.pool_mail.specs.declared.end.Ending.{Ending};
ghost use Rattle.starter.specs.declared.children.Child.{Child};
ghost use Rattle.starter.specs.declared.given.Given.{Given};
ghost use Rattle.starter.specs.Launchers.{count_children, count_endings, every_end, is_not_started, is_run, is_seen_end, is_started, is_unstarted, one_if, what_was_started, whats_where, which_started, IsLauncher};
ghost use Rattle.starter.specs.Spawners.{SpawnerValue};

/// What was launched is what was given, where a child was started (`launches`). A run has a child
/// or an ending, and at most one of them (`once`). One that was given has a child or an end that
/// was seen just where it was started, and an ending NotStarted just where it was refused or
/// declined (`each`).
pub fn launchers_add_up()
    ensures launches { (given : List Given)
        → what_was_started given ≡ whats_where (which_started given) given }
    ensures once { (s : SpawnerValue) (given : List Given) (children : List Child)
        (endings : List Ending) (run : RunNo) → IsLauncher s given children endings
        → count_children (is_run run) children + count_endings every_end (is_run run) endings
        ≤ 1 }
    ensures each { (s : SpawnerValue) (given : List Given) (children : List Child)
        (endings : List Ending) (k : ℕ) (g : Given) → IsLauncher s given children endings
        → slice_get given k ≡ Some g
        → (count_children (is_run g.run) children
        + count_endings is_seen_end (is_run g.run) endings ≡ one_if (is_started g.fate))
        × (count_endings is_not_started (is_run g.run) endings ≡ one_if (is_unstarted g.fate)) }
{}
