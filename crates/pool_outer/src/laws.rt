//! What holds of every child in memory.

ghost use Rattle.std.specs.Prelude.{◌≡◌, ◌<◌, ◌≤◌, ℕ};
ghost use Rattle.pool_outer.specs.declared.spawner.ChildState.TheVariants.{Running};
ghost use Rattle.pool_outer.specs.declared.spawner.memory.ChildEnd.{ChildEnd};
ghost use Rattle.pool_outer.specs.declared.spawner.memory.MemChild.{MemChild};
ghost use Rattle.pool_outer.specs.MemoryChildren.{new_child, state_of, LooksMany};

/// A child in memory that nobody kills is running at as many looks as its script says, and each
/// further look finds its ending.
pub fn children_end_as_their_scripts_say()
    ensures runs { (n looks : ℕ) (ending : ChildEnd) (child : MemChild)
        → LooksMany n (new_child looks ending) child → n ≤ looks → child.state ≡ Running }
    ensures ends { (n looks : ℕ) (ending : ChildEnd) (child : MemChild)
        → LooksMany n (new_child looks ending) child → looks < n
        → child.state ≡ state_of ending }
{}
