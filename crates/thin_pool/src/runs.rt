ghost use Rattle.std.specs.Prelude.{◌≡◌, ◌<◌, ◌++◌, ◌∷◌, [], None, IfOk};
ghost use Rattle.indexmap.specs.IndexMap.{spare};
ghost use Rattle.pool_view.specs.Numbers.{same_slot};
ghost use Rattle.thin_pool.specs.Reactions.{without_run};
ghost use Rattle.thin_pool.specs.PoolValue.{HasKeysOnce, run_at};

use crate::job::SlotRun;
use ad_value::{Copied, Memory};
use claim_id::SlotId;
use indexmap::IndexMap;
use std::alloc::Global;

pub(crate) type RunTable = IndexMap<SlotId, SlotRun>;

// An equal table.
pub(crate) fn copy_runs(alloc: Global, runs: &RunTable) -> Result<RunTable, Memory>
    requires { HasKeysOnce same_slot runs.now.entries }
    ensures { IfOk result (λ t. t.entries ≡ runs.now.entries) }
{
    let mut table = IndexMap::new(alloc);
    for (slot, value) in runs {
        table.insert(*slot, value.copy(alloc)?)?;
    }
    Ok(table)
}

// Adds the run of a slot that has none; there is room for it.
pub(crate) fn add_run(runs: &mut RunTable, slot: SlotId, run: SlotRun)
    requires room { 0 < spare runs.old }
    requires free { run_at slot runs.old.entries ≡ None }
    ensures { runs.new.entries ≡ runs.old.entries ++ (slot, run) ∷ [] }
{
    runs.insert(slot, run).unwrap();
}

// Removes the run of a slot, where it has one.
pub(crate) fn remove_run(runs: &mut RunTable, slot: SlotId)
    ensures { runs.new.entries ≡ without_run slot runs.old.entries }
{
    runs.shift_remove(&slot);
}
