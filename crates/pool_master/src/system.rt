// The spawners of a run on the system.

ghost use Rattle.std.specs.Prelude.{◌≡◌, All, IfOk, length};

use crate::run::MACHINES;
use pool_outer::{ChildSpawner, Spawner};
use std::alloc::{AllocError, Global};
use std::fs::File;
use std::process::Processes;
use std::rt::Files;

/// A spawner of the system's children for each machine, as `run_pool` takes them. Computes in
/// O(machines).
pub fn idle_spawners<R: Processes + Files<File = File> + Drop + Copy>(
    alloc: Global,
    rt: R,
) -> Result<Vec<ChildSpawner<R>>, AllocError>
    ensures machines { IfOk result (λ spawners. length spawners.items ≡ MACHINES) }
    ensures idle { IfOk result
        (λ spawners. All (λ s. ⟦<ChildSpawner<R> as Spawner>⟧.count s ≡ 0) spawners.items) }
{
    let mut spawners = Vec::new(alloc);
    'machines: for _machine in 0..MACHINES {
        spawners.push(ChildSpawner::new(alloc, rt))?;
    }
    Ok(spawners)
}
