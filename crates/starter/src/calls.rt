// Calls of a spawner, each with all that it leaves as one record.
ghost use Rattle.std.specs.Prelude.{◌≡◌, ◌<◌, Err, IfOk, is_ok};
ghost use Rattle.pool_outer.specs.Cause.{Rose};
ghost use Rattle.pool_outer.specs.declared.spawner.SpawnError.TheVariants as spawn_error;
ghost use Rattle.starter.specs.Spawners.{spawner_value, Kills, Looks, Starts};

use pool_mail::End;
use pool_outer::{ChildState, Launch, SpawnError, Spawner};
use std::alloc::Global;

// Starts a child, and gives its number.
pub(crate) fn start<P: Spawner>(
    spawner: &mut P,
    alloc: Global,
    what: &Launch,
) -> Result<u64, SpawnError>
    ensures starts { Starts what.now
        (spawner_value P.tells P.count P.launches P.seen P.killed P.faults spawner.old)
        (spawner_value P.tells P.count P.launches P.seen P.killed P.faults spawner.new)
        (is_ok result) }
    ensures number { IfOk result (λ number. number ≡ P.count spawner.old) }
    ensures cause { result ≡ Err spawn_error.Failed
        → Rose (P.faults spawner.old) (P.faults spawner.new) }
{
    spawner.launch(alloc, what)
}

// How a child ended, where a look finds it ended.
pub(crate) fn look_at<P: Spawner>(spawner: &mut P, child: u64) -> Option<End>
    requires { child < P.count spawner.old }
    ensures { Looks child
        (spawner_value P.tells P.count P.launches P.seen P.killed P.faults spawner.old)
        (spawner_value P.tells P.count P.launches P.seen P.killed P.faults spawner.new) result }
{
    match spawner.poll(child) {
        Ok(ChildState::Exited(code)) => Some(End::Exited(code)),
        Ok(ChildState::Signalled(signal)) => Some(End::Signalled(signal)),
        Ok(ChildState::Running) | Err(_) => None,
    }
}

// Asks the system to kill a child, whatever it answers.
pub(crate) fn kill<P: Spawner>(spawner: &mut P, child: u64)
    requires { child < P.count spawner.old }
    ensures { Kills child
        (spawner_value P.tells P.count P.launches P.seen P.killed P.faults spawner.old)
        (spawner_value P.tells P.count P.launches P.seen P.killed P.faults spawner.new) }
{
    let _ = spawner.kill(child);
}
