//! Which pools a holder can have.

ghost use Rattle.std.specs.Prelude.{Option};
ghost use Rattle.pool_outer.specs.declared.gate.Daemon.{Daemon};
ghost use Rattle.pool_state.specs.declared.opening.Opening.{Opening};
ghost use Rattle.pool_state.specs.declared.state.PoolState.{PoolState};
ghost use Rattle.pool_state.specs.Openings.{CanOpen, IsOpenedBy};
ghost use Rattle.desk.specs.SolePasses.{CanHold, HasHolder};

/// A pool that opens can be held by each of its daemons, and by the master.
pub fn opened_pools_can_be_held()
    ensures { (o : Opening) (s : PoolState) (holder : Option Daemon) → CanOpen o → IsOpenedBy o s
        → HasHolder holder s → CanHold holder s }
{}
