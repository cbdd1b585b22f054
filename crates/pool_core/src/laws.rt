//! What holds of every history.

ghost use Rattle.std.specs.Prelude.{◌≡◌, List, [], ◌∷◌, ◌++◌, Bool, Some, IfSome, map};
ghost use Rattle.pool_core.specs.declared.history.History.{History};
ghost use Rattle.pool_core.specs.Leading.{LeadsFromOpening, kept_step};
ghost use Rattle.pool_parts.specs.declared.answer.Stepped.{Stepped};
ghost use Rattle.pool_parts.specs.declared.event.Event.{Event};
ghost use Rattle.pool_rules.specs.Histories.{Accepts, IsHistory, Step};
ghost use Rattle.pool_state.specs.declared.opening.Opening.{Opening};
ghost use Rattle.pool_state.specs.declared.state.PoolState.{PoolState};
ghost use Rattle.pool_state.specs.Openings.{CanOpen, IsOpenedBy};
ghost use Rattle.schedd_core.specs.ScheddParts.{IsOrdered};

/// A history without events leads from its opening to the pool that was opened, and it goes on by
/// each event that its pool accepts.
pub fn histories_grow()
    ensures begin { (load : Bool) (s : PoolState)
        → LeadsFromOpening (record { opening = Some s; load = load; list = [] }) s }
    ensures grow { (h : History) (s : PoolState) (e : Event) (r : Stepped) (new : PoolState)
        → LeadsFromOpening h s → Accepts s e r new → LeadsFromOpening
        (record h { list = h.list ++ record { event = e; kept = r.kept } ∷ [] }) new }
{}

/// Where a history leads to a pool, its events with their answers are a history of the pool in the
/// words of pool_rules, and what holds of those holds of it: the pool is safe, and events move it
/// by abstract steps.
pub fn histories_replay()
    ensures { (o : Opening) (h : History) (s : PoolState) → CanOpen o → IsOrdered o.queue
        → IfSome h.opening (IsOpenedBy o) → LeadsFromOpening h s
        → (list : List Step) × (h.list ≡ map kept_step list) × IsHistory o list s }
{}
