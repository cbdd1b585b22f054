//! What holds of the parts of every pool that has just been opened or that events led to.

ghost use Rattle.std.specs.Prelude.{[], ◌++◌, List, IfSome};
ghost use Rattle.claim_id.specs.declared.numbers.JobId.{JobId};
ghost use Rattle.pool_mail.specs.declared.mail.Mail.{Mail};
ghost use Rattle.pool_view.specs.Protocol.{Protocol};
ghost use Rattle.pool_view.specs.ProtocolMove.{ProtocolMove, all_steps, protocol_after_all};
ghost use Rattle.pool_view.specs.AbstractPool.{AbstractPool, IsIn, SameView};
ghost use Rattle.pool_view.specs.AbstractStep.{Takes};
ghost use Rattle.pool_view.specs.Safe.{Safe};
ghost use Rattle.pool_rules.specs.Linked.{HoldTogether, IsLinked, StayLinked};
ghost use Rattle.pool_rules.specs.PoolParts.{PoolParts};
ghost use Rattle.pool_rules.specs.Openings.{IsOpeningPool};
ghost use Rattle.pool_rules.specs.Wanted.{IsWanted, parts_with_mails};
ghost use Rattle.pool_rules.specs.Shown.{IsKnown, LeftRightly, SameParts, ShowsPool};

/// The parts of a pool that has just been opened are linked to a protocol.
pub fn openings_are_linked()
    ensures { (a : PoolParts) → IsOpeningPool a → HoldTogether a }
{}

/// Mails that are sent for the input or for a match keep the links: the orders of users, and a
/// Matched with a claim of a slot of the pool.
pub fn sent_mails_keep_links()
    ensures { (p : Protocol) (a : PoolParts) (mails : List Mail) → IsLinked p a
        → ((mail : Mail) → IsIn mail mails → IsWanted a.startds mail)
        → StayLinked p [] (parts_with_mails mails a) }
{}

/// Events go on from one another. Parts that have the same mails, jobs and reports in another order
/// are linked alike.
pub fn links_go_on()
    ensures events { (p : Protocol) (ms ns : List ProtocolMove) (b c : PoolParts)
        → StayLinked p ms b → StayLinked (protocol_after_all p ms) ns c
        → StayLinked p (ms ++ ns) c }
    ensures same { (p : Protocol) (a b : PoolParts) → SameParts a b → IsLinked p a
        → IsLinked p b }
{}

/// Linked parts show one abstract pool, which is the protocol's, and it is safe. Moves that keep
/// the links are abstract steps, each of which may be made.
pub fn linked_pools_are_safe()
    ensures shown { (p : Protocol) (a : PoolParts) → IsLinked p a → ShowsPool a p.pool }
    ensures one { (a : PoolParts) (v w : AbstractPool) → ShowsPool a v → ShowsPool a w
        → SameView v w }
    ensures safe { (p : Protocol) (a : PoolParts) (v : AbstractPool) → IsLinked p a
        → ShowsPool a v → Safe v }
    ensures steps { (p : Protocol) (a b : PoolParts) (ms : List ProtocolMove)
        (w : AbstractPool) → IsLinked p a → StayLinked p ms b → ShowsPool b w
        → Takes p.pool (all_steps p ms) w }
{}

/// Parts are linked to the protocol with any abstract pool that they show in place of its own: so a
/// pool takes the one that it makes of itself.
pub fn shown_pools_are_linked()
    ensures { (p : Protocol) (a : PoolParts) (v : AbstractPool) → IsLinked p a → ShowsPool a v
        → IsLinked (record p { pool = v }) a }
{}

/// An acknowledged job stays in the queue until it leaves it, and it leaves it only by the end of a
/// run that a startd reported, or by an order.
pub fn acknowledged_jobs_stay()
    ensures known { (p : Protocol) (a : PoolParts) (job : JobId) → IsLinked p a
        → IsIn job a.acked → IsKnown a job }
    ensures rightly { (p : Protocol) (a : PoolParts) (job : JobId) → IsLinked p a
        → IfSome (a.finished job) (λ e. LeftRightly a job e.state) }
{}
