//! What holds of every protocol.

ghost use Rattle.std.specs.Prelude.{List};
ghost use Rattle.claim_id.specs.declared.numbers.RunNo.{RunNo};
ghost use Rattle.ad_eval.specs.Judgement.{Judgement};
ghost use Rattle.pool_view.specs.AbstractPool.{IsDead};
ghost use Rattle.pool_view.specs.AbstractStep.{Takes};
ghost use Rattle.pool_view.specs.Safe.{Safe};
ghost use Rattle.pool_view.specs.Course.{course, course_opening};
ghost use Rattle.pool_view.specs.Facts.{Facts, IsOpening};
ghost use Rattle.pool_view.specs.Protocol.{Protocol};
ghost use Rattle.pool_view.specs.ProtocolMove.{ProtocolMove, MayAll, MayMove, MovesTo, Remembers, all_steps, protocol_after, protocol_after_all, steps_of};

/// What always holds of a protocol holds of one that has just been opened, and its pool is safe.
pub fn openings_have_facts()
    ensures { (p : Protocol) → IsOpening p → Facts p × Safe p.pool }
{}

/// A move keeps what always holds of a protocol, and keeps its pool safe.
pub fn moves_keep_facts()
    ensures facts { (p : Protocol) (m : ProtocolMove) → Facts p → Safe p.pool → MayMove p m
        → Facts (protocol_after p m) }
    ensures safe { (p : Protocol) (m : ProtocolMove) → Facts p → Safe p.pool → MayMove p m
        → Safe (protocol_after p m).pool }
{}

/// A move makes its abstract steps, each of which may be made.
pub fn moves_make_steps()
    ensures { (p : Protocol) (m : ProtocolMove) → Facts p → MayMove p m
        → Takes p.pool (steps_of p m) (protocol_after p m).pool }
{}

/// So do moves one after the other, up to another protocol of the same parts.
pub fn protocols_go_on()
    ensures { (p q : Protocol) (ms : List ProtocolMove) → Facts p → Safe p.pool → MovesTo p ms q
        → Facts q × Safe q.pool × Takes p.pool (all_steps p ms) q.pool }
{}

/// Nothing that was sent, said, ordered or marked is taken back, and no dead run comes back.
pub fn moves_take_nothing_back()
    ensures remembered { (p : Protocol) (ms : List ProtocolMove)
        → Remembers p (protocol_after_all p ms) }
    ensures dead { (p : Protocol) (ms : List ProtocolMove) (run : RunNo) → Facts p
        → Safe p.pool → MayAll p ms
        → IsDead p.pool run → IsDead (protocol_after_all p ms).pool run }
{}

/// The conditions of the moves can be met: from an opening a job is submitted, granted, started,
/// kept on, ordered to be removed, stopped and taken out.
pub fn a_course_can_be_run()
    ensures opening { (judged : Judgement) → IsOpening (course_opening judged) }
    ensures goes { (judged : Judgement) → MayAll (course_opening judged) (course judged) }
{}
