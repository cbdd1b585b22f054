//! What holds of a slot as a part of a protocol. A startd that shows of each thing that it does
//! that its slot changes as the moves say needs no pool, no other slot and no other machine.

ghost use Rattle.std.specs.Prelude.{◌≡◌, ◌≢◌, ℕ, ◌<◌, List, map, true, false, None, Some};
ghost use Rattle.claim_id.specs.declared.numbers.ClaimNo.{ClaimNo};
ghost use Rattle.claim_id.specs.declared.numbers.RunNo.{RunNo};
ghost use Rattle.pool_view.specs.declared.run.Run.{Run};
ghost use Rattle.pool_view.specs.AbstractPool.{IsIn, IsSpent, IsSpentAt};
ghost use Rattle.pool_view.specs.Safe.{Safe};
ghost use Rattle.pool_view.specs.Facts.{Facts};
ghost use Rattle.pool_view.specs.Protocol.{HasMark, Holds, HoldsBefore, IsHeldBefore, IsHeldIn, Protocol};
ghost use Rattle.pool_view.specs.ProtocolMove.{HasNoRun, IsFreeFor, IsNotRun, MayAll, MayMove, ProtocolMove, protocol_after, protocol_after_all};
ghost use Rattle.pool_view.specs.SlotPart.{AreDistinct, ArePlaced, HasParts, IsPart, ShowsParts, SlotPart, is_of_slot, own_part_after, part_after_all};

/// A move of a slot changes it as the move says.
pub fn moves_change_their_slot()
    ensures { (p : Protocol) (m : ProtocolMove) (s : SlotPart) → Facts p → MayMove p m
        → is_of_slot s.slot m ≡ true → IsPart p s
        → IsPart (protocol_after p m) (own_part_after s m) }
{}

/// A move elsewhere leaves it as it is.
pub fn moves_elsewhere_keep_slots()
    ensures { (p : Protocol) (m : ProtocolMove) (s : SlotPart) → Facts p → Safe p.pool
        → MayMove p m → is_of_slot s.slot m ≡ false → IsPart p s
        → IsPart (protocol_after p m) s }
{}

/// So over moves one after the other a slot, and all slots, stay parts of the protocol.
pub fn slots_stay_parts()
    ensures one { (p : Protocol) (ms : List ProtocolMove) (s : SlotPart) → Facts p → Safe p.pool
        → MayAll p ms → IsPart p s → IsPart (protocol_after_all p ms) (part_after_all ms s) }
    ensures all { (p : Protocol) (ms : List ProtocolMove) (parts : List SlotPart)
        → Facts p → Safe p.pool → MayAll p ms → HasParts p parts
        → HasParts (protocol_after_all p ms) (map (part_after_all ms) parts) }
{}

/// The pool has the runs, the marks and the ads of its slots; and slots whose runs, marks and ads
/// it has are parts of its protocol.
pub fn parts_make_the_pool()
    ensures shown { (p : Protocol) (parts : List SlotPart) → HasParts p parts
        → ShowsParts p.pool parts }
    ensures parts { (p : Protocol) (parts : List SlotPart) → AreDistinct parts
        → ArePlaced parts → ShowsParts p.pool parts → HasParts p parts }
{}

/// What a startd's moves want of the protocol is what its slot shows: a claim that is held, and
/// held with lower numbers, a slot that is free for a claim, a later boot, a run that is spent, a
/// slot without a run, a slot with another run, and the slot's own run and ad.
pub fn slots_show_conditions()
    ensures held { (p : Protocol) (s : SlotPart) (claim : ClaimNo) → IsPart p s
        → s.slot ≡ claim.slot → IsHeldIn s.mark claim → Holds p.pool.marks claim }
    ensures held_before { (p : Protocol) (s : SlotPart) (run : RunNo) → IsPart p s
        → s.slot ≡ run.claim.slot → IsHeldBefore s.mark run → HoldsBefore p.pool.marks run }
    ensures free { (p : Protocol) (s : SlotPart) (claim : ClaimNo) → IsPart p s
        → s.slot ≡ claim.slot → IsFreeFor claim s.mark
        → HasMark p.pool.marks claim.slot (IsFreeFor claim) }
    ensures earlier { (p : Protocol) (s : SlotPart) (boot : ℕ) → IsPart p s
        → s.mark.boot < boot → HasMark p.pool.marks s.slot (λ m. m.boot < boot) }
    ensures spent { (p : Protocol) (s : SlotPart) (run : RunNo) → IsPart p s
        → s.slot ≡ run.claim.slot → IsSpentAt run s.mark → IsSpent p.pool run }

    // The runs.
    ensures no_run { (p : Protocol) (s : SlotPart) → IsPart p s
        → s.run ≡ None → HasNoRun p.pool s.slot }
    ensures other_run { (p : Protocol) (s : SlotPart) (run : RunNo) → IsPart p s
        → s.slot ≡ run.claim.slot → ((r : Run) → s.run ≡ Some r → r.run ≢ run)
        → IsNotRun p.pool run }
    ensures own_run { (p : Protocol) (s : SlotPart) (r : Run) → IsPart p s → s.run ≡ Some r
        → IsIn r p.pool.runs }
    ensures ad { (p : Protocol) (s : SlotPart) → IsPart p s → p.pool.slots s.slot ≡ Some s.ad }
{}
