//! What the events of startds do to the parts of a pool.

ghost use Rattle.std.specs.Prelude.{◌≡◌, ℕ, [], ◌∷◌, max, Option, Some, IfSome, slice_get};
ghost use Rattle.ad_eval.specs.Judgement.{Judgement};
ghost use Rattle.pool_mail.specs.Mails.{receivers_of};
ghost use Rattle.pool_mail.specs.declared.end.Ending.{Ending};
ghost use Rattle.pool_mail.specs.declared.mail.Mail.{Mail};
ghost use Rattle.pool_outer.specs.declared.gate.Daemon.TheVariants.{Startd};
ghost use Rattle.pool_view.specs.Protocol.{Protocol};
ghost use Rattle.pool_view.specs.ProtocolMove.{PassTime, protocol_after_all};
ghost use Rattle.pool_view.specs.AbstractPool.{IsIn};
ghost use Rattle.startd_slot.specs.declared.slot.Slot.{Slot};
ghost use Rattle.startd_slot.specs.Mails.{asked_claim};
ghost use Rattle.startd_slot.specs.SlotMoves.{IsJudgedHere};
ghost use Rattle.startd_core.specs.Permits.{permit_in};
ghost use Rattle.startd_core.specs.Startds.{StartdValue, after_end, after_mail, after_reboot, after_tick, slot_of_claim};
ghost use Rattle.pool_rules.specs.Launched.{IsPermitOf};
ghost use Rattle.pool_rules.specs.Linked.{IsLinked, StayLinked};
ghost use Rattle.pool_rules.specs.PoolParts.{PoolParts};
ghost use Rattle.pool_rules.specs.StartdEvents.{parts_at_reading, moves_of_boots, moves_of_ended_run, moves_of_startd_mail, moves_of_ticks, reports_of_end, parts_with_startd};

/// A reading that is taken makes the moment the greater of both. It comes first in every event that
/// has one.
pub fn readings_keep_links()
    ensures { (p : Protocol) (a : PoolParts) (reading : ℕ) → IsLinked p a
        → StayLinked p (PassTime (max a.moment reading) ∷ []) (parts_at_reading reading a) }
{}

/// A startd that receives a mail keeps the links, by the moves of the slot of which the mail
/// speaks. The mail was sent to it, and its match, where there is one, is of the mail's ad and the
/// slot's.
pub fn received_mails_keep_links()
    ensures { (p : Protocol) (a : PoolParts) (machine : ℕ) (v : StartdValue) (mail : Mail)
        (judged : Option Judgement) (reading : ℕ) → IsLinked p a
        → slice_get a.startds machine ≡ Some v → IsIn mail a.mails
        → IsIn (Startd machine) (receivers_of mail)
        → ((slot : Slot) → slot_of_claim v (asked_claim mail) ≡ Some slot
        → IfSome judged (IsJudgedHere slot mail))
        → StayLinked p (moves_of_startd_mail v mail judged reading)
        (parts_with_startd machine (after_mail v mail judged reading) [] a) }
{}

/// What a startd launches is a run of the abstract pool after the event, which was started by a
/// match of its slot's ad and its job's.
pub fn launches_are_matched()
    ensures { (p : Protocol) (b : PoolParts) (v : StartdValue) (mail : Mail)
        (judged : Option Judgement) (reading : ℕ)
        → StayLinked p (moves_of_startd_mail v mail judged reading) b
        → ((slot : Slot) → slot_of_claim v (asked_claim mail) ≡ Some slot
        → IfSome judged (IsJudgedHere slot mail))
        → IfSome (permit_in (after_mail v mail judged reading).step.answer)
        (IsPermitOf (protocol_after_all p (moves_of_startd_mail v mail judged reading)).pool) }
{}

/// A startd in which the program of a run ends keeps the links too. The end is said of the job of
/// that run.
pub fn ended_runs_keep_links()
    ensures { (p : Protocol) (a : PoolParts) (machine : ℕ) (v : StartdValue) (ending : Ending)
        (reading : ℕ) → IsLinked p a → slice_get a.startds machine ≡ Some v
        → StayLinked p (moves_of_ended_run v ending)
        (parts_with_startd machine (after_end v ending reading) (reports_of_end v ending) a) }
{}

/// So does one for which time passes, and one whose machine boots, by the moves of its slots one
/// after the other.
pub fn ticks_and_boots_keep_links()
    ensures ticks { (p : Protocol) (a : PoolParts) (machine : ℕ) (v : StartdValue) (reading : ℕ)
        → IsLinked p a → slice_get a.startds machine ≡ Some v
        → StayLinked p (moves_of_ticks v reading)
        (parts_with_startd machine (after_tick v reading) [] a) }
    ensures boots { (p : Protocol) (a : PoolParts) (machine : ℕ) (v : StartdValue) (reading : ℕ)
        → IsLinked p a → slice_get a.startds machine ≡ Some v
        → StayLinked p (moves_of_boots v)
        (parts_with_startd machine (after_reboot v reading) [] a) }
{}
