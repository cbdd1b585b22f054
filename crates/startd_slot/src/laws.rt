//! What holds of every slot.

ghost use Rattle.std.specs.Prelude.{◌≡◌, ℕ, true, Option, Some, IfSome};
ghost use Rattle.ad_eval.specs.Judgement.{Judgement};
ghost use Rattle.pool_mail.specs.declared.end.Ending.{Ending};
ghost use Rattle.pool_mail.specs.declared.mail.Mail.{Mail};
ghost use Rattle.pool_view.specs.Facts.{Facts};
ghost use Rattle.pool_view.specs.Protocol.{Protocol};
ghost use Rattle.pool_view.specs.ProtocolMove.{MayAll};
ghost use Rattle.pool_view.specs.SlotPart.{IsPart, part_after_all};
ghost use Rattle.pool_view.specs.Safe.{Safe};
ghost use Rattle.startd_slot.specs.declared.slot.Slot.{Slot};
ghost use Rattle.startd_slot.specs.declared.slot.SlotState.{SlotState};
ghost use Rattle.startd_slot.specs.Consistent.{IsConsistent, IsSettled};
ghost use Rattle.startd_slot.specs.Cues.{cue_of_mail, cue_of_end, LeadsTo};
ghost use Rattle.startd_slot.specs.EndingTable.{after_ending};
ghost use Rattle.startd_slot.specs.Mails.{asked_claim, reaction_to};
ghost use Rattle.startd_slot.specs.Over.{SayOnlyOver, SayOver, named_run};
ghost use Rattle.startd_slot.specs.SlotMoves.{IsJudgedHere, IsTold, moves_of_end, moves_of_mail, part_of};
ghost use Rattle.startd_slot.specs.SlotStates.{runs_on};
ghost use Rattle.startd_slot.specs.Starting.{RunsStartMatched};

/// A run is started by an Activate alone, under the claim that its slot holds, with a number above
/// all that the claim has used, where the slot has no run, while its lease is to come, and by a
/// match of its job's ad and the slot's. It is the run and the job that the Activate names, and
/// what its ad says.
pub fn runs_start_matched()
    ensures { RunsStartMatched }
{}

/// What a mail makes of a consistent slot is consistent, and so is what the end of its run makes of
/// it.
pub fn slots_stay_consistent()
    ensures mails { (boot : ℕ) (slot : Slot) (mail : Mail) (judged : Option Judgement)
        (reading : ℕ) → IsConsistent boot slot.id slot.state → IsSettled slot.state
        → IsConsistent boot slot.id (reaction_to boot slot mail judged reading).state }
    ensures ends { (boot : ℕ) (slot : Slot) (ending : Ending) (reading : ℕ)
        → runs_on slot.state ending.run ≡ true
        → IsConsistent boot slot.id slot.state → IsSettled slot.state
        → IsConsistent boot slot.id (after_ending ending reading slot.state).state }
{}

/// The cue that a row brings to a slot is one that the table of slot states knows there, and the
/// slot's pair is then the one to which it leads; without cue the pair stays.
pub fn cues_are_known()
    ensures mails { (boot : ℕ) (slot : Slot) (mail : Mail) (judged : Option Judgement)
        (reading : ℕ) → IsConsistent boot slot.id slot.state → IsSettled slot.state
        → LeadsTo (cue_of_mail boot slot mail judged reading) slot.state.pair
        (reaction_to boot slot mail judged reading).state.pair }
    ensures ends { (boot : ℕ) (slot : Slot) (ending : Ending) (reading : ℕ)
        → runs_on slot.state ending.run ≡ true → IsConsistent boot slot.id slot.state
        → LeadsTo (Some (cue_of_end slot.state)) slot.state.pair
        (after_ending ending reading slot.state).state.pair }
{}

/// A Gone or an Ended is sent only of a run that can start no more and is not on the slot, and only
/// of the run that the mail names, or that has ended.
pub fn only_past_runs_are_said_over()
    ensures mails { (boot : ℕ) (slot : Slot) (mail : Mail) (judged : Option Judgement)
        (reading : ℕ) → IsConsistent boot slot.id slot.state
        → SayOnlyOver boot (reaction_to boot slot mail judged reading).state
        (reaction_to boot slot mail judged reading).mails }
    ensures ends { (boot : ℕ) (slot : Slot) (ending : Ending) (reading : ℕ)
        → runs_on slot.state ending.run ≡ true → IsConsistent boot slot.id slot.state
        → SayOnlyOver boot (after_ending ending reading slot.state).state
        (after_ending ending reading slot.state).mails }

    // Of which run.
    ensures mails_named { (boot : ℕ) (slot : Slot) (mail : Mail) (judged : Option Judgement)
        (reading : ℕ) → SayOver (λ run. named_run mail ≡ Some run)
        (reaction_to boot slot mail judged reading).mails }
    ensures ends_named { (s : SlotState) (ending : Ending) (reading : ℕ)
        → SayOver (λ run. run ≡ ending.run) (after_ending ending reading s).mails }
{}

/// What a mail makes of the slot of which it speaks is the moves of the protocol that are named for
/// its row: they change the slot, as a part of the protocol, so; and they may be made where the
/// slot is a part of the protocol and what the mail tells was sent. So it is with the end of a run.
pub fn reactions_are_moves()
    ensures mails { (boot : ℕ) (slot : Slot) (mail : Mail) (judged : Option Judgement)
        (reading : ℕ) → IsConsistent boot slot.id slot.state
        → IfSome (asked_claim mail) (λ claim. claim.slot ≡ slot.id)
        → part_after_all (moves_of_mail boot slot mail judged reading) (part_of boot slot)
        ≡ part_of boot
        (record slot { state = (reaction_to boot slot mail judged reading).state }) }
    ensures mails_may { (p : Protocol) (boot : ℕ) (slot : Slot) (mail : Mail)
        (judged : Option Judgement) (reading : ℕ) → IsConsistent boot slot.id slot.state
        → IfSome (asked_claim mail) (λ claim. claim.slot ≡ slot.id)
        → Facts p → IsPart p (part_of boot slot)
        → IsTold p mail → IfSome judged (IsJudgedHere slot mail)
        → MayAll p (moves_of_mail boot slot mail judged reading) }

    // The end of a run.
    ensures ends { (boot : ℕ) (slot : Slot) (ending : Ending) (reading : ℕ)
        → runs_on slot.state ending.run ≡ true → IsConsistent boot slot.id slot.state
        → part_after_all (moves_of_end slot ending) (part_of boot slot)
        ≡ part_of boot (record slot { state = (after_ending ending reading slot.state).state }) }
    ensures ends_may { (p : Protocol) (boot : ℕ) (slot : Slot) (ending : Ending)
        → runs_on slot.state ending.run ≡ true → IsConsistent boot slot.id slot.state
        → Facts p → Safe p.pool → IsPart p (part_of boot slot)
        → MayAll p (moves_of_end slot ending) }
{}
