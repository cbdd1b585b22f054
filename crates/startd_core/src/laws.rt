//! What holds of every startd.

ghost use Rattle.std.specs.Prelude.{◌≡◌, ℕ, ◌<◌, ◌||◌, List, [], None, Option, IfSome};
ghost use Rattle.ad_tree.specs.Ad.{Attributes};
ghost use Rattle.ad_eval.specs.Judgement.{Judgement};
ghost use Rattle.pool_mail.specs.declared.end.Ending.{Ending};
ghost use Rattle.pool_mail.specs.declared.mail.Mail.{Mail};
ghost use Rattle.pool_mail.specs.declared.settings.Settings.{Settings};
ghost use Rattle.pool_view.specs.Protocol.{Protocol};
ghost use Rattle.pool_view.specs.ProtocolMove.{MayAll};
ghost use Rattle.pool_view.specs.SlotPart.{IsPart, part_after_all};
ghost use Rattle.pool_view.specs.Safe.{Safe};
ghost use Rattle.startd_slot.specs.declared.reaction.Reaction.{Reaction};
ghost use Rattle.startd_slot.specs.declared.slot.Slot.{Slot};
ghost use Rattle.startd_slot.specs.Consistent.{IsConsistent};
ghost use Rattle.startd_slot.specs.Cues.{LeadsTo};
ghost use Rattle.startd_slot.specs.SlotMoves.{moves_of_boot, part_of};
ghost use Rattle.startd_slot.specs.SlotStates.{slot_after_boot};
ghost use Rattle.startd_core.specs.declared.offers.Machine.{Machine};
ghost use Rattle.startd_core.specs.declared.tick.TickRow.{TickRow};
ghost use Rattle.startd_core.specs.declared.ticks.Ticks.{Ticks};
ghost use Rattle.startd_core.specs.DueTicks.{has_any_entered};
ghost use Rattle.startd_core.specs.OverHere.{SaysOnlyOver};
ghost use Rattle.startd_core.specs.Permits.{GivesPermit, permit_in};
ghost use Rattle.startd_core.specs.Sound.{IsSound};
ghost use Rattle.startd_core.specs.Startds.{StartdValue, after_end, after_mail, after_reboot, after_tick, booted_slot, concluded, ticked_slot, with_slot};
ghost use Rattle.startd_core.specs.TickTable.{after_tick_row, slot_row};
ghost use Rattle.startd_core.specs.TimeMoves.{cue_of_tick, moves_of_tick};

/// What always holds of a startd (`IsSound`) holds of a new one, and each event leaves it so.
pub fn startds_stay_sound()
    ensures new { (v : StartdValue) → v.slots ≡ [] → IsSound v }
    ensures slots { (v : StartdValue) (name : List ℕ) (ad : Attributes) → IsSound v
        → IsSound (with_slot name ad v) }
    ensures mails { (v : StartdValue) (mail : Mail) (judged : Option Judgement) (reading : ℕ)
        → IsSound v → IsSound (after_mail v mail judged reading).startd }
    ensures ends { (v : StartdValue) (ending : Ending) (reading : ℕ) → IsSound v
        → IsSound (after_end v ending reading).startd }
    ensures ticks { (v : StartdValue) (reading : ℕ) → IsSound v
        → IsSound (after_tick v reading).startd }
    ensures boots { (v : StartdValue) (reading : ℕ) → IsSound v
        → IsSound (after_reboot v reading).startd }
{}

/// The cue that a tick brings to a slot is one that the table of slot states knows there, and the
/// slot's pair is then the one to which it leads; without cue the pair stays.
pub fn cues_of_time_are_known()
    ensures { (slot : Slot) (settings : Settings) (reading : ℕ)
        → LeadsTo (cue_of_tick (slot_row slot settings reading)) slot.state.pair
        (after_tick_row (slot_row slot settings reading) reading slot.state).pair }
{}

/// What a tick makes of a slot is the moves of the protocol that are named for its row, and so is
/// what a boot makes of it: they change the slot, as a part of the protocol, so, and they may be
/// made where the slot is a part of the protocol.
pub fn time_and_boots_are_moves()
    ensures ticks { (boot : ℕ) (slot : Slot) (settings : Settings) (reading : ℕ)
        → IsConsistent boot slot.id slot.state
        → part_after_all (moves_of_tick (slot_row slot settings reading) slot.state)
        (part_of boot slot) ≡ part_of boot (record slot {
          state = after_tick_row (slot_row slot settings reading) reading slot.state;
        }) }
    ensures ticks_may { (p : Protocol) (boot : ℕ) (slot : Slot) (settings : Settings)
        (reading : ℕ) → IsConsistent boot slot.id slot.state → IsPart p (part_of boot slot)
        → MayAll p (moves_of_tick (slot_row slot settings reading) slot.state) }

    // A boot.
    ensures boots { (boot next reading : ℕ) (slot : Slot)
        → part_after_all (moves_of_boot next slot) (part_of boot slot)
        ≡ part_of next (record slot { state = slot_after_boot reading }) }
    ensures boots_may { (p : Protocol) (boot next : ℕ) (slot : Slot) → boot < next
        → Safe p.pool → IsPart p (part_of boot slot) → MayAll p (moves_of_boot next slot) }
{}

/// That an offer is settled and that an Update is sent changes no slot as a part of the protocol,
/// after a reaction, a tick and a boot.
pub fn offers_and_updates_are_no_moves()
    ensures reactions { (m : Machine) (slot : Slot) (offers : ℕ) (r : Reaction) (reading : ℕ)
        → part_of m.boot (record slot { state = (concluded m slot offers r reading).state })
        ≡ part_of m.boot (record slot { state = r.state }) }
    ensures ticks { (m : Machine) (settings : Settings) (slot : Slot) (row : TickRow)
        (reading : ℕ) (t : Ticks)
        → part_of m.boot
        (record slot { state = (ticked_slot m settings slot row reading t).state })
        ≡ part_of m.boot (record slot { state = after_tick_row row reading slot.state }) }
    ensures boots { (boot : ℕ) (slot : Slot) (reading : ℕ) (t : Ticks)
        → part_of boot (record slot { state = (booted_slot slot reading t).state })
        ≡ part_of boot (record slot { state = slot_after_boot reading }) }
{}

/// That a startd is restless says that a slot entered Owner, Retiring or Vacating in the last tick
/// or after it: a tick says it of itself alone, and each event after it adds what it does.
pub fn restless_startds_have_entered()
    ensures ticks { (v : StartdValue) (reading : ℕ) → (after_tick v reading).startd.restless
        ≡ has_any_entered v.slots (after_tick v reading).startd.slots }
    ensures mails { (v : StartdValue) (mail : Mail) (judged : Option Judgement) (reading : ℕ)
        → (after_mail v mail judged reading).startd.restless ≡ (v.restless
        || has_any_entered v.slots (after_mail v mail judged reading).startd.slots) }
    ensures ends { (v : StartdValue) (ending : Ending) (reading : ℕ)
        → (after_end v ending reading).startd.restless ≡ (v.restless
        || has_any_entered v.slots (after_end v ending reading).startd.slots) }
{}

/// A Gone or an Ended is sent only of a run that can start no more and is on no slot of the
/// machine, as the startd stands after the event. Of a slot that the machine lacks, that is a run
/// of an earlier boot, or one of the seq 0, which no claim has.
pub fn only_past_runs_are_said_over()
    ensures mails { (v : StartdValue) (mail : Mail) (judged : Option Judgement) (reading : ℕ)
        → IsSound v → SaysOnlyOver (after_mail v mail judged reading) }
    ensures ends { (v : StartdValue) (ending : Ending) (reading : ℕ) → IsSound v
        → SaysOnlyOver (after_end v ending reading) }
    ensures ticks { (v : StartdValue) (reading : ℕ) → SaysOnlyOver (after_tick v reading) }
    ensures boots { (v : StartdValue) (reading : ℕ) → SaysOnlyOver (after_reboot v reading) }
{}

/// A Permit comes of an accepted Activate alone, and is of its run, its job and what its ad says.
pub fn permits_come_of_activates()
    ensures mails { (v : StartdValue) (mail : Mail) (judged : Option Judgement) (reading : ℕ)
        → IfSome (permit_in (after_mail v mail judged reading).step.answer)
        (GivesPermit v mail judged reading) }
    ensures ends { (v : StartdValue) (ending : Ending) (reading : ℕ)
        → permit_in (after_end v ending reading).step.answer ≡ None }
    ensures ticks { (v : StartdValue) (reading : ℕ)
        → permit_in (after_tick v reading).step.answer ≡ None }
    ensures boots { (v : StartdValue) (reading : ℕ)
        → permit_in (after_reboot v reading).step.answer ≡ None }
{}
