// The runs, the marks and the ads that slots show.

ghost use Rattle.std.specs.Prelude.{◌≡◌, ◌++◌, IfOk, option_map};
ghost use Rattle.pool_shown.specs.Slots.{all_slots};
ghost use Rattle.startd_slot.specs.SlotMoves.{held_mark, mark_of};
ghost use Rattle.pool_shown.specs.ShownSlots.{boot_at, one_run, run_on, shown_slots, with_slot, with_slots};

use ad_value::{Copied, Memory};
use pool_outer::Daemon;
use pool_tables::Daemons;
use pool_view::{
    HeldClaim, MarkEntry, MarkEntryList, Run, RunList, SlotEntry, SlotEntryList, SlotMark,
};
use startd_core::{Held, Slot, SlotState, Startd};
use std::alloc::Global;

/// What slots show, in their order.
#[derive(Drop)]
pub struct ShownSlots {
    pub runs: RunList,
    pub marks: MarkEntryList,
    pub ads: SlotEntryList,
}

/// The runs, the marks and the ads of all slots, by the boots of their machines. Computes in
/// O(slots); the ads share their attributes.
pub fn shown_slots(
    alloc: Global,
    daemons: &Daemons,
    startds: &[Startd],
) -> Result<ShownSlots, Memory>
    ensures { IfOk result (λ shown. shown ≡ shown_slots daemons.now (all_slots startds.now)) }
{
    let mut shown = ShownSlots {
        runs: RunList::new(alloc),
        marks: MarkEntryList::new(alloc),
        ads: SlotEntryList::new(alloc),
    };
    for startd in startds {
        push_slots(alloc, daemons, &mut shown, startd.slots())?;
    }
    Ok(shown)
}

fn push_slots(
    alloc: Global,
    daemons: &Daemons,
    shown: &mut ShownSlots,
    slots: &[Slot],
) -> Result<(), Memory>
    ensures { IfOk result (λ _. shown.new ≡ with_slots daemons.now shown.old slots.now) }
{
    for slot in slots {
        push_slot(alloc, daemons, shown, slot)?;
    }
    Ok(())
}

fn push_slot(
    alloc: Global,
    daemons: &Daemons,
    shown: &mut ShownSlots,
    slot: &Slot,
) -> Result<(), Memory>
    ensures { IfOk result (λ _. shown.new ≡ with_slot daemons.now shown.old slot.now) }
{
    push_run(alloc, &mut shown.runs, slot)?;
    let mark = mark_of(boot_at(daemons, slot), &slot.state);
    shown.marks.push(MarkEntry {
        slot: slot.id,
        mark,
    })?;
    let ad = slot.ad.copy(alloc)?;
    shown.ads.push(SlotEntry { slot: slot.id, ad })?;
    Ok(())
}

fn push_run(alloc: Global, runs: &mut RunList, slot: &Slot) -> Result<(), Memory>
    ensures { IfOk result (λ _. runs.new ≡ runs.old ++ one_run (run_on slot.now)) }
{
    let Some(running) = slot.state.running() else {
        return Ok(());
    };
    let judged = running.judged.copy(alloc)?;
    runs.push(Run {
        slot: slot.id,
        run: running.run,
        job: running.job,
        until: running.until,
        judged,
    })?;
    Ok(())
}

fn boot_at(daemons: &Daemons, slot: &Slot) -> u64
    ensures { result ≡ boot_at daemons.now slot.now }
{
    match daemons.get(Daemon::Startd(slot.id.machine)) {
        Some(state) => state.boot,
        None => 0,
    }
}

fn mark_of(boot: u64, state: &SlotState) -> SlotMark
    ensures { result ≡ mark_of boot state.now }
{
    SlotMark {
        boot,
        ended: state.passed,
        held: held_mark(&state.held),
    }
}

fn held_mark(held: &Option<Held>) -> Option<HeldClaim>
    ensures { result ≡ option_map held_mark held.now }
{
    match held {
        Some(held) => Some(HeldClaim {
            claim: held.claim.no,
            last: held.last,
        }),
        None => None,
    }
}
