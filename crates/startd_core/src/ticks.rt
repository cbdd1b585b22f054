// Slot after slot, as time passes and as the machine boots.

ghost use Rattle.std.specs.Prelude.{◌≡◌, ◌++◌, IfOk};
ghost use Rattle.startd_core.specs.Startds.{no_ticks, tells_at, after_slot, after_slots, after_row, after_boots, after_booted};
ghost use Rattle.startd_core.specs.Tellings.{with_told_slot};
ghost use Rattle.startd_core.specs.TickTable.{killed_by};

use crate::answer::RunList;
use crate::conclude::{has_changed, has_entered, tell};
use crate::offers::{Machine, copy_label, settle_offer};
use crate::tick::{TickRow, apply_row, is_kill, is_update_due, slot_row};
use ad_value::{Copied, Memory, Seq};
use pool_mail::{MailList, Settings};
use startd_slot::{Slot, SlotState};
use std::alloc::Global;

/// A list of slots.
pub(crate) type SlotList = Seq<Slot>;

/// The slots that were looked at, as they stand then, and what is sent and killed.
pub(crate) struct Ticks {
    pub slots: SlotList,
    pub offers: u64,
    pub mails: MailList,
    pub killed: RunList,
    pub restless: bool,
}

impl Drop for Ticks {
    fn drop(self) {
        let Ticks {
            slots: _slots,
            offers: _,
            mails: _mails,
            killed: _killed,
            restless: _,
        } = self;
    }
}

impl Ticks {
    pub(crate) fn new(alloc: Global, offers: u64) -> Ticks
        ensures { result ≡ no_ticks offers }
    {
        Ticks {
            slots: SlotList::new(alloc),
            offers,
            mails: MailList::new(alloc),
            killed: RunList::new(alloc),
            restless: false,
        }
    }

    pub(crate) fn into_parts(self) -> (SlotList, u64, MailList, RunList, bool)
        ensures { result ≡ (self.slots, self.offers, self.mails, self.killed, self.restless) }
    {
        let Ticks {
            slots,
            offers,
            mails,
            killed,
            restless,
        } = self;
        (slots, offers, mails, killed, restless)
    }

    /// Time passes for one more slot.
    fn tick(
        &mut self,
        alloc: Global,
        machine: Machine,
        settings: &Settings,
        slot: &Slot,
        reading: u64,
    ) -> Result<(), Memory>
        ensures { IfOk result (λ _. self.new
            ≡ after_slot machine settings.now slot.now reading self.old) }
    {
        let row = slot_row(alloc, slot, settings, reading)?;
        self.take_row(alloc, machine, settings, slot, row, reading)?;
        Ok(())
    }

    fn take_row(
        &mut self,
        alloc: Global,
        machine: Machine,
        settings: &Settings,
        slot: &Slot,
        row: TickRow,
        reading: u64,
    ) -> Result<(), Memory>
        ensures { IfOk result (λ _. self.new
            ≡ after_row machine settings.now slot.now row reading self.old) }
    {
        push_killed(&mut self.killed, row, &slot.state)?;
        let mut state = slot.state.copy(alloc)?;
        apply_row(&mut state, row, reading);
        self.offers = settle_offer(machine, slot.id, &mut state, self.offers)?;
        let tells = tells_at(slot, &state, settings, reading);
        self.add(alloc, slot, state, tells, reading)?;
        Ok(())
    }

    /// The machine boots with one more slot.
    fn boot(&mut self, alloc: Global, slot: &Slot, reading: u64) -> Result<(), Memory>
        ensures { IfOk result (λ _. self.new ≡ after_booted slot.now reading self.old) }
    {
        let state = SlotState::after_boot(reading);
        let tells = has_changed(&slot.state, &state);
        self.add(alloc, slot, state, tells, reading)?;
        Ok(())
    }

    // One more slot, which stands so, with an Update where it tells it.
    fn add(
        &mut self,
        alloc: Global,
        slot: &Slot,
        state: SlotState,
        tells: bool,
        reading: u64,
    ) -> Result<(), Memory>
        ensures { IfOk result (λ _. self.new
            ≡ with_told_slot slot.now state tells reading self.old) }
    {
        let mut state = state;
        tell(alloc, slot, &mut state, &mut self.mails, tells, reading)?;
        self.restless = self.restless || has_entered(&slot.state, &state);
        let after = with_state(alloc, slot, state)?;
        self.slots.push(after)?;
        Ok(())
    }
}

/// Time passes for slots, one after the other.
pub(crate) fn tick_slots(
    alloc: Global,
    machine: Machine,
    settings: &Settings,
    slots: &[Slot],
    reading: u64,
    offers: u64,
) -> Result<Ticks, Memory>
    ensures { IfOk result (λ t. t
        ≡ after_slots machine settings.now slots.now reading (no_ticks offers)) }
{
    let mut ticks = Ticks::new(alloc, offers);
    for slot in slots {
        ticks.tick(alloc, machine, settings, slot, reading)?;
    }
    Ok(ticks)
}

/// The machine boots with slots, one after the other.
pub(crate) fn boot_slots(
    alloc: Global,
    slots: &[Slot],
    reading: u64,
    offers: u64,
) -> Result<Ticks, Memory>
    ensures { IfOk result (λ t. t ≡ after_boots slots.now reading (no_ticks offers)) }
{
    let mut ticks = Ticks::new(alloc, offers);
    for slot in slots {
        ticks.boot(alloc, slot, reading)?;
    }
    Ok(ticks)
}

// Whether a slot tells how it stands.
fn tells_at(slot: &Slot, new: &SlotState, settings: &Settings, reading: u64) -> bool
    ensures { result ≡ tells_at slot.now new.now settings.now reading }
{
    has_changed(&slot.state, new) || is_update_due(&slot.state, settings, reading)
}

fn push_killed(killed: &mut RunList, row: TickRow, state: &SlotState) -> Result<(), Memory>
    ensures { IfOk result (λ _. killed.new ≡ killed.old ++ killed_by row state.now) }
{
    if !is_kill(row) {
        return Ok(());
    }
    if let Some(running) = state.running() {
        let run = running.run;
        killed.push(run)?;
    }
    Ok(())
}

// A copy of a slot, which stands so.
fn with_state(alloc: Global, slot: &Slot, state: SlotState) -> Result<Slot, Memory>
    ensures { IfOk result (λ after. after ≡ record slot.now { state = state }) }
{
    let (name, ad) = copy_label(alloc, slot)?;
    Ok(Slot {
        id: slot.id,
        name,
        ad,
        state,
    })
}
