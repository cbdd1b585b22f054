// What a tick would find to do.

ghost use Rattle.std.specs.Prelude.{◌≡◌, true, IfOk, OnErr};
ghost use Rattle.startd_core.specs.DueTicks.{is_any_due, is_slot_due, is_start_seen, is_tick_tried};
ghost use Rattle.startd_core.specs.TickTable.{looks_at_start};

use crate::tick::{is_act, is_update_due, slot_row};
use ad_value::Memory;
use pool_mail::Settings;
use startd_slot::Slot;
use std::alloc::Global;

/// Whether a tick is to be tried, by what `Startd::due` answers: where one is due, and where there
/// was no memory to tell. Computes in O(1), without memory.
pub fn is_tick_tried(due: Result<bool, Memory>) -> bool
    ensures { result ≡ is_tick_tried due }
{
    match due {
        Ok(due) => due,
        Err(Memory) => true,
    }
}

/// Whether a tick would do something with one of the slots.
pub(crate) fn is_any_due(
    alloc: Global,
    slots: &[Slot],
    settings: &Settings,
    reading: u64,
) -> Result<bool, Memory>
    ensures due { IfOk result (λ due. due ≡ is_any_due slots.now settings.now reading) }
    ensures refused { OnErr result (is_start_seen slots.now ≡ true) }
{
    for slot in slots {
        let Ok(due) = is_slot_due(alloc, slot, settings, reading) else {
            return Err(Memory);
        };
        if due {
            return Ok(true);
        }
    }
    Ok(false)
}

// Whether a tick would do something with a slot.
fn is_slot_due(
    alloc: Global,
    slot: &Slot,
    settings: &Settings,
    reading: u64,
) -> Result<bool, Memory>
    ensures due { IfOk result (λ due. due ≡ is_slot_due slot.now settings.now reading) }
    ensures refused { OnErr result (looks_at_start slot.now.state.pair ≡ true) }
{
    if is_update_due(&slot.state, settings, reading) {
        return Ok(true);
    }
    match slot_row(alloc, slot, settings, reading) {
        Ok(row) => Ok(is_act(row)),
        Err(Memory) => Err(Memory),
    }
}
