// Slots with claims.

ghost use Rattle.std.specs.Prelude.{◌≡◌};
ghost use Rattle.pool_shown.specs.Slots.{first_claimed, first_claimed_of, is_claimed};

use claim_id::SlotId;
use startd_core::Startd;
use startd_slot::Slot;

/// The first slot that has a claim, or for which one waits.
pub(crate) fn first_claimed(startds: &[Startd]) -> Option<SlotId>
    ensures { result ≡ first_claimed startds.now }
{
    for startd in startds {
        if let Some(slot) = first_claimed_of(startd.slots()) {
            return Some(slot);
        }
    }
    None
}

fn first_claimed_of(slots: &[Slot]) -> Option<SlotId>
    ensures { result ≡ first_claimed_of slots.now }
{
    for slot in slots {
        if is_claimed(slot) {
            return Some(slot.id);
        }
    }
    None
}

fn is_claimed(slot: &Slot) -> bool
    ensures { result ≡ is_claimed slot.now }
{
    slot.state.held.is_some() || slot.state.rival.is_some()
}
