ghost use Rattle.std.specs.Option.{SomeIff};
ghost use Rattle.daemon_texts.specs.SlotFields.{IsSlotField, slot_of};

use claim_id::SlotId;

/// `M:S`. Computes in O(bytes).
pub fn slot_id_of(field: &str) -> Option<SlotId>
    ensures { SomeIff result (IsSlotField field.now) (slot_of field.now) }
{
    let (machine, slot) = field.split_once(':')?;
    match (machine.parse::<u16>(), slot.parse::<u16>()) {
        (Ok(machine), Ok(slot)) => Some(SlotId { machine, slot }),
        _ => None,
    }
}
