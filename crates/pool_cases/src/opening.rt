// Whether a pool may open.

ghost use Rattle.std.specs.Prelude.{◌≡◌, IfOk, true};
ghost use Rattle.pool_cases.specs.Opened.{HasLittle, HasMachineCount, HasMachines};
ghost use Rattle.pool_state.specs.Openings.{CanOpen};
ghost use Rattle.queue_tx.specs.Printable.{HasPrintableKeys};

use crate::keys::has_printable_keys;
use ad_value::Memory;
use pool_parts::{MAX_BYTES, queue_size};
use pool_state::{
    LAST_POOL_BOOT, MAX_JOBS, MAX_MACHINES, MAX_SLOTS, Opening, count_jobs, count_machines,
};
use receipt_roll::MAX_ITEMS;
use std::alloc::Global;

/// Whether a pool may open with these parts, and each key of its queue can be printed. Computes in
/// O(slots + jobs * log jobs + size of the queue's ads).
pub(crate) fn can_open(alloc: Global, opening: &Opening) -> Result<bool, Memory>
    ensures can { IfOk result (λ can. can ≡ true → CanOpen opening.now) }
    ensures keys { IfOk result (λ can. can ≡ true → HasPrintableKeys opening.now.queue) }
{
    let jobs = count_jobs(alloc, &opening.queue)?;
    Ok(
        has_machines(opening)
            && has_little(opening)
            && jobs <= MAX_JOBS
            && has_printable_keys(&opening.queue),
    )
}

// Its slots stand in order and are on as many machines as there are marks, and neither are too
// many.
fn has_machines(opening: &Opening) -> bool
    ensures { result ≡ true → HasMachines opening.now }
{
    match count_machines(opening.slots.as_slice()) {
        Some(machines) => is_machine_count(opening, machines as usize),
        None => false,
    }
}

fn is_machine_count(opening: &Opening, machines: usize) -> bool
    ensures { result ≡ true → HasMachineCount opening.now machines }
{
    0 < machines
        && machines <= MAX_MACHINES
        && opening.slots.len() <= MAX_SLOTS
        && opening.end_marks.len() == machines
}

fn has_little(opening: &Opening) -> bool
    ensures { result ≡ true → HasLittle opening.now }
{
    opening.next_tx <= MAX_ITEMS
        && queue_size(&opening.queue) <= MAX_BYTES
        && opening.pool_boot <= LAST_POOL_BOOT
}
