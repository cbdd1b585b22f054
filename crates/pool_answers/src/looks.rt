// What a pool offers, and what it asks for.

ghost use Rattle.std.specs.Prelude.{◌≡◌, ◌++◌, OnOk, string_bytes};
ghost use Rattle.daemon_texts.specs.ListTexts.{behind_tabs};
ghost use Rattle.claim_id.specs.Texts.{job_text};

use crate::refusals::write_slot;
use cases::escape;
use daemon_texts::write_job;
use pool_mail::{Request, SlotAd};
use pool_parts::Look;
use std::alloc::AllocError;
use std::fmt::Write;

/// Appends a look: its length, the jobs that are idle, and the slots with their names, each behind
/// a tab. Computes in O(jobs + slots).
pub fn write_look(look: &Look, out: &mut String) -> Result<(), AllocError> {
    let length = look.length;
    write!(out, "\t{length}")?;
    write_requests(look.idle.as_slice(), out)?;
    for slot in look.slots.as_slice() {
        write_slot_name(slot, out)?;
    }
    Ok(())
}

/// Appends the jobs of requests, each behind a tab. Computes in O(requests).
pub fn write_requests(requests: &[Request], out: &mut String) -> Result<(), AllocError>
    ensures { OnOk result (string_bytes out.new
        ≡ string_bytes out.old ++ behind_tabs (λ r. job_text r.job) requests.now) }
{
    for request in requests {
        out.push('\t')?;
        write_job(request.job, out)?;
    }
    Ok(())
}

fn write_slot_name(slot: &SlotAd, out: &mut String) -> Result<(), AllocError> {
    out.push('\t')?;
    write_slot(slot.slot, out)?;
    out.push(' ')?;
    escape(slot.name.as_str(), out)
}
