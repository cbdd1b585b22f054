ghost use Rattle.std.specs.Prelude.{◌≡◌, decimal, IfOk, OnOk};
ghost use Rattle.submit_file.specs.JobMacros.{item_of, job_macros, variable_in, blocked};

use crate::LinesSoFar;
use ad_value::{Copied, Memory};
use line_text::MacroTable;
use std::alloc::Global;
use submit_lines::Queue;

// A value that has no expansion.
const NO_REFERENCE: &str = "$(";

/// The macros that lines have set, and those of a job, each of which has no expansion. Computes in
/// O(bytes of the macros).
pub(crate) fn blocked_table(
    lines: &LinesSoFar,
    alloc: Global,
    queue: &Queue,
) -> Result<MacroTable, Memory>
    ensures { IfOk result (λ t. t ≡ blocked (variable_in queue.now.over) lines.now.table) }
{
    let mut table = lines.table.copy(alloc)?;
    let item = match &queue.over {
        Some(over) => Some((over.variable.as_str(), NO_REFERENCE)),
        None => None,
    };
    set_job_macros(alloc, &mut table, NO_REFERENCE, item)?;
    Ok(table)
}

/// Sets the macros of the job of this number. Computes in O(bytes of the item) where names do not
/// collide.
pub(crate) fn set_job(
    alloc: Global,
    table: &mut MacroTable,
    proc: u32,
    item: Option<(&str, &str)>,
) -> Result<(), Memory>
    ensures { OnOk result (
        table.new ≡ job_macros (decimal proc) (item_of item.entry) table.old) }
{
    let number = format!(in alloc; "{proc}")?;
    set_job_macros(alloc, table, number.as_str(), item)
}

// Sets the macros of a job: its number, and the variable of its queue statement, where that has
// items.
fn set_job_macros(
    alloc: Global,
    table: &mut MacroTable,
    number: &str,
    item: Option<(&str, &str)>,
) -> Result<(), Memory>
    ensures { OnOk result (
        table.new ≡ job_macros number.now (item_of item.entry) table.old) }
{
    if let Some((variable, item)) = item {
        table.set(alloc, variable, item)?;
    }
    table.set(alloc, "Process", number)?;
    table.set(alloc, "ProcId", number)?;
    Ok(())
}
