ghost use Rattle.std.specs.Prelude.{◌≡◌, ◌≤◌, ◌<◌, ◌^◌, ◌+◌, ◌*◌, [], ◌∷◌, length, replicate, Some, OnOk};
ghost use Rattle.submit_file.specs.declared.error.TheConstants.{MAX_JOBS};
ghost use Rattle.submit_file.specs.Errors.{UnlessMemory};
ghost use Rattle.submit_file.specs.OneJob.{common};
ghost use Rattle.submit_file.specs.JobMacros.{item_of, variable_in, variable_of, AreJobMacros, blocked, IsPlan};
ghost use Rattle.submit_file.specs.SubmittedJobs.{AddsJobs, jobs_in, items_of, over_items};

use crate::item_macros::set_job;
use crate::{Plan, Statement, SubmitError};
use ad_tree::AdList;
use line_text::MacroTable;
use std::alloc::Global;
use submit_lines::{Over, Queue};

/// Adds the jobs of the statement.
pub(crate) fn add_jobs(
    statement: Statement<'_>,
    alloc: Global,
    queue: &Queue,
    table: &mut MacroTable,
    ads: &mut AdList,
) -> Result<(), SubmitError>
    requires reading { statement.heading.now < 2 ^ 63 }
    requires few { length ads.old + jobs_in queue.now.copies queue.now.over ≤ MAX_JOBS }
    requires blocked { table.old
        ≡ blocked (variable_in queue.now.over) statement.file.now.table }
    ensures { UnlessMemory (AddsJobs
        (common statement.entry.heading) statement.entry.file.now statement.entry.line
        (items_of queue.now.copies queue.now.over) ads.old ads.new) result }
{
    let plan = statement.plan(alloc, table)?;
    add_planned(&plan, alloc, queue, table, ads)
}

fn add_planned(
    plan: &Plan<'_>,
    alloc: Global,
    queue: &Queue,
    table: &mut MacroTable,
    ads: &mut AdList,
) -> Result<(), SubmitError>
    requires reading { plan.now.statement.heading.now < 2 ^ 63 }
    requires few { length ads.old + jobs_in queue.now.copies queue.now.over ≤ MAX_JOBS }
    requires plan { IsPlan (variable_in queue.now.over) plan.now }
    requires table { AreJobMacros
        (variable_in queue.now.over) plan.now.statement.file.now.table table.old }
    ensures { UnlessMemory (AddsJobs
        (common plan.now.statement.heading) plan.now.statement.file.now
        plan.now.statement.line
        (items_of queue.now.copies queue.now.over) ads.old ads.new) result }
{
    match &queue.over {
        Some(over) => add_items(plan, alloc, queue.copies, over, table, ads),
        None => add_copies(plan, alloc, queue.copies, None, table, ads),
    }
}

fn add_items(
    plan: &Plan<'_>,
    alloc: Global,
    copies: u64,
    over: &Over,
    table: &mut MacroTable,
    ads: &mut AdList,
) -> Result<(), SubmitError>
    requires reading { plan.now.statement.heading.now < 2 ^ 63 }
    requires few { length ads.old + copies * length over.now.items ≤ MAX_JOBS }
    requires plan { IsPlan (Some over.now.variable) plan.now }
    requires table { AreJobMacros
        (Some over.now.variable) plan.now.statement.file.now.table table.old }
    ensures { UnlessMemory (AddsJobs
        (common plan.now.statement.heading) plan.now.statement.file.now
        plan.now.statement.line
        (over_items copies over.now.variable over.now.items) ads.old ads.new) result }
{
    let variable = over.variable.as_str();
    for item in over.items.as_slice() {
        match add_copies(
            plan,
            alloc,
            copies,
            Some((variable, item.as_str())),
            table,
            ads,
        ) {
            Ok(()) => {}
            Err(error) => return Err(error),
        }
    }
    Ok(())
}

fn add_copies(
    plan: &Plan<'_>,
    alloc: Global,
    copies: u64,
    item: Option<(&str, &str)>,
    table: &mut MacroTable,
    ads: &mut AdList,
) -> Result<(), SubmitError>
    requires reading { plan.now.statement.heading.now < 2 ^ 63 }
    requires few { length ads.old + copies ≤ MAX_JOBS }
    requires plan { IsPlan (variable_of (item_of item)) plan.now }
    requires table { AreJobMacros
        (variable_of (item_of item)) plan.now.statement.file.now.table table.old }
    ensures made { UnlessMemory (AddsJobs
        (common plan.now.statement.heading) plan.now.statement.file.now
        plan.now.statement.line
        (replicate copies (item_of item.entry)) ads.old ads.new) result }
    ensures count { OnOk result (length ads.new ≡ length ads.old + copies) }
    ensures table { OnOk result (AreJobMacros
        (variable_of (item_of item.entry)) plan.now.statement.file.now.table table.new) }
{
    for _ in 0..copies {
        match add_job(plan, alloc, item, table, ads) {
            Ok(()) => {}
            Err(error) => return Err(error),
        }
    }
    Ok(())
}

// Adds the next job.
fn add_job(
    plan: &Plan<'_>,
    alloc: Global,
    item: Option<(&str, &str)>,
    table: &mut MacroTable,
    ads: &mut AdList,
) -> Result<(), SubmitError>
    requires reading { plan.now.statement.heading.now < 2 ^ 63 }
    requires few { length ads.old < MAX_JOBS }
    requires plan { IsPlan (variable_of (item_of item)) plan.now }
    requires table { AreJobMacros
        (variable_of (item_of item)) plan.now.statement.file.now.table table.old }
    ensures made { UnlessMemory (AddsJobs
        (common plan.now.statement.heading) plan.now.statement.file.now
        plan.now.statement.line
        (item_of item.entry ∷ []) ads.old ads.new) result }
    ensures count { OnOk result (length ads.new ≡ length ads.old + 1) }
    ensures table { OnOk result (AreJobMacros
        (variable_of (item_of item.entry)) plan.now.statement.file.now.table table.new) }
{
    let proc = ads.len() as u32;
    set_job(alloc, table, proc, item)?;
    match plan.job_ad(alloc, table, proc) {
        Ok(ad) => {
            ads.push(ad)?;
            Ok(())
        }
        Err(error) => Err(error),
    }
}
