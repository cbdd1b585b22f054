use cases::{CaseError, escape};
use daemon_mails::write_mails;
use queue_record::{PrintError, print_tx};
use queue_tx::Tx;
use schedd_plan::JobPlan;
use schedd_state::ScheddStep;
use std::alloc::Global;

/// Appends the mails that a schedd sends, and the transaction that is to be logged or `-`.
pub(crate) fn write_step(
    alloc: Global,
    step: &ScheddStep,
    out: &mut String,
) -> Result<(), CaseError> {
    write_mails(alloc, step.mails.as_slice(), out)?;
    out.push('\t')?;
    match step.plan {
        Some(plan) => write_plan(alloc, plan, out),
        None => {
            out.push('-')?;
            Ok(())
        }
    }
}

fn write_plan(alloc: Global, plan: JobPlan, out: &mut String) -> Result<(), CaseError> {
    match plan.tx(alloc) {
        Ok(tx) => write_tx(alloc, &tx, out),
        Err(_) => Err(CaseError::Memory),
    }
}

fn write_tx(alloc: Global, tx: &Tx, out: &mut String) -> Result<(), CaseError> {
    match print_tx(alloc, tx) {
        Ok(text) => escape(text.as_str(), out)?,
        Err(PrintError::TooLong { .. }) => out.push_str("TooLong")?,
        Err(PrintError::Memory) => return Err(CaseError::Memory),
    }
    Ok(())
}
