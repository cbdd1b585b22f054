ghost use Rattle.std.specs.Prelude.{OnOk};
ghost use Rattle.ad_value.specs.Writing.{AddsText};
ghost use Rattle.daemon_texts.specs.ListTexts.{runs_text};

use crate::ids::write_run;
use claim_id::RunNo;
use std::alloc::AllocError;
use std::fmt::Write;

/// Appends a list of runs, each part behind a tab: how many there are, and each. Computes in
/// O(runs).
pub fn write_runs(runs: &[RunNo], out: &mut String) -> Result<(), AllocError>
    ensures { OnOk result (AddsText out.old out.new (runs_text runs.now)) }
{
    let count = runs.len();
    write!(out, "\t{count}")?;
    for run in runs {
        out.push('\t')?;
        write_run(*run, out)?;
    }
    Ok(())
}
