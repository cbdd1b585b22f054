// The jobs of a submit file.

use anyhow::Result;
use std::time::Instant;
use submit_file::jobs;

// Three of the thirty give each job another value.
const COMMANDS: &str = "\
executable = /usr/bin/simulate
arguments = --seed $(Process) --steps 1000 --grid 64x64
universe = vanilla
initialdir = /home/alice/runs
input = grid.txt
output = out.$(Process)
error = err.$(Process)
log = job.log
priority = 5
requirements = TARGET.OpSys == \"LINUX\" && TARGET.Arch == \"X86_64\"
rank = TARGET.Memory + 10 * TARGET.Cpus
request_cpus = 2
request_memory = 2G
request_disk = 10G
job_lease_duration = 2400
on_exit_hold = ExitCode =!= 0
on_exit_remove = ExitBySignal =?= FALSE && ExitCode == 0
periodic_hold = FALSE
periodic_remove = time() - QDate > 86400
periodic_release = FALSE
owner = alice
base = /home/alice
project = climate
getenv = false
notification = never
+Project = \"$(project)\"
+Group = \"physics\"
+Worth = 5 * 7
+Base = \"$(base)/$(project)\"
MY.Paper = 1998
";

/// Times the making of the jobs of a file of thirty commands and `queue N`.
pub(crate) fn time_submit(rt: &HostRuntime, count: u32) -> Result<()> {
    let text = format!(in rt.alloc(); "{COMMANDS}queue {count}\n")?;
    time(rt, text.as_str())
}

fn time(rt: &HostRuntime, text: &str) -> Result<()> {
    let start = Instant::now(rt)?;
    let ads = jobs(rt.alloc(), text, 1, "bob", 86_400)?;
    let micros = start.elapsed(rt)?.as_micros();
    let count = ads.len();
    println!(rt; "submit: {count} jobs")?;
    eprintln!(rt; "submit: {micros} microseconds")?;
    Ok(())
}
