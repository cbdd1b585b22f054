use ad_parse::parse_ad;
use ad_tree::{Ad, Expr};
use ad_value::names::job::{PROC_ID, REQUEST_MEMORY};
use ad_value::{Copied, Text, Value};
use anyhow::Result;
use claim_id::JobId;
use matchmaker::{Submitter, SubmitterList};
use pool_mail::{Request, RequestList};
use std::alloc::Global;

// An ad as that of a submitted job.
const JOB: &str = "\
ClusterId = 1
ProcId = 0
Owner = \"user\"
QDate = 86400
JobUniverse = 5
JobStatus = 1
Cmd = \"/bin/sleep\"
Args = \"1\"
Iwd = \"/home/user/runs\"
In = \"\"
Out = \"out\"
Err = \"\"
UserLog = \"job.log\"
JobPrio = 0
Requirements = TARGET.Cpus >= RequestCpus && TARGET.Memory >= RequestMemory && \
TARGET.Disk >= RequestDisk
Rank = 0
RequestCpus = 1
RequestMemory = 64
RequestDisk = 1024
";

/// One submitter, with so many requests in so many autoclusters.
pub(crate) fn submitters(alloc: Global, count: u32, clusters: u32) -> Result<SubmitterList> {
    let mut list = SubmitterList::new(alloc);
    list.push(Submitter {
        user: Text::from_str(alloc, "user")?,
        effective: 500_000_000,
        in_use: 0,
        ceiling: None,
        jobs: requests(alloc, count, clusters)?,
    })?;
    Ok(list)
}

fn requests(alloc: Global, count: u32, clusters: u32) -> Result<RequestList> {
    let base = parse_ad(alloc, JOB)?;
    let mut list = RequestList::new(alloc);
    for proc in 0..count {
        let cluster = proc.checked_rem(clusters).unwrap_or(0);
        list.push(request(alloc, &base, proc, cluster)?)?;
    }
    Ok(list)
}

// Requests that ask for as much memory are of one autocluster.
fn request(alloc: Global, base: &Ad, proc: u32, memory: u32) -> Result<Request> {
    let mut ad = base.copy(alloc)?;
    ad.set(alloc, PROC_ID, integer(proc))?;
    ad.set(alloc, REQUEST_MEMORY, integer(memory))?;
    Ok(Request {
        job: JobId { cluster: 1, proc },
        ad,
    })
}

fn integer(number: u32) -> Expr {
    Expr::Lit(Value::Int(i64::from(number)))
}
