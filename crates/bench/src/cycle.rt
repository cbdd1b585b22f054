// A negotiation cycle.

use crate::counting::cycle_of;
use crate::requests::submitters;
use crate::slots::offers;
use ad_tree::Expr;
use ad_value::Value;
use anyhow::{Result, bail};
use matchmaker::Snapshot;
use std::time::Instant;

/// Times a cycle of so many requests of one submitter, in so many autoclusters, over so many slots,
/// of which every other one starts no job.
pub(crate) fn time_cycle(rt: &HostRuntime, requests: u32, clusters: u32, slots: u32) -> Result<()> {
    let Ok(slots) = u16::try_from(slots) else {
        bail!("a cycle has fewer slots");
    };
    let snapshot = snapshot_of(rt, requests, clusters, slots)?;
    time(rt, &snapshot)
}

fn snapshot_of(rt: &HostRuntime, requests: u32, clusters: u32, slots: u16) -> Result<Snapshot> {
    let alloc = rt.alloc();
    Ok(Snapshot {
        now: 86_400,
        submitters: submitters(alloc, requests, clusters)?,
        slots: offers(alloc, slots)?,
        preemption: Expr::Lit(Value::Bool(false)),
    })
}

fn time(rt: &HostRuntime, snapshot: &Snapshot) -> Result<()> {
    if !snapshot.is_negotiable() {
        bail!("a cycle has fewer slots");
    }
    let start = Instant::now(rt)?;
    let matches = cycle_of(rt.alloc(), snapshot)?;
    let micros = start.elapsed(rt)?.as_micros();
    let count = matches.len();
    println!(rt; "cycle: {count} matches")?;
    eprintln!(rt; "cycle: {micros} microseconds")?;
    Ok(())
}
