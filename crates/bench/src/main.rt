//! How long what the daemons call takes, by how much there is of it. README.md says what each kind
//! of run measures.
#![tactic(auto)]

mod changes;
mod counting;
mod crowds;
mod cycle;
mod job_lines;
mod logs;
mod questions;
mod queue;
mod requests;
mod schedd;
mod schedds;
mod slots;
mod submit;

use crate::cycle::time_cycle;
use crate::queue::time_queue;
use crate::schedd::time_schedds;
use crate::submit::time_submit;
use anyhow::{Context, Result, bail};
use std::env;

const FORM: &str = "the words are `submit N`, `cycle REQUESTS AUTOCLUSTERS SLOTS`, `queue N`, \
    `schedd N` or `small`";

fn main(rt: HostRuntime) -> Result<()> {
    let what = env::args(&rt)?.nth(1).context(FORM)?;
    match what.as_str() {
        "submit" => time_submit(&rt, number_at(&rt, 2)?),
        "cycle" => time_cycle(
            &rt,
            number_at(&rt, 2)?,
            number_at(&rt, 3)?,
            number_at(&rt, 4)?,
        ),
        "queue" => time_queue(&rt, number_at(&rt, 2)?),
        "schedd" => time_schedds(&rt, number_at(&rt, 2)?),
        "small" => time_small(&rt),
        _ => bail!(FORM),
    }
}

// A small run of each kind.
fn time_small(rt: &HostRuntime) -> Result<()> {
    time_submit(rt, 300)?;
    time_cycle(rt, 300, 4, 16)?;
    time_queue(rt, 300)?;
    time_schedds(rt, 30)
}

fn number_at(rt: &HostRuntime, place: usize) -> Result<u32> {
    let word = env::args(rt)?.nth(place).context(FORM)?;
    Ok(word.parse()?)
}
