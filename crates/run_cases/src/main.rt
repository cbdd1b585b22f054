//! Answers cases of runs of the pool, a line each.
#![tactic(auto)]

mod answers;
mod case;
mod parts;
mod run;
mod status;

use crate::answers::answer_all;
use std::io;

fn main(rt: HostRuntime) -> anyhow::Result<()> {
    let alloc = rt.alloc();
    let input = io::read_to_string(alloc, rt.reader())?;
    let mut answers = String::new(alloc);
    answer_all(&rt, alloc, input.as_str(), &mut answers)?;
    print!(rt; "{answers}")?;
    Ok(())
}
