//! Cases on a pool: a command a line on standard input, an answer a line on standard output.
#![tactic(auto)]

mod ads;
mod answers;
mod fields;
mod judging;
mod runs;

use crate::answers::answer_all;
use anyhow::Result;
use std::io;

fn main(rt: HostRuntime) -> Result<()> {
    let alloc = rt.alloc();
    let input = io::read_to_string(alloc, rt.reader())?;
    let mut answers = String::new(alloc);
    answer_all(alloc, input.as_str(), &mut answers)?;
    print!(rt; "{answers}")?;
    Ok(())
}
