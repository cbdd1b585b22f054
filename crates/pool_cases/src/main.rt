//! Answers cases of a pool: a case a line on standard input, an answer a line on standard output.
//! README.md says what each case is, and what it answers.
#![tactic(auto)]

mod asks;
mod events;
mod judging;
mod keys;
mod lines;
mod loggable_jobs;
mod matched;
mod open;
mod opening;
mod outcome;
mod receipts;
mod rolls;
mod script;
mod setup;
mod times;

use crate::lines::answer_all;
use anyhow::Result;
use std::io;

fn main(rt: HostRuntime) -> Result<()> {
    let alloc = rt.alloc();
    let input = io::read_to_string(alloc, rt.reader())?;
    let mut answers = String::new(alloc);
    answer_all(&rt, input.as_str(), &mut answers)?;
    print!(rt; "{answers}")?;
    Ok(())
}
