//! Answers cases of matchmaking: a command a line on standard input, an answer a line on standard
//! output.
//!
//! There are commands of accounts, of a collector and of a snapshot: README.md says what each
//! answers.
#![tactic(auto)]

mod accounts;
mod answers;
mod clustering;
mod collecting;
mod negotiating;
mod readers;
mod snapshots;

use crate::answers::answer_all;
use anyhow::Result;
use std::io;

fn main(rt: HostRuntime) -> Result<()> {
    let alloc = rt.alloc();
    let input = io::read_to_string(alloc, rt.reader())?;
    let mut answers = String::new(alloc);
    answer_all(alloc, input.as_str(), &mut answers)?;
    print!(rt; "{answers}")?;
    Ok(())
}
