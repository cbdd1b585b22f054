//! Answers cases of the parts that daemons are made of: a case a line on standard input, an answer
//! a line on standard output.
//!
//! `next PAIR CUE`, `claim TEXT`, `claim-text MACHINE SLOT BOOT SEQ SECRET`, `job TEXT`,
//! `job-text CLUSTER PROC`, `safe PART ..`, and the mails, ends of runs, ticks and boots of a
//! startd, or the mails, ticks, checks, transactions and crashes of a schedd: README.md says what
//! each answers.
#![tactic(auto)]

mod answers;
mod daemon;
mod judging;
mod log;
mod pairs;
mod schedd_answers;
mod schedds;
mod settings;
mod startds;
mod texts;
mod views;

use crate::answers::answer_all;
use anyhow::Result;
use std::io;

fn main(rt: HostRuntime) -> Result<()> {
    let alloc = rt.alloc();
    let input = io::read_to_string(alloc, rt.reader())?;
    let mut answers = String::new(alloc);
    answer_all(alloc, input.as_str(), &mut answers)?;
    print!(rt; "{answers}")?;
    Ok(())
}
