//! Answers cases of the queue log: a case a line on standard input, an answer a line on standard
//! output.
//!
//! `read BYTES`, `line BYTES NUMBER`, `print OP ..`, `apply COUNT KEYAD .. OP ..`,
//! `asking AD COUNT KEYAD .. OP ..`, `cuts BYTES`, `tails BYTES`, `torn GAP BYTES`, `stops BYTES`,
//! `fails GAP BYTES`, `beside GAP BYTES`, `kind AD`, `boots BYTES`, `boot-line NUMBER`: README.md
//! says what each answers.
#![tactic(auto)]

mod answers;
mod asking;
mod beside;
mod boots;
mod fails;
mod lines;
mod logs;
mod mending;
mod operations;
mod printable;
mod queues;
mod reading;
mod recovery;
mod stops;
mod tails;
mod torn;

use crate::answers::answer_all;
use anyhow::Result;
use std::io;

fn main(rt: HostRuntime) -> Result<()> {
    let alloc = rt.alloc();
    let input = io::read_to_string(alloc, rt.reader())?;
    let mut answers = String::new(alloc);
    answer_all(alloc, input.as_str(), &mut answers)?;
    print!(rt; "{answers}")?;
    Ok(())
}
