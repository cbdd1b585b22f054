//! Answers cases of expressions, ads and their evaluation: a case a line on standard input, an
//! answer a line on standard output.
//!
//! `expr TEXT`, `ad TEXT`, `eval MY TARGET NAME NOW`, `holds MY TARGET NAME NOW`,
//! `rank MY TARGET NOW`, `judge JOB SLOT NOW`, `apart AD NAME MORE`, `size AD`: README.md says what
//! each answers.
#![tactic(auto)]

mod ads;
mod answers;
mod copies;
mod texts;

use crate::answers::answer_all;
use anyhow::Result;
use cases::CaseError;
use std::alloc::Global;
use std::io;
use std::thread::join;

// The cases are answered in a thread of their own, since the pool evaluates in threads: the deepest
// input fits into the stack that a thread gets.
fn main(rt: HostRuntime) -> Result<()> {
    let alloc = rt.alloc();
    let input = io::read_to_string(alloc, rt.reader())?;
    let (answers, ()) = join(&rt, || answers_to(alloc, input.as_str()), || ());
    let answers = answers?;
    print!(rt; "{answers}")?;
    Ok(())
}

fn answers_to(alloc: Global, input: &str) -> Result<String, CaseError> {
    let mut answers = String::new(alloc);
    answer_all(alloc, input, &mut answers)?;
    Ok(answers)
}
