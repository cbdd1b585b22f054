//! Answers cases of submit files, configurations and what they are made of: a case a line on
//! standard input, an answer a line on standard output.
//!
//! `lines TEXT`, `expand TEXT NAME=VALUE ..`, `words TEXT plain`, `words TEXT quoted`,
//! `launch AD`, `script TEXT MACHINE ..`, `load NUMBER JOBS`, `submit TEXT CLUSTER OWNER READING`,
//! `config TEXT`, `slots TEXT`:
//! README.md says what each answers.
#![tactic(auto)]

mod answers;
mod configs;
mod launches;
mod loads;
mod macros;
mod scripts;
mod submissions;
mod texts;

use crate::answers::answer_all;
use anyhow::Result;
use std::io;

fn main(rt: HostRuntime) -> Result<()> {
    let alloc = rt.alloc();
    let input = io::read_to_string(alloc, rt.reader())?;
    let mut answers = String::new(alloc);
    answer_all(alloc, input.as_str(), &mut answers)?;
    print!(rt; "{answers}")?;
    Ok(())
}
