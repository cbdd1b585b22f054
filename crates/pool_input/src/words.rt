ghost use Rattle.std.specs.Prelude.{◌≡◌, ◌↔◌, ℕ, List, Err, IfOk, IfErr};
ghost use Rattle.clap.specs.Words.{found_of, kind_of, rows_of};
ghost use Rattle.clap.specs.declared.error.kind.ErrorKind.TheVariants.{OutOfMemory};
ghost use Rattle.pool_input.specs.Words.{IsNoRun, IsOfForm, IsRun, file_names, texts};
ghost use Rattle.pool_input.specs.Command.{HasFiles, HasRead, submits_of};
ghost use Rattle.pool_input.specs.declared.words.WordsError.TheVariants.{Usage};

use crate::command::{CONFIG, RUN, SUBMIT, command_line};
use crate::form::is_run;
use clap::ArgMatches;
use std::alloc::{AllocError, Global};
use std::fmt;
use thiserror::Error;

/// The files that a command names.
#[derive(Drop)]
pub struct Named<'a> {
    /// The configuration.
    pub config: &'a str,
    /// The submit files, in order; perhaps none.
    pub submits: Vec<&'a str>,
}

/// Why words name no files.
#[derive(Clone, Copy, Error)]
pub enum WordsError {
    #[error("the words are not those of a run")]
    Usage,
    #[error("out of memory")]
    Memory,
}

impl fmt::Debug for WordsError {
    fn fmt<W: fmt::Write>(&self, f: &mut fmt::Formatter<W>) -> fmt::Result {
        fmt::Display::fmt(self, f)
    }
}

/// The files that the words name, `Usage` exactly where they are not of the form
/// `run CONFIG [SUBMIT ...]`. What words of the form name is read by clap. Computes in O(words).
pub fn read(alloc: Global, words: &[String]) -> Result<Named<'_>, WordsError>
    ensures files { IfOk result
        (λ n. IsRun (texts words.now) n.config.now (file_names n.submits.items)) }
    ensures usage { result ≡ Err Usage ↔ IsNoRun (texts words.now) }
{
    if !is_run(words) {
        return Err(WordsError::Usage);
    }
    match files_in(alloc, words) {
        Ok(named) => Ok(named),
        Err(_) => Err(WordsError::Memory),
    }
}

// The files that words of the form name, as clap reads them.
fn files_in(alloc: Global, words: &[String]) -> Result<Named<'_>, clap::Error>
    requires { IsOfForm (texts words.now) }
    ensures files { IfOk result
        (λ n. IsRun (texts words.now) n.config.now (file_names n.submits.items)) }
    ensures memory { IfErr result (λ e. kind_of e ≡ OutOfMemory) }
{
    let matches = matches_of(alloc, words)?;
    Ok(found_files(alloc, &matches)?)
}

// What clap finds in words of the form. It refuses none of them: an error is out of memory.
fn matches_of(alloc: Global, words: &[String]) -> Result<ArgMatches<'_>, clap::Error>
    requires { IsOfForm (texts words.now) }
    ensures found { IfOk result (λ m. (config : List ℕ) (submits : List (List ℕ))
        → IsRun (texts words.now) config submits → HasRead m config submits) }
    ensures memory { IfErr result (λ e. kind_of e ≡ OutOfMemory) }
{
    command_line(alloc)?.try_get_matches_from(words)
}

// The files that clap has found.
fn found_files<'a>(alloc: Global, matches: &ArgMatches<'a>) -> Result<Named<'a>, AllocError>
    requires { HasFiles matches.now }
    ensures { IfOk result (λ n. HasRead matches.now n.config.now (file_names n.submits.items)) }
{
    let run = matches.subcommand_matches(RUN).unwrap();
    let config = run.get_str(CONFIG).unwrap();
    let submits = submits_in(alloc, run)?;
    Ok(Named { config, submits })
}

// The submit files, of which clap has no entry where none is named.
fn submits_in<'a>(alloc: Global, run: &ArgMatches<'a>) -> Result<Vec<&'a str>, AllocError>
    ensures { IfOk result (λ s. file_names s.items ≡ submits_of (rows_of (found_of run.now))) }
{
    match run.get_strs(SUBMIT) {
        Some(names) => names.to_vec(alloc),
        None => Ok(Vec::new(alloc)),
    }
}
