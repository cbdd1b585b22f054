ghost use Rattle.std.specs.Prelude.{◌≡◌, IfOk, false};
ghost use Rattle.clap.specs.Words.{app_of, rule_of, shape_of};
ghost use Rattle.clap.specs.declared.builder.command.Command.TheViews.{out-Command};
ghost use Rattle.pool_input.specs.Command.{command_line, config_rule, run_shape, submit_rule};

use clap::{Arg, Command};
use std::alloc::{AllocError, Global};

pub(crate) const RUN: &str = "run";

pub(crate) const CONFIG: &str = "CONFIG";

pub(crate) const SUBMIT: &str = "SUBMIT";

const VERSION: &str = "0.1.0";

/// The command line of the program: its help, its version, and how its words are read. Computes in
/// O(1).
pub(crate) fn command_line<'a>(alloc: Global) -> Result<Command<'a>, AllocError>
    ensures { IfOk result (λ c. app_of c ≡ command_line) }
{
    let run = run_command(alloc)?;
    Command::new(alloc, "condor_pool")
        .version(VERSION)
        .about("An HTCondor pool in one process")
        .override_usage("condor_pool run CONFIG [SUBMIT ...]")
        .no_binary_name(true)
        .disable_help_subcommand(true)
        .subcommand_required(true)
        .subcommand(run)
}

fn run_command<'a>(alloc: Global) -> Result<Command<'a>, AllocError>
    ensures shape { IfOk result (λ c. shape_of c ≡ run_shape) }
    ensures local { IfOk result (λ c. (out-Command c).has_globals ≡ false) }
{
    Command::new(alloc, RUN)
        .about("Runs a pool until nothing is left to do, and prints its user log")
        .disable_help_flag(true)
        .arg(config_argument(alloc))?
        .arg(submit_argument(alloc))
}

fn config_argument<'a>(alloc: Global) -> Arg<'a>
    ensures rule { rule_of result ≡ config_rule }
    ensures local { result.global ≡ false }
{
    Arg::new(alloc, CONFIG)
        .required(true)
        .help("the pool's configuration")
}

fn submit_argument<'a>(alloc: Global) -> Arg<'a>
    ensures rule { rule_of result ≡ submit_rule }
    ensures local { result.global ≡ false }
{
    Arg::new(alloc, SUBMIT)
        .num_args(0..)
        .help("the submit files of its jobs")
}
