ghost use Rattle.std.specs.Prelude.{◌≡◌};
ghost use Rattle.submit_lines.specs.Commands.{command_name, attribute_name};

use ad_value::names::job::{
    ARGS, ARGUMENTS, CMD, ERR, IN, IWD, JOB_LEASE_DURATION, JOB_PRIO, ON_EXIT_HOLD, ON_EXIT_REMOVE,
    OUT, PERIODIC_HOLD, PERIODIC_RELEASE, PERIODIC_REMOVE, REQUEST_CPUS, REQUEST_DISK,
    REQUEST_MEMORY, USER_LOG,
};
use ad_value::names::matching::{RANK, REQUIREMENTS};

/// A command that makes an attribute of a job, or that is looked at for it.
#[derive(Clone, Copy)]
pub enum Command {
    Executable,
    Arguments,
    Universe,
    InitialDir,
    Input,
    Output,
    Error,
    Log,
    Priority,
    Requirements,
    Rank,
    RequestCpus,
    RequestMemory,
    RequestDisk,
    JobLeaseDuration,
    OnExitHold,
    OnExitRemove,
    PeriodicHold,
    PeriodicRemove,
    PeriodicRelease,
}

impl Command {
    /// How the command is written. Computes in O(1).
    pub fn name(self) -> &'static str
        ensures { result.now ≡ command_name self }
    {
        match self {
            Command::Executable => "executable",
            Command::Arguments => "arguments",
            Command::Universe => "universe",
            Command::InitialDir => "initialdir",
            Command::Input => "input",
            Command::Output => "output",
            Command::Error => "error",
            Command::Log => "log",
            Command::Priority => "priority",
            Command::Requirements => "requirements",
            Command::Rank => "rank",
            Command::RequestCpus => "request_cpus",
            Command::RequestMemory => "request_memory",
            Command::RequestDisk => "request_disk",
            Command::JobLeaseDuration => "job_lease_duration",
            Command::OnExitHold => "on_exit_hold",
            Command::OnExitRemove => "on_exit_remove",
            Command::PeriodicHold => "periodic_hold",
            Command::PeriodicRemove => "periodic_remove",
            Command::PeriodicRelease => "periodic_release",
        }
    }

    /// The attribute that a value of the command sets: arguments in double quotes set another one
    /// than those without. The universe sets none. Computes in O(1).
    pub fn attribute(self, text: &str) -> &'static str
        ensures { result.now ≡ attribute_name self text.now }
    {
        match self {
            Command::Executable => CMD,
            Command::Arguments if text.starts_with('"') => ARGUMENTS,
            Command::Arguments => ARGS,
            Command::Universe => "",
            Command::InitialDir => IWD,
            Command::Input => IN,
            Command::Output => OUT,
            Command::Error => ERR,
            Command::Log => USER_LOG,
            Command::Priority => JOB_PRIO,
            Command::Requirements => REQUIREMENTS,
            Command::Rank => RANK,
            Command::RequestCpus => REQUEST_CPUS,
            Command::RequestMemory => REQUEST_MEMORY,
            Command::RequestDisk => REQUEST_DISK,
            Command::JobLeaseDuration => JOB_LEASE_DURATION,
            Command::OnExitHold => ON_EXIT_HOLD,
            Command::OnExitRemove => ON_EXIT_REMOVE,
            Command::PeriodicHold => PERIODIC_HOLD,
            Command::PeriodicRemove => PERIODIC_REMOVE,
            Command::PeriodicRelease => PERIODIC_RELEASE,
        }
    }
}
