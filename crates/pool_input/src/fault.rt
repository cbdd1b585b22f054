ghost use Rattle.std.specs.Prelude.{◌≡◌};
ghost use Rattle.pool_input.specs.Faults.{config_fault, submit_fault, fault_status, IsFileFault, IsStatus};
ghost use Rattle.pool_input.specs.Status.{stage_of, IsAtFiles};

use crate::files::ReadError;
use crate::status::{Kind, Status};
use ad_value::{Memory, Text};
use pool_config::ConfigError;
use pool_outer::Which;
use std::alloc::Global;
use submit_file::SubmitError;

/// Why a file can't be had.
#[derive(Clone, Copy)]
pub enum Fault {
    /// It is refused at that line, from 1, or as a whole (line 0).
    Refused { line: u32, kind: Kind },
    Limit { which: Which },
    /// The store failed.
    Disk,
    Memory,
}

impl From<ReadError> for Fault {
    ghost use Rattle.std.specs.Prelude.{◌≡◌};
    ghost use Rattle.pool_input.specs.Faults.{read_fault};

    ghost from_gives = { λ error fault. fault ≡ read_fault error };

    fn from(error: ReadError) -> Fault {
        match error {
            ReadError::Missing => Fault::Refused {
                line: 0,
                kind: Kind::Missing,
            },
            ReadError::TooLong => Fault::Limit {
                which: Which::Input,
            },
            ReadError::Failed => Fault::Disk,
            ReadError::Memory => Fault::Memory,
        }
    }
}

impl From<Memory> for Fault {
    ghost use Rattle.std.specs.Prelude.{◌≡◌};
    ghost use Rattle.pool_input.specs.declared.fault.Fault.TheVariants as fault;

    ghost from_gives = { λ _ f. f ≡ fault.Memory };

    fn from(_: Memory) -> Fault {
        Fault::Memory
    }
}

fn refused(line: u32, kind: Kind) -> Fault
    ensures { result ≡ Fault.Refused line kind }
{
    Fault::Refused { line, kind }
}

fn limit(which: Which) -> Fault
    ensures { result ≡ Fault.Limit which }
{
    Fault::Limit { which }
}

/// Why a configuration can't be had that its reader refuses.
pub(crate) fn config_fault(error: &ConfigError) -> Fault
    ensures { result ≡ config_fault error.now }
{
    match error {
        ConfigError::BadLine { line } => refused(*line, Kind::BadLine),
        ConfigError::Unknown { line } => refused(*line, Kind::Unknown),
        ConfigError::BadValue { line } => refused(*line, Kind::BadValue),
        ConfigError::Macro { line, .. } => refused(*line, Kind::Macro),
        ConfigError::Machines { .. } => limit(Which::Machines),
        ConfigError::Slots { .. } => limit(Which::Slots),
        ConfigError::Full { .. } => limit(Which::Attributes),
        ConfigError::NoMachine => refused(0, Kind::NoMachine),
        ConfigError::Memory => Fault::Memory,
    }
}

/// Why a submit file can't be had that its reader refuses.
pub(crate) fn submit_fault(error: &SubmitError) -> Fault
    ensures { result ≡ submit_fault error.now }
{
    match error {
        SubmitError::BadLine { line } => refused(*line, Kind::BadLine),
        SubmitError::Unsupported { line } => refused(*line, Kind::Unsupported),
        SubmitError::Universe { line } => refused(*line, Kind::Universe),
        SubmitError::NoExecutable { line } => refused(*line, Kind::NoExecutable),
        SubmitError::BadExpr { line } => refused(*line, Kind::BadExpr),
        SubmitError::Count { .. } => limit(Which::Jobs),
        SubmitError::Full { .. } => limit(Which::Attributes),
        SubmitError::Macro { line, .. } => refused(*line, Kind::Macro),
        SubmitError::NoQueue => refused(0, Kind::NoQueue),
        SubmitError::Memory => Fault::Memory,
    }
}

/// The status of a run, of the file with that name.
pub(crate) fn fault_status(alloc: Global, name: &str, fault: Fault) -> Status
    requires { IsFileFault fault }
    ensures status { IsStatus (fault_status name.now fault) result }
    ensures early { IsAtFiles (stage_of result) }
{
    match fault {
        Fault::Refused { line, kind } => input(alloc, name, line, kind),
        Fault::Limit { which } => Status::Limit { which },
        Fault::Disk => Status::DiskFault,
        Fault::Memory => Status::Memory,
    }
}

fn input(alloc: Global, name: &str, line: u32, kind: Kind) -> Status
    ensures status { IsStatus (Status.Input name.now line kind) result }
    ensures early { IsAtFiles (stage_of result) }
{
    match Text::from_str(alloc, name) {
        Ok(file) => Status::Input { file, line, kind },
        Err(_) => Status::Memory,
    }
}
