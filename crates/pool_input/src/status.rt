ghost use Rattle.std.specs.Prelude.{◌≡◌, ◌⊎◌, IfOk};
ghost use Rattle.pool_input.specs.Status.{line_of, status_number};
ghost use Rattle.pool_input.specs.declared.status.Status.{Status};

use ad_value::{Memory, Text};
use pool_outer::Which;
use std::alloc::Global;
use std::io;

/// Why an input file isn't accepted.
#[derive(Clone, Copy)]
pub enum Kind {
    /// There is no such file.
    Missing,
    /// It isn't UTF-8.
    NotText,
    /// A malformed line.
    BadLine,
    /// A configuration sets a name that there isn't.
    Unknown,
    /// A value isn't one of its name.
    BadValue,
    /// A macro can't be replaced.
    Macro,
    /// A configuration has no machine.
    NoMachine,
    /// A command that this pool has no use for.
    Unsupported,
    /// A universe other than vanilla.
    Universe,
    /// A queue statement without an executable.
    NoExecutable,
    /// A value that is no expression.
    BadExpr,
    /// A submit file has no queue statement.
    NoQueue,
}

/// How a run ended.
#[derive(Drop)]
pub enum Status {
    /// The pool was closed, and no job is left in its queue.
    Done,
    /// The words aren't of the form `run CONFIG [SUBMIT ...]`.
    Usage,
    /// That file is refused at that line, from 1, or as a whole (line 0).
    Input { file: Text, line: u32, kind: Kind },
    /// The pool was closed, and a job is left in its queue.
    Stuck,
    /// The store failed.
    DiskFault,
    /// The output failed.
    OutFault,
    /// Memory ran out.
    Memory,
    /// That line of the queue log is none.
    BadLog { line: u64 },
    /// That limit was reached.
    Limit { which: Which },
}

impl Status {
    /// How a program ends whose words can't be had: a word that isn't UTF-8 is malformed. Computes
    /// in O(1).
    pub fn of_unread_words(error: &io::Error) -> Status
        ensures { (result ≡ Status.Usage) ⊎ (result ≡ Status.Memory) }
    {
        match error.kind() {
            io::ErrorKind::OutOfMemory => Status::Memory,
            _ => Status::Usage,
        }
    }

    /// The line for a person, without newline; empty where the pool was closed.
    pub fn line(&self, alloc: Global) -> Result<Text, Memory>
        ensures { IfOk result (λ t. t ≡ line_of self.now) }
    {
        let line = match self {
            Status::Done | Status::Stuck => String::new(alloc),
            Status::Usage => String::from_str(alloc, "usage: condor_pool run CONFIG [SUBMIT ...]")?,
            Status::Input { file, line, kind } => {
                format!(in alloc; "input: {file}:{line}: {}", kind.name())?
            }
            Status::DiskFault => String::from_str(alloc, "disk fault")?,
            Status::OutFault => String::from_str(alloc, "output fault")?,
            Status::Memory => String::from_str(alloc, "out of memory")?,
            Status::BadLog { line } => format!(in alloc; "log: line {line}")?,
            Status::Limit { which } => format!(in alloc; "limit: {}", limit_name(*which))?,
        };
        Ok(Text::from(line))
    }

    /// The program's exit status.
    pub fn number(&self) -> u8
        ensures { result ≡ status_number self.now }
    {
        match self {
            Status::Done => 0,
            Status::Usage => 1,
            Status::Input { .. } => 2,
            Status::Stuck => 3,
            Status::DiskFault => 4,
            Status::OutFault => 5,
            Status::Memory => 6,
            Status::BadLog { .. } => 7,
            Status::Limit { .. } => 8,
        }
    }
}

impl Kind {
    ghost use Rattle.std.specs.Prelude.{◌≡◌};
    ghost use Rattle.pool_input.specs.Status.{kind_name};

    pub fn name(self) -> &'static str
        ensures { result.now ≡ kind_name self }
    {
        match self {
            Kind::Missing => "Missing",
            Kind::NotText => "NotText",
            Kind::BadLine => "BadLine",
            Kind::Unknown => "Unknown",
            Kind::BadValue => "BadValue",
            Kind::Macro => "Macro",
            Kind::NoMachine => "NoMachine",
            Kind::Unsupported => "Unsupported",
            Kind::Universe => "Universe",
            Kind::NoExecutable => "NoExecutable",
            Kind::BadExpr => "BadExpr",
            Kind::NoQueue => "NoQueue",
        }
    }
}

ghost use Rattle.pool_input.specs.Status.{limit_name};

fn limit_name(which: Which) -> &'static str
    ensures { result.now ≡ limit_name which }
{
    match which {
        Which::Machines => "Machines",
        Which::Slots => "Slots",
        Which::Jobs => "Jobs",
        Which::Attributes => "Attributes",
        Which::LogLine => "LogLine",
        Which::Input => "Input",
        Which::Bytes => "Bytes",
        Which::Roll => "Roll",
        Which::Events => "Events",
        Which::Users => "Users",
        Which::Boots => "Boots",
    }
}
