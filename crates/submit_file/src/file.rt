ghost use Rattle.std.specs.Prelude.{◌≡◌, ◌≤◌, ◌<◌, ◌^◌, ◌+◌, [], ◌∷◌, ◌-◌, min, length, IfOk, OnOk, IsTrue, IsFalse, ◌↔◌};
ghost use Rattle.submit_file.specs.declared.error.TheConstants.{MAX_JOBS};
ghost use Rattle.submit_file.specs.Errors.{UnlessMemory};
ghost use Rattle.submit_file.specs.OneJob.{Common, common};
ghost use Rattle.submit_file.specs.SubmittedJobs.{SubmittedJobs, Asks, Queues, Reads, HasProgram, TakesLines, TakesQueue, with_name, begun, AddsJobs, FitsIn, jobs_in, items_of, line_error};

use crate::copies::add_jobs;
use crate::item_macros::blocked_table;
use crate::{Heading, LinesSoFar, MAX_JOBS, Settings, Statement, SubmitError, expand_at};
use ad_tree::AdList;
use ad_value::{Memory, Seq};
use line_text::{Line, MacroTable, lines};
use std::alloc::Global;
use submit_lines::{LineFault, Queue, SubmitLine, is_built_in, read_line, read_queue};

/// What was read of a file.
#[derive(Drop)]
pub(crate) struct FileSoFar {
    pub(crate) lines: LinesSoFar,
    pub(crate) has_queue: bool,
    pub(crate) ads: AdList,
}

/// The ads of the jobs that a submit file asks for, in order (HTCondor manual, "Submitting a job"):
/// of cluster `cluster`, of `owner` where the file names no other, and submitted at the reading
/// `now`. Computes in O(bytes of the file and of its expanded values over the jobs) where names do
/// not collide.
pub fn jobs(
    alloc: Global,
    text: &str,
    cluster: u32,
    owner: &str,
    now: u64,
) -> Result<AdList, SubmitError>
    requires { now < 2 ^ 63 }
    ensures { UnlessMemory (SubmittedJobs text.now
        (record { cluster = cluster; owner = owner.now; now = now })) result }
{
    let heading = Heading {
        cluster,
        owner,
        now,
    };
    let lines = lines(alloc, text)?;
    let mut file = FileSoFar::new(alloc, cluster)?;
    match file.read_lines(alloc, heading, lines.as_slice()) {
        Ok(()) => file.into_ads(),
        Err(error) => Err(error),
    }
}

impl FileSoFar {
    fn new(alloc: Global, cluster: u32) -> Result<FileSoFar, Memory>
        ensures { IfOk result (λ f. f ≡ begun cluster) }
    {
        let mut table = MacroTable::new(alloc);
        let number = format!(in alloc; "{cluster}")?;
        table.set(alloc, "Cluster", number.as_str())?;
        table.set(alloc, "ClusterId", number.as_str())?;
        let lines = LinesSoFar {
            table,
            commands: Settings::new(alloc),
            attributes: Settings::new(alloc),
        };
        Ok(FileSoFar {
            lines,
            has_queue: false,
            ads: Seq::new(alloc),
        })
    }

    // The ads, if there was a queue statement.
    fn into_ads(self) -> Result<AdList, SubmitError>
        ensures { (h : Common) → Reads h [] self result }
    {
        let FileSoFar { has_queue, ads, .. } = self;
        if has_queue {
            Ok(ads)
        } else {
            Err(SubmitError::NoQueue)
        }
    }

    // Takes lines, in order.
    fn read_lines(
        &mut self,
        alloc: Global,
        heading: Heading<'_>,
        lines: &[Line],
    ) -> Result<(), SubmitError>
        requires { heading.now < 2 ^ 63 }
        ensures { UnlessMemory
            (TakesLines (common heading.entry) lines.now self.old self.new) result }
    {
        for line in lines {
            match self.read(alloc, heading, line) {
                Ok(()) => {}
                Err(error) => return Err(error),
            }
        }
        Ok(())
    }

    // Takes a line.
    fn read(&mut self, alloc: Global, heading: Heading<'_>, line: &Line) -> Result<(), SubmitError>
        requires { heading.now < 2 ^ 63 }
        ensures { UnlessMemory
            (TakesLines (common heading.entry) (line.now ∷ []) self.old self.new) result }
    {
        let number = line.number;
        match read_line(line.text.as_str()) {
            Ok(SubmitLine::Setting { name, value }) => {
                self.set(alloc, name, value, number)?;
                Ok(())
            }
            Ok(SubmitLine::Attribute { name, value }) => {
                self.lines.attributes.put(alloc, name, value, number)?;
                Ok(())
            }
            Ok(SubmitLine::Queue { text }) => self.queue(alloc, heading, text, number),
            Err(fault) => Err(line_error(fault, number)),
        }
    }

    // Takes a line of a name.
    fn set(&mut self, alloc: Global, name: &str, value: &str, line: u32) -> Result<(), Memory>
        ensures { OnOk result (self.new ≡ with_name name.now value.now line self.old) }
    {
        if is_built_in(name) {
            return Ok(());
        }
        self.lines.table.set(alloc, name, value)?;
        self.lines.commands.put(alloc, name, value, line)?;
        Ok(())
    }

    // Takes a queue statement.
    fn queue(
        &mut self,
        alloc: Global,
        heading: Heading<'_>,
        text: &str,
        line: u32,
    ) -> Result<(), SubmitError>
        requires { heading.now < 2 ^ 63 }
        ensures { UnlessMemory (TakesQueue
            (Queues (common heading.entry) self.old line text.now) self.old self.new) result }
    {
        match expand_at(alloc, text, &self.lines.table, line) {
            Ok(text) => match read_queue(alloc, text.as_str())? {
                Some(queue) => self.take(alloc, heading, &queue, line),
                None => Err(SubmitError::BadLine { line }),
            },
            Err(error) => Err(error),
        }
    }

    // Takes what a queue statement asks for.
    fn take(
        &mut self,
        alloc: Global,
        heading: Heading<'_>,
        queue: &Queue,
        line: u32,
    ) -> Result<(), SubmitError>
        requires { heading.now < 2 ^ 63 }
        ensures { UnlessMemory (TakesQueue
            (Asks (common heading.entry) self.old line queue.now) self.old self.new) result }
    {
        if self.is_too_many(queue) {
            return Err(SubmitError::Count { line });
        }
        if jobs_in(queue) == 0 {
            if !self.has_program() {
                return Err(SubmitError::NoExecutable { line });
            }
            self.has_queue = true;
            return Ok(());
        }
        self.has_queue = true;
        self.add_jobs(alloc, heading, queue, line)
    }

    fn has_program(&self) -> bool
        ensures { IsTrue result ↔ HasProgram self.now.lines }
    {
        match self.lines.commands.get("executable") {
            Some(setting) => !setting.value.is_empty(),
            None => false,
        }
    }

    fn is_too_many(&self, queue: &Queue) -> bool
        ensures { IsFalse result ↔ FitsIn self.now queue.now }
    {
        let max = MAX_JOBS as u64;
        queue.copies > max || jobs_in(queue).saturating_add(self.ads.len() as u64) > max
    }

    // Adds the jobs of a queue statement.
    fn add_jobs(
        &mut self,
        alloc: Global,
        heading: Heading<'_>,
        queue: &Queue,
        line: u32,
    ) -> Result<(), SubmitError>
        requires reading { heading.now < 2 ^ 63 }
        requires few { length self.old.ads + jobs_in queue.now.copies queue.now.over ≤ MAX_JOBS }
        ensures made { UnlessMemory (AddsJobs
            (common heading.entry) self.old.lines line
            (items_of queue.now.copies queue.now.over) self.old.ads self.new.ads) result }
        ensures lines { self.new.lines ≡ self.old.lines }
        ensures queue { self.new.has_queue ≡ self.old.has_queue }
    {
        let mut table = blocked_table(&self.lines, alloc, queue)?;
        let statement = Statement {
            heading,
            file: &self.lines,
            line,
        };
        add_jobs(statement, alloc, queue, &mut table, &mut self.ads)
    }
}

// How many jobs a queue statement asks for.
fn jobs_in(queue: &Queue) -> u64
    ensures { result ≡ min (jobs_in queue.now.copies queue.now.over) (2 ^ 64 - 1) }
{
    let copies = queue.copies;
    match &queue.over {
        Some(over) => copies.saturating_mul(over.items.len() as u64),
        None => copies,
    }
}

fn line_error(fault: LineFault, line: u32) -> SubmitError
    ensures { result ≡ line_error line fault }
{
    match fault {
        LineFault::Bad => SubmitError::BadLine { line },
        LineFault::Unsupported => SubmitError::Unsupported { line },
    }
}
