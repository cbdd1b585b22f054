use cases::{Case, CaseError};
use queue_record::{ReadLog, Reader, RecordError};
use queue_tx::{ApplyError, Queue, Tx};
use schedd_plan::JobPlan;
use std::alloc::Global;

/// A log that a schedd's queue was opened from, and what was added to it since.
pub(crate) struct OpenLog {
    read: ReadLog,
    // How many transactions were added.
    added: u64,
}

impl Drop for OpenLog {
    fn drop(self) {
        let OpenLog {
            read: _read,
            added: _,
        } = self;
    }
}

impl OpenLog {
    /// The log of no bytes.
    pub(crate) fn empty(alloc: Global) -> OpenLog {
        OpenLog {
            read: Reader::new(alloc).end(),
            added: 0,
        }
    }

    /// `queue TEXT`: the log of these bytes.
    pub(crate) fn of_case(alloc: Global, case: Case<'_>) -> Result<OpenLog, CaseError> {
        let bytes = case.bytes(alloc, case.one_field()?)?;
        match log_of(alloc, &bytes) {
            Ok(read) => Ok(OpenLog { read, added: 0 }),
            Err(RecordError::Memory) => Err(CaseError::Memory),
            Err(_) => Err(CaseError::Form { line: case.line }),
        }
    }

    /// The queue as logged.
    pub(crate) fn queue(&self) -> &Queue {
        &self.read.queue
    }

    /// The number that the next transaction gets, from 0.
    pub(crate) fn next_number(&self) -> u64 {
        (self.read.list.len() as u64).saturating_add(self.added)
    }

    /// A plan's transaction is logged.
    pub(crate) fn add_plan(
        &mut self,
        alloc: Global,
        case: Case<'_>,
        plan: JobPlan,
    ) -> Result<(), CaseError> {
        match plan.tx(alloc) {
            Ok(tx) => self.add(alloc, case, &tx),
            Err(_) => Err(CaseError::Memory),
        }
    }

    fn add(&mut self, alloc: Global, case: Case<'_>, tx: &Tx) -> Result<(), CaseError> {
        match self.read.queue.apply(alloc, tx) {
            Ok(()) => {
                self.added = self.added.saturating_add(1);
                Ok(())
            }
            Err(ApplyError::Memory) => Err(CaseError::Memory),
            Err(_) => Err(CaseError::Form { line: case.line }),
        }
    }
}

fn log_of(alloc: Global, bytes: &[u8]) -> Result<ReadLog, RecordError> {
    let mut reader = Reader::new(alloc);
    match reader.feed(bytes) {
        Ok(()) => Ok(reader.end()),
        Err(error) => Err(error),
    }
}
