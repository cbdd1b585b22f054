use crate::numbers::JobId;

/// What a user wants of a job (HTCondor manual, condor_rm, condor_hold and condor_release).
#[derive(Clone, Copy)]
pub enum Verb {
    /// Take the job out of the queue.
    Remove,
    /// Let the job wait until it is resumed.
    Hold,
    /// Let a held job run again.
    Resume,
}

/// An order of the input.
#[derive(Clone, Copy)]
pub struct Wish {
    /// When the order is to be given at the earliest, a reading: seconds since 1970-01-01 00:00:00
    /// UTC.
    pub at: u64,
    pub verb: Verb,
    pub job: JobId,
}
