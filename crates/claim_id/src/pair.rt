/// The state and the activity of a slot (HTCondor manual, Policy Configuration for Execution
/// Points, Machine States and Machine Activities).
#[derive(Clone, Copy, PartialEq, Eq)]
pub enum Pair {
    /// The slot's owner keeps it from the pool.
    OwnerIdle,
    /// The slot is free for the pool.
    UnclaimedIdle,
    /// The slot was matched with a job, and nobody has claimed it yet.
    MatchedIdle,
    /// The slot is claimed, and has no run.
    ClaimedIdle,
    /// The claim's run is going.
    ClaimedBusy,
    /// The claim is to be ended, and its run may go on for a while.
    ClaimedRetiring,
    /// The run of a preempted claim was told to leave.
    PreemptingVacating,
    /// The run of a preempted claim is being killed.
    PreemptingKilling,
}

/// What makes a slot change its state or its activity.
#[derive(Clone, Copy)]
pub enum Cue {
    /// The slot's Start isn't false any more.
    StartOn,
    /// The slot's Start is false.
    StartOff,
    /// The slot was matched with a job.
    Match,
    /// Nobody claimed the slot for too long after a match.
    Lapse,
    /// The slot is claimed.
    Grant,
    /// A run starts.
    Begin,
    /// The run has ended, and the claim stays.
    Rest,
    /// The claim is to be ended.
    Retire,
    /// The run has had its time to retire.
    Vacate,
    /// The run is to be killed.
    Kill,
    /// The claim has ended, and another claim takes the slot.
    Handover,
    /// The claim has ended.
    Finish,
}
