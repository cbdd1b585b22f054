//! What holds of jobs of one autocluster.

ghost use Rattle.auto_cluster.specs.Laws as laws;

/// Jobs that agree in their significant attributes match each slot of the list alike, and rank and
/// are ranked alike. Does nothing.
pub fn agreeing_jobs_match_alike()
    ensures { laws.AgreeingJobsMatchAlike }
{}

/// The significant attributes of a job are one list. Does nothing.
pub fn significant_part_is_one()
    ensures { laws.OnePart }
{}
