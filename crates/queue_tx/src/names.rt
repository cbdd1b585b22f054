/// The number of the cluster that is submitted next.
pub const NEXT_CLUSTER_NUM: &str = "NextClusterNum";

/// The number of the run that is granted next.
pub const NEXT_RUN_NUM: &str = "NextRunNum";

/// The job that is on its way to another queue.
pub const MOVING: &str = "Moving";

/// How many attributes a proc's ad may have beside those that the pool itself sets.
pub const MAX_OWN_OF_PROC: usize = 248;

/// How many attributes the header's ad may have beside its three.
pub const MAX_OWN_OF_HEADER: usize = 253;
