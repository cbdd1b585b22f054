//! What a job's ad has from its submission on, in the order of the ad (HTCondor manual, Job ClassAd
//! Attributes).

ghost use Rattle.std.specs.Prelude.{◌≡◌, codes};

/// The number of its cluster.
pub const CLUSTER_ID: &str = "ClusterId";
/// Its number in the cluster, from 0.
pub const PROC_ID: &str = "ProcId";
/// The user whose job it is.
pub const OWNER: &str = "Owner";
/// When it was submitted, in seconds since 1970.
pub const Q_DATE: &str = "QDate";
/// 5, the vanilla universe.
pub const JOB_UNIVERSE: &str = "JobUniverse";
/// 1 idle, 2 running, 3 removed, 4 completed, 5 held.
pub const JOB_STATUS: &str = "JobStatus";
/// The path of its program.
pub const CMD: &str = "Cmd";
/// Its words, where they were given in the plain form.
pub const ARGS: &str = "Args";
/// Its words, where they were given in the quoted form.
pub const ARGUMENTS: &str = "Arguments";
/// The folder in which it runs.
pub const IWD: &str = "Iwd";
/// The file of its standard input.
pub const IN: &str = "In";
/// The file of its standard output.
pub const OUT: &str = "Out";
/// The file of its standard error.
pub const ERR: &str = "Err";
/// The file of its user log.
pub const USER_LOG: &str = "UserLog";
/// Its place among the jobs of its owner: the greater, the sooner.
pub const JOB_PRIO: &str = "JobPrio";
/// How many processors it asks for.
pub const REQUEST_CPUS: &str = "RequestCpus";
/// How much memory it asks for, in MiB.
pub const REQUEST_MEMORY: &str = "RequestMemory";
/// How much disk it asks for, in KiB.
pub const REQUEST_DISK: &str = "RequestDisk";
/// How long a run's lease is, in seconds.
pub const JOB_LEASE_DURATION: &str = "JobLeaseDuration";
/// Whether its end puts it on hold.
pub const ON_EXIT_HOLD: &str = "OnExitHold";
/// Whether its end takes it out of the queue.
pub const ON_EXIT_REMOVE: &str = "OnExitRemove";
/// When it is put on hold.
pub const PERIODIC_HOLD: &str = "PeriodicHold";
/// When it is taken out of the queue.
pub const PERIODIC_REMOVE: &str = "PeriodicRemove";
/// When a hold ends.
pub const PERIODIC_RELEASE: &str = "PeriodicRelease";

/// The names are these texts.
pub fn texts_are()
    ensures cluster_id { CLUSTER_ID.now ≡ codes "ClusterId" }
    ensures proc_id { PROC_ID.now ≡ codes "ProcId" }
    ensures owner { OWNER.now ≡ codes "Owner" }
    ensures q_date { Q_DATE.now ≡ codes "QDate" }
    ensures job_universe { JOB_UNIVERSE.now ≡ codes "JobUniverse" }
    ensures job_status { JOB_STATUS.now ≡ codes "JobStatus" }
    ensures cmd { CMD.now ≡ codes "Cmd" }
    ensures args { ARGS.now ≡ codes "Args" }
    ensures arguments { ARGUMENTS.now ≡ codes "Arguments" }
    ensures iwd { IWD.now ≡ codes "Iwd" }
    ensures input { IN.now ≡ codes "In" }
    ensures output { OUT.now ≡ codes "Out" }
    ensures error { ERR.now ≡ codes "Err" }
    ensures user_log { USER_LOG.now ≡ codes "UserLog" }
    ensures job_prio { JOB_PRIO.now ≡ codes "JobPrio" }
    ensures request_cpus { REQUEST_CPUS.now ≡ codes "RequestCpus" }
    ensures request_memory { REQUEST_MEMORY.now ≡ codes "RequestMemory" }
    ensures request_disk { REQUEST_DISK.now ≡ codes "RequestDisk" }
    ensures job_lease_duration { JOB_LEASE_DURATION.now ≡ codes "JobLeaseDuration" }
    ensures on_exit_hold { ON_EXIT_HOLD.now ≡ codes "OnExitHold" }
    ensures on_exit_remove { ON_EXIT_REMOVE.now ≡ codes "OnExitRemove" }
    ensures periodic_hold { PERIODIC_HOLD.now ≡ codes "PeriodicHold" }
    ensures periodic_remove { PERIODIC_REMOVE.now ≡ codes "PeriodicRemove" }
    ensures periodic_release { PERIODIC_RELEASE.now ≡ codes "PeriodicRelease" }
{}
