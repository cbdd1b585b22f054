use ad_value::Seq;
use pool_outer::Daemon;

/// A list of daemons.
pub type DaemonList = Seq<Daemon>;

/// Which faults may happen in a pool.
#[derive(Drop)]
pub struct Allow {
    /// A daemon for each of its crashes.
    pub crashes: DaemonList,
    /// The number of a mail for each time that it may be received once more.
    pub repeats: Seq<u64>,
}
