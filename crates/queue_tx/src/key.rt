ghost use Rattle.std.specs.Prelude.{◌≡◌};
ghost use Rattle.queue_tx.specs.Keys.{rank_of, cluster_of, number_of};

use claim_id::JobId;
use std::cmp::Ordering;

/// A key of the queue. The header comes before the procs, which stand by cluster, then by number.
#[derive(Clone, Copy)]
pub enum Key {
    /// `0.0`, under which the queue keeps the numbers that it gives next.
    Header,
    /// `C.P`, a job's.
    Proc(JobId),
}

impl Key {
    fn rank(&self) -> u8
        ensures { result ≡ rank_of self.now }
    {
        match self {
            Key::Header => 0,
            Key::Proc(_) => 1,
        }
    }

    fn cluster(&self) -> u32
        ensures { result ≡ cluster_of self.now }
    {
        match self {
            Key::Header => 0,
            Key::Proc(job) => job.cluster,
        }
    }

    fn number(&self) -> u32
        ensures { result ≡ number_of self.now }
    {
        match self {
            Key::Header => 0,
            Key::Proc(job) => job.proc,
        }
    }
}

impl PartialEq for Key {
    ghost use Rattle.queue_tx.specs.Keys.{same_key, same_key_partial};

    ghost eq = { same_key };

    ghost laws = { same_key_partial };

    fn eq(&self, other: &Key) -> bool {
        self.cmp(other).is_eq()
    }
}

impl Eq for Key {
    ghost use Rattle.queue_tx.specs.Keys.{same_key_laws};

    ghost laws = { same_key_laws };
}

impl PartialOrd for Key {
    ghost use Rattle.std.specs.Ordering.{as_partial_cmp};
    ghost use Rattle.queue_tx.specs.Keys.{key_cmp, key_order_laws};

    ghost partial_cmp = { as_partial_cmp key_cmp };

    ghost laws = { key_order_laws };

    fn partial_cmp(&self, other: &Key) -> Option<Ordering> {
        Some(self.cmp(other))
    }
}

impl Ord for Key {
    ghost use Rattle.std.specs.Prelude.{refl};
    ghost use Rattle.queue_tx.specs.Keys.{key_cmp, key_cmp_total};

    ghost cmp = { key_cmp };

    ghost total = { key_cmp_total };

    ghost matches_partial_cmp = { λ x y. refl };

    ghost matches_eq = { λ x y. refl };

    fn cmp(&self, other: &Key) -> Ordering {
        self.rank()
            .cmp(&other.rank())
            .then(self.cluster().cmp(&other.cluster()))
            .then(self.number().cmp(&other.number()))
    }
}
