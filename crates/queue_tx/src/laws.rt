//! What holds of all transactions, in the words of the subject.

ghost use Rattle.queue_tx.specs.KindLists.{KindsPartTheProcs};
ghost use Rattle.queue_tx.specs.Laws.{HeaderComesFirst, ProcsStandByCluster, SameKeysAreEqual, ChangesItsKey, LeavesOtherKeys, StaysAQueue, SequenceIsOne, RefusesTheFirst, RoomForThePool, SameRequestsHaveOneDigest};

/// Keys stand in order: the header, then the procs by cluster, then by number.
pub fn keys_stand_in_order()
    ensures header { HeaderComesFirst }
    ensures procs { ProcsStandByCluster }
    ensures same { SameKeysAreEqual }
{}

/// An operation changes what stands under its key, and nothing else.
pub fn operations_change_their_key()
    ensures its_own { ChangesItsKey }
    ensures others { LeavesOtherKeys }
    ensures ordered { StaysAQueue }
{}

/// Two transactions one after the other do what their operations do in one transaction.
pub fn sequences_are_transactions()
    ensures { SequenceIsOne }
{}

/// A refusal is that of the first operation that can't be done, with its place.
pub fn the_first_is_refused()
    ensures { RefusesTheFirst }
{}

/// Where the other attributes of a job's ad, or of the header's, are at most as many as may be,
/// there is room for each attribute that the pool sets later.
pub fn the_pool_has_room()
    ensures { RoomForThePool }
{}

/// Ads that make the same request have one digest, by which the queue finds them.
pub fn same_requests_have_one_digest()
    ensures { SameRequestsHaveOneDigest }
{}

/// The idle jobs, the held, those under a claim and the procs that are no jobs are together all
/// procs, each once, and each list stands in order of key.
pub fn kinds_part_the_procs()
    ensures { KindsPartTheProcs }
{}
