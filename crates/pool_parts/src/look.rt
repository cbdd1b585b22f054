use pool_mail::{RequestList, SlotAdList};

/// What there is to close a pool by.
#[derive(Drop)]
pub struct Look {
    /// How many events were accepted.
    pub length: u64,
    /// The idle jobs, in order.
    pub idle: RequestList,
    /// The slots, in order.
    pub slots: SlotAdList,
}
