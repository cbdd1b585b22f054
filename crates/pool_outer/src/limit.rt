/// The limits of a pool; each is reached exactly where the counted thing would exceed its number.
#[derive(Clone, Copy, Debug, PartialEq, Eq)]
pub enum Which {
    /// 64 machines.
    Machines,
    /// 256 slots.
    Slots,
    /// 10,000 jobs in the queue, and 10,000 in one submit file.
    Jobs,
    /// 256 attributes of an ad.
    Attributes,
    /// 16,384 bytes of a line of the queue log, 8,192 of them for its expression.
    LogLine,
    /// 1,048,576 bytes of an input file.
    Input,
    /// 268,435,456 printed bytes of ads.
    Bytes,
    /// 1,048,576 items of a roll.
    Roll,
    /// 1,000,000 events of a run.
    Events,
    /// 4,096 submitters.
    Users,
    /// Pool boot 2,147,483,647.
    Boots,
}
