//! Ads may go to another thread, and threads may share them: the `impl` of each trait is proved
//! with the trait's bound. So the copies of an ad, which have one table, may stand in several
//! threads.
use crate::ad::Ad;

/// What may go to another thread.
pub trait MayBeSent: Send {}

/// What threads may share.
pub trait MayBeShared: Sync {}

impl MayBeSent for Ad {}

impl MayBeShared for Ad {}
