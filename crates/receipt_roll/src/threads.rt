//! What may go to another thread, and what threads may share. Each `impl` is proved with the bound
//! of its trait, and so shows that its type has it.
use crate::receipt::{Mark, Receipt};
use crate::roll::Roll;

/// What may go to another thread.
pub trait MayBeSent: Send {}

/// What threads may share.
pub trait MayBeShared: Sync {}

impl<T: Send> MayBeSent for Roll<T> {}

impl<T: Send> MayBeSent for Receipt<T> {}

impl<T: Sync> MayBeShared for Receipt<T> {}

impl<T> MayBeSent for Mark<T> {}

impl<T> MayBeShared for Mark<T> {}
