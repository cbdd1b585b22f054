use crate::open::OpenPool;
use crate::setup::SetUp;
use cases::{Case, CaseError};
use std::alloc::Global;

/// The pool that was set up last: what it opens with, or the pool itself once it is open. After an
/// error it is not to be used.
pub(crate) struct PoolScript {
    setup: Option<SetUp>,
    open: Option<OpenPool>,
}

impl Drop for PoolScript {
    fn drop(self) {
        let PoolScript {
            setup: _setup,
            open: _open,
        } = self;
    }
}

impl PoolScript {
    /// No pool. Computes in O(1).
    pub(crate) fn none() -> PoolScript {
        PoolScript {
            setup: None,
            open: None,
        }
    }

    /// `new-pool ..`: a pool in place of the one before. Computes in O(bytes).
    pub(crate) fn begin(&mut self, alloc: Global, case: Case<'_>) -> Result<(), CaseError> {
        let setup = SetUp::of(alloc, case)?;
        *self = PoolScript {
            setup: Some(setup),
            open: None,
        };
        Ok(())
    }

    /// More of what the pool opens with. Computes as `SetUp::go_on`.
    pub(crate) fn go_on(&mut self, alloc: Global, case: Case<'_>) -> Result<(), CaseError> {
        match &mut self.setup {
            Some(setup) => setup.go_on(alloc, case),
            None => Err(CaseError::Kind { line: case.line }),
        }
    }

    /// The pool. It is opened before, where it isn't open yet. Computes in O(1) where it is, and as
    /// `OpenPool::open` where not.
    pub(crate) fn opened(
        &mut self,
        alloc: Global,
        case: Case<'_>,
    ) -> Result<&mut OpenPool, CaseError> {
        if let Some(setup) = self.setup.take() {
            self.open = Some(OpenPool::open(alloc, setup)?);
        }
        match &mut self.open {
            Some(open) => Ok(open),
            None => Err(CaseError::Kind { line: case.line }),
        }
    }
}
