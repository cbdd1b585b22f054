use crate::schedds::ScheddScript;
use crate::startds::{add_slot, answer_startd, new_startd};
use cases::{Case, CaseError};
use startd_core::Startd;
use std::alloc::Global;

/// The daemon that was set up last, where there is one.
pub(crate) struct Daemon {
    startd: Option<Startd>,
    schedd: Option<ScheddScript>,
}

impl Drop for Daemon {
    fn drop(self) {
        let Daemon {
            startd: _startd,
            schedd: _schedd,
        } = self;
    }
}

impl Daemon {
    pub(crate) fn none() -> Daemon {
        Daemon {
            startd: None,
            schedd: None,
        }
    }

    /// `new-startd ..`, `new-schedd ..`: a daemon in place of the one before.
    pub(crate) fn begin(&mut self, alloc: Global, case: Case<'_>) -> Result<(), CaseError> {
        *self = if case.kind == "new-startd" {
            Daemon {
                startd: Some(new_startd(alloc, case)?),
                schedd: None,
            }
        } else {
            Daemon {
                startd: None,
                schedd: Some(ScheddScript::new(alloc, case)?),
            }
        };
        Ok(())
    }

    /// `slot NAME AD`, `queue TEXT`: more of what the daemon begins with.
    pub(crate) fn go_on(&mut self, alloc: Global, case: Case<'_>) -> Result<(), CaseError> {
        match (case.kind, &mut self.startd, &mut self.schedd) {
            ("slot", Some(startd), _) => add_slot(alloc, case, startd),
            ("queue", _, Some(schedd)) => schedd.open(alloc, case),
            _ => Err(CaseError::Kind { line: case.line }),
        }
    }

    /// Appends the answer of the daemon to a case.
    pub(crate) fn answer(
        &mut self,
        alloc: Global,
        case: Case<'_>,
        out: &mut String,
    ) -> Result<(), CaseError> {
        match (&mut self.startd, &mut self.schedd) {
            (Some(startd), _) => answer_startd(alloc, case, startd, out),
            (None, Some(schedd)) => schedd.answer(alloc, case, out),
            (None, None) => Err(CaseError::Kind { line: case.line }),
        }
    }
}
