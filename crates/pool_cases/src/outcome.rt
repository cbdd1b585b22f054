use ad_value::Memory;
use cases::CaseError;
use std::alloc::AllocError;

/// The value, or the fault that there is no memory. Computes in O(1).
pub(crate) fn memory<T: Drop>(outcome: Result<T, Memory>) -> Result<T, CaseError> {
    match outcome {
        Ok(value) => Ok(value),
        Err(Memory) => Err(CaseError::Memory),
    }
}

/// That it was written, or the fault that there is no memory. Computes in O(1).
pub(crate) fn written(outcome: Result<(), AllocError>) -> Result<(), CaseError> {
    match outcome {
        Ok(()) => Ok(()),
        Err(AllocError) => Err(CaseError::Memory),
    }
}
