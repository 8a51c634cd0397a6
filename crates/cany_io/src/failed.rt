use thiserror::Error;

/// A read or a write that failed. The count of faults of the source or sink tells how often.
#[derive(Clone, Copy, Debug, PartialEq, Eq, Error)]
#[error("reading or writing failed")]
pub struct Failed;
