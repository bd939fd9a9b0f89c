//! The error of a single read or write.

/// A read or a write that failed. The source or the sink counts it.
#[derive(Clone, Copy, Debug, PartialEq, Eq)]
pub struct Failed;
