//! Why an input gives nothing.

/// Why an input gives nothing.
#[derive(Clone, Copy, Debug, PartialEq, Eq)]
pub enum Stop<R> {
    /// The input is not accepted.
    Refused(R),
    /// The world failed.
    Failed,
    /// Memory ran out.
    NoMemory,
}
