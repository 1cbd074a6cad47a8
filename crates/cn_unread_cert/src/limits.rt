//! The greatest numbers and the longest lists of a certificate.

/// Limits of numbers and of lists.
#[derive(Clone, Copy)]
pub(crate) struct Limits {
    /// The greatest number.
    pub number: u64,
    /// The most items of a list of operations, or of processes.
    pub list: usize,
}
