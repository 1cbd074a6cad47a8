//! The numbers that texts tell.

use cn_search::ConsensusNumber;

/// The consensus number of a type, or its recoverable number.
#[derive(Clone, Copy, Debug)]
pub enum TypeNumber {
    /// The number, with no limit.
    Exact(ConsensusNumber),
    /// The number up to a limit: the greatest n from 2 to the limit for which the type has the
    /// property, or none.
    UpTo(u8, Option<u8>),
}
