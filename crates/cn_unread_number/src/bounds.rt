//! What is known of a number without reads.
ghost use Rattle.std.specs.Prelude.{◌≡◌};
ghost use Rattle.cn_unread_number.specs.Bounds.{as_bounds, most_with_reads};

use cn_search::ConsensusNumber;
use std::fmt;

/// What is known of the consensus number of a type whose objects are not read.
#[derive(Clone, Copy, Debug, PartialEq, Eq)]
pub enum NumberBounds {
    /// It is this number.
    Exactly(u8),
    /// Every number of processes reaches consensus.
    Infinite,
    /// It is at least the first number, and at most the second.
    Between(u8, u8),
    /// It is at least this number.
    AtLeast(u8),
}

impl NumberBounds {
    /// The number with reads as bounds of the number without, for a type that needs no reads.
    pub(crate) fn with_reads(number: ConsensusNumber) -> NumberBounds
        ensures { result ≡ as_bounds number }
    {
        match number {
            ConsensusNumber::Finite(n) => NumberBounds::Exactly(n),
            ConsensusNumber::Infinite => NumberBounds::Infinite,
        }
    }
}

/// The greatest number that a type can have without reads, by its number with reads.
pub(crate) fn most_with_reads(number: ConsensusNumber) -> Option<u8>
    ensures { result ≡ most_with_reads number }
{
    match number {
        ConsensusNumber::Finite(n) => Some(n),
        ConsensusNumber::Infinite => None,
    }
}

impl fmt::Display for NumberBounds {
    ghost use Rattle.std.specs.Prelude.{Some};
    ghost use Rattle.cn_unread_number.specs.BoundsText.{bounds_text};

    ghost output = { λ bounds. Some (bounds_text bounds) };

    fn fmt<W: fmt::Write>(&self, f: &mut fmt::Formatter<W>) -> fmt::Result {
        match self {
            NumberBounds::Exactly(n) => write!(f, "{n}"),
            NumberBounds::Infinite => write!(f, "infinite"),
            NumberBounds::Between(least, most) => {
                write!(f, "at least {least}, at most {most}, not decided")
            }
            NumberBounds::AtLeast(least) => write!(f, "at least {least}, no upper bound found"),
        }
    }
}
