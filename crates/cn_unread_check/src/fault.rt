//! Why a certificate of a number without reads is refused.
ghost use Rattle.std.specs.Prelude.{◌≡◌};
ghost use Rattle.cn_unread_check.specs.declared.fault.UnreadCheckFault.TheVariants.{OutOfMemory};

use std::alloc::AllocError;
use std::error::Error;
use std::fmt;

/// Why a certificate of a number without reads is refused, or was not judged.
///
/// Each fault has a number, from 1 to 6. Of the first four that a certificate has, the one with the
/// least number is answered.
#[derive(Clone, Copy, Debug, PartialEq, Eq)]
pub enum UnreadCheckFault {
    /// The certificate is for a type of another name.
    OtherType = 1,
    /// The lower bound is 0 or above 8; or the upper bound is below it or above 7, or stands beside
    /// a lower bound for every number.
    BadNumber = 2,
    /// The evidence does not show the lower bound.
    Least = 3,
    /// The evidence does not show the upper bound.
    Most = 4,
    /// The further operations of the lower bound lead to more scenes than the check goes through.
    TooManyScenes = 5,
    /// There was not enough memory.
    OutOfMemory = 6,
}

impl From<AllocError> for UnreadCheckFault {
    ghost from_gives = { λ _ e. e ≡ OutOfMemory };

    fn from(_e: AllocError) -> UnreadCheckFault {
        UnreadCheckFault::OutOfMemory
    }
}

impl UnreadCheckFault {
    ghost use Rattle.cn_unread_check.specs.FaultText.{unread_fault_name, unread_fault_number};

    /// The number of the fault.
    pub fn number(&self) -> u8
        // promise: fault-texts
        ensures { result ≡ unread_fault_number self.now }
    {
        *self as u8
    }

    /// The name of the fault.
    pub fn name(&self) -> &'static str
        // promise: fault-texts
        ensures { result.now ≡ unread_fault_name self.now }
    {
        match self {
            UnreadCheckFault::OtherType => "OtherType",
            UnreadCheckFault::BadNumber => "BadNumber",
            UnreadCheckFault::Least => "Least",
            UnreadCheckFault::Most => "Most",
            UnreadCheckFault::TooManyScenes => "TooManyScenes",
            UnreadCheckFault::OutOfMemory => "OutOfMemory",
        }
    }
}

impl fmt::Display for UnreadCheckFault {
    ghost use Rattle.std.specs.Prelude.{Some};
    ghost use Rattle.cn_unread_check.specs.FaultText.{unread_fault_text};

    ghost output = { λ fault. Some (unread_fault_text fault) };

    fn fmt<W: fmt::Write>(&self, f: &mut fmt::Formatter<W>) -> fmt::Result {
        write!(f, "{} {}", self.number(), self.name())
    }
}

impl Error for UnreadCheckFault {}
