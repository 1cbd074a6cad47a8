//! Why a certificate is refused.
ghost use Rattle.std.specs.Prelude.{◌≡◌};

use std::error::Error;
use std::fmt;

/// Why a certificate is refused. Of several faults the check answers the one for which it looks
/// first. It looks in the order of this list, except that it goes through the entries one by one,
/// and looks at each for `NotNext`, then for `NotACollision`.
#[derive(Clone, Copy, Debug, PartialEq, Eq)]
pub enum CheckFault {
    /// The certificate is for a type of another name.
    OtherType,
    /// The limit is below 2, or above the greatest limit of the certificate's version, which is 6
    /// in version 1 and 8 in version 2; or the number is below 2 or above the limit; or no such
    /// version exists.
    BadNumber,
    /// The certificate has a number without a witness, or a witness without a number, or the
    /// witness is no choice of the table for as many processes as the number.
    WitnessShape,
    /// The choice is no witness: this is the first process whose outcome sets meet.
    WitnessMeets(u8),
    /// The number is the limit, and yet there are entries.
    Unexpected,
    /// The entry at this place, counted from 0, is not of the choice that it must refute, or there
    /// is no choice for it to refute.
    NotNext(u64),
    /// The entry at this place holds no collision of its choice.
    NotACollision(u64),
    /// The entries end before the choices that they must refute: the canonical ones in version 1,
    /// the live ones among them in version 2.
    TooFew,
}

impl CheckFault {
    ghost use Rattle.cn_check.specs.FaultText.{check_fault_index, check_fault_name, check_fault_number};

    /// The number of the fault.
    pub fn number(&self) -> u8
        // promise: fault-texts
        ensures { result ≡ check_fault_number self.now }
    {
        match self {
            CheckFault::OtherType => 1,
            CheckFault::BadNumber => 2,
            CheckFault::WitnessShape => 3,
            CheckFault::WitnessMeets(_) => 4,
            CheckFault::Unexpected => 5,
            CheckFault::NotNext(_) => 6,
            CheckFault::NotACollision(_) => 7,
            CheckFault::TooFew => 8,
        }
    }

    /// The name of the fault.
    pub fn name(&self) -> &'static str
        // promise: fault-texts
        ensures { result.now ≡ check_fault_name self.now }
    {
        match self {
            CheckFault::OtherType => "OtherType",
            CheckFault::BadNumber => "BadNumber",
            CheckFault::WitnessShape => "WitnessShape",
            CheckFault::WitnessMeets(_) => "WitnessMeets",
            CheckFault::Unexpected => "Unexpected",
            CheckFault::NotNext(_) => "NotNext",
            CheckFault::NotACollision(_) => "NotACollision",
            CheckFault::TooFew => "TooFew",
        }
    }

    /// The number that the fault carries: of the process whose outcome sets meet, or of the entry.
    pub fn index(&self) -> Option<u64>
        // promise: fault-texts
        ensures { result ≡ check_fault_index self.now }
    {
        match self {
            CheckFault::WitnessMeets(process) => Some(u64::from(*process)),
            CheckFault::NotNext(place) | CheckFault::NotACollision(place) => Some(*place),
            CheckFault::OtherType | CheckFault::BadNumber | CheckFault::WitnessShape => None,
            CheckFault::Unexpected | CheckFault::TooFew => None,
        }
    }
}

impl fmt::Display for CheckFault {
    ghost use Rattle.std.specs.Prelude.{Some};
    ghost use Rattle.cn_check.specs.FaultText.{check_fault_text};

    ghost output = { λ fault. Some (check_fault_text fault) };

    fn fmt<W: fmt::Write>(&self, f: &mut fmt::Formatter<W>) -> fmt::Result {
        match self.index() {
            Some(index) => write!(f, "{} {} {index}", self.number(), self.name()),
            None => write!(f, "{} {}", self.number(), self.name()),
        }
    }
}

impl Error for CheckFault {}
