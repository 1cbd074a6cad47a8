//! Why a certificate by stocks is refused.
ghost use Rattle.std.specs.Prelude.{◌≡◌};
ghost use Rattle.cn_stock_check.specs.declared.fault.StockCheckFault.TheVariants.{OutOfMemory};

use std::alloc::AllocError;
use std::error::Error;
use std::fmt;

/// Why a certificate by stocks is refused, or was not judged.
///
/// Each fault has a number, from 1 to 11. Of the first ten that a certificate has, the one with the
/// least number is answered; of several with one number, the one that carries the least number.
#[derive(Clone, Copy, Debug, PartialEq, Eq)]
pub enum StockCheckFault {
    /// The certificate is for a type of another name.
    OtherType,
    /// The lower bound is 0 or above 16; or the upper bound is below it or above 16, or stands
    /// beside a lower bound for every number.
    BadNumber,
    /// The claim is not of the kind that the lower bound wants: none for 1, a witness for a number,
    /// lasting sets for every number.
    LeastShape,
    /// The claim is no choice of the table for as many processes as the lower bound.
    NotAChoice,
    /// The choice is no witness.
    NoWitness,
    /// The sets do not show that the operations last.
    NotLasting,
    /// There is an upper bound without joins, or there are joins without an upper bound.
    MostShape,
    /// The join at this place, counted from 0, is none of the table.
    NotAJoin(u64),
    /// The upper bound is 1, and this operation notices itself.
    NoticesItself(u8),
    /// From this state the joins do not connect each stock of one operation more than the upper
    /// bound that must be connected.
    NotConnected(u8),
    /// There was not enough memory.
    OutOfMemory,
}

impl From<AllocError> for StockCheckFault {
    ghost from_gives = { λ _ e. e ≡ OutOfMemory };

    fn from(_e: AllocError) -> StockCheckFault {
        StockCheckFault::OutOfMemory
    }
}

impl StockCheckFault {
    ghost use Rattle.cn_stock_check.specs.FaultText.{stock_check_fault_index, stock_check_fault_name, stock_check_fault_number};

    /// The number of the fault.
    pub fn number(&self) -> u8
        // promise: fault-texts
        ensures { result ≡ stock_check_fault_number self.now }
    {
        match self {
            StockCheckFault::OtherType => 1,
            StockCheckFault::BadNumber => 2,
            StockCheckFault::LeastShape => 3,
            StockCheckFault::NotAChoice => 4,
            StockCheckFault::NoWitness => 5,
            StockCheckFault::NotLasting => 6,
            StockCheckFault::MostShape => 7,
            StockCheckFault::NotAJoin(_) => 8,
            StockCheckFault::NoticesItself(_) => 9,
            StockCheckFault::NotConnected(_) => 10,
            StockCheckFault::OutOfMemory => 11,
        }
    }

    /// The name of the fault.
    pub fn name(&self) -> &'static str
        // promise: fault-texts
        ensures { result.now ≡ stock_check_fault_name self.now }
    {
        match self {
            StockCheckFault::OtherType => "OtherType",
            StockCheckFault::BadNumber => "BadNumber",
            StockCheckFault::LeastShape => "LeastShape",
            StockCheckFault::NotAChoice => "NotAChoice",
            StockCheckFault::NoWitness => "NoWitness",
            StockCheckFault::NotLasting => "NotLasting",
            StockCheckFault::MostShape => "MostShape",
            StockCheckFault::NotAJoin(_) => "NotAJoin",
            StockCheckFault::NoticesItself(_) => "NoticesItself",
            StockCheckFault::NotConnected(_) => "NotConnected",
            StockCheckFault::OutOfMemory => "OutOfMemory",
        }
    }

    /// The number that the fault carries: the place of the join, or the number of the operation or
    /// of the state.
    pub fn index(&self) -> Option<u64>
        // promise: fault-texts
        ensures { result ≡ stock_check_fault_index self.now }
    {
        match self {
            StockCheckFault::NotAJoin(place) => Some(*place),
            StockCheckFault::NoticesItself(operation) => Some(u64::from(*operation)),
            StockCheckFault::NotConnected(state) => Some(u64::from(*state)),
            _ => None,
        }
    }
}

impl fmt::Display for StockCheckFault {
    ghost use Rattle.std.specs.Prelude.{Some};
    ghost use Rattle.cn_stock_check.specs.FaultText.{stock_check_fault_text};

    ghost output = { λ fault. Some (stock_check_fault_text fault) };

    fn fmt<W: fmt::Write>(&self, f: &mut fmt::Formatter<W>) -> fmt::Result {
        match self.index() {
            Some(index) => write!(f, "{} {} {index}", self.number(), self.name()),
            None => write!(f, "{} {}", self.number(), self.name()),
        }
    }
}

impl Error for StockCheckFault {}
