//! What can be wrong with the bytes of a certificate by stocks.
ghost use Rattle.std.specs.Prelude.{◌≡◌};
ghost use Rattle.cn_stock_cert.specs.declared.fault.StockCertFault.TheVariants.{OutOfMemory};

use std::alloc::AllocError;
use std::error::Error;
use std::fmt;

/// Why bytes were not read as a certificate by stocks.
///
/// Each fault has a number, from 1 to 5. Where bytes have several of the first four, the one with
/// the least number is answered.
#[derive(Clone, Copy, Debug, PartialEq, Eq)]
pub enum StockCertFault {
    /// The bytes are not UTF-8, or not a JSON text, or nest more than 127 deep.
    NotJson = 1,
    /// The JSON value is not an object with the six keys of a certificate and no other, each with
    /// a value of its kind.
    WrongShape = 2,
    /// The version is not 3.
    Version = 3,
    /// A number is above 255, or the type is called by a text that is
    /// [no name](cn_table::is_name).
    Range = 4,
    /// There was not enough memory.
    OutOfMemory = 5,
}

impl From<AllocError> for StockCertFault {
    ghost from_gives = { λ _ e. e ≡ OutOfMemory };

    fn from(_e: AllocError) -> StockCertFault {
        StockCertFault::OutOfMemory
    }
}

impl StockCertFault {
    ghost use Rattle.cn_stock_cert.specs.FaultText.{stock_cert_fault_name, stock_cert_fault_number};

    /// The number of the fault.
    pub fn number(&self) -> u8
        // promise: fault-texts
        ensures { result ≡ stock_cert_fault_number self.now }
    {
        *self as u8
    }

    /// The name of the fault.
    pub fn name(&self) -> &'static str
        // promise: fault-texts
        ensures { result.now ≡ stock_cert_fault_name self.now }
    {
        match self {
            StockCertFault::NotJson => "NotJson",
            StockCertFault::WrongShape => "WrongShape",
            StockCertFault::Version => "Version",
            StockCertFault::Range => "Range",
            StockCertFault::OutOfMemory => "OutOfMemory",
        }
    }
}

impl fmt::Display for StockCertFault {
    ghost use Rattle.std.specs.Prelude.{Some};
    ghost use Rattle.cn_stock_cert.specs.FaultText.{stock_cert_fault_text};

    ghost output = { λ fault. Some (stock_cert_fault_text fault) };

    fn fmt<W: fmt::Write>(&self, f: &mut fmt::Formatter<W>) -> fmt::Result {
        write!(f, "{} {}", self.number(), self.name())
    }
}

impl Error for StockCertFault {}
