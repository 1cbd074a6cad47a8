//! What can be wrong with the bytes of a certificate.
ghost use Rattle.std.specs.Prelude.{◌≡◌};
ghost use Rattle.cn_cert.specs.declared.fault.CertFault.TheVariants.{OutOfMemory};

use std::alloc::{AllocError, AllocFailed};
use std::error::Error;
use std::fmt;

/// Why bytes were not read as a certificate, or a certificate was not written.
///
/// Each fault has a number, from 1 to 5. Where bytes have several of the first four, the one with
/// the least number is answered.
#[derive(Clone, Copy, Debug, PartialEq, Eq)]
pub enum CertFault {
    /// The bytes are not UTF-8, or not a JSON text, or nest more than 127 deep.
    NotJson = 1,
    /// The JSON value is not an object with the six keys of a certificate and no other, each with
    /// a value of its kind.
    WrongShape = 2,
    /// The version is neither 1 nor 2.
    Version = 3,
    /// The limit or the number is above 255, a state not below
    /// [`MOST_STATES`](cn_table::MOST_STATES), an operation or a process above 7, a list longer
    /// than 8, or the type is called by a text that is [no name](cn_table::is_name).
    Range = 4,
    /// There was not enough memory.
    OutOfMemory = 5,
}

impl<T: Drop> From<AllocFailed<T>> for CertFault {
    ghost from_gives = { λ _ e. e ≡ OutOfMemory };

    fn from(_e: AllocFailed<T>) -> CertFault {
        CertFault::OutOfMemory
    }
}

impl From<AllocError> for CertFault {
    ghost from_gives = { λ _ e. e ≡ OutOfMemory };

    fn from(_e: AllocError) -> CertFault {
        CertFault::OutOfMemory
    }
}

impl CertFault {
    ghost use Rattle.cn_cert.specs.FaultText.{cert_fault_name, cert_fault_number};

    /// The number of the fault.
    pub fn number(&self) -> u8
        // promise: fault-texts
        ensures { result ≡ cert_fault_number self.now }
    {
        *self as u8
    }

    /// The name of the fault.
    pub fn name(&self) -> &'static str
        // promise: fault-texts
        ensures { result.now ≡ cert_fault_name self.now }
    {
        match self {
            CertFault::NotJson => "NotJson",
            CertFault::WrongShape => "WrongShape",
            CertFault::Version => "Version",
            CertFault::Range => "Range",
            CertFault::OutOfMemory => "OutOfMemory",
        }
    }
}

impl fmt::Display for CertFault {
    ghost use Rattle.std.specs.Prelude.{Some};
    ghost use Rattle.cn_cert.specs.FaultText.{cert_fault_text};

    ghost output = { λ fault. Some (cert_fault_text fault) };

    fn fmt<W: fmt::Write>(&self, f: &mut fmt::Formatter<W>) -> fmt::Result {
        write!(f, "{} {}", self.number(), self.name())
    }
}

impl Error for CertFault {}
