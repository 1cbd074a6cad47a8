//! What can be wrong with the bytes of a certificate of a number without reads.
ghost use Rattle.std.specs.Prelude.{◌≡◌};
ghost use Rattle.cn_unread_cert.specs.declared.fault.UnreadCertFault.TheVariants.{OutOfMemory};

use std::alloc::AllocError;
use std::error::Error;
use std::fmt;

/// Why bytes were not read as a certificate of a number without reads.
///
/// Each fault has a number, from 1 to 5. Where bytes have several of the first four, the one with
/// the least number is answered.
#[derive(Clone, Copy, Debug, PartialEq, Eq)]
pub enum UnreadCertFault {
    /// The bytes are not UTF-8, or not a JSON text, or nest more than 127 deep.
    NotJson = 1,
    /// The JSON value is not an object with the six keys of a certificate and no other, each with
    /// a value of its kind.
    WrongShape = 2,
    /// The version is not 4.
    Version = 3,
    /// A number is above 255, a list of operations or of processes longer than 8, or the type is
    /// called by a text that is [no name](cn_table::is_name).
    Range = 4,
    /// There was not enough memory.
    OutOfMemory = 5,
}

impl From<AllocError> for UnreadCertFault {
    ghost from_gives = { λ _ e. e ≡ OutOfMemory };

    fn from(_e: AllocError) -> UnreadCertFault {
        UnreadCertFault::OutOfMemory
    }
}

impl UnreadCertFault {
    ghost use Rattle.cn_unread_cert.specs.FaultText.{unread_cert_fault_name, unread_cert_fault_number};

    /// The number of the fault.
    pub fn number(&self) -> u8
        // promise: fault-texts
        ensures { result ≡ unread_cert_fault_number self.now }
    {
        *self as u8
    }

    /// The name of the fault.
    pub fn name(&self) -> &'static str
        // promise: fault-texts
        ensures { result.now ≡ unread_cert_fault_name self.now }
    {
        match self {
            UnreadCertFault::NotJson => "NotJson",
            UnreadCertFault::WrongShape => "WrongShape",
            UnreadCertFault::Version => "Version",
            UnreadCertFault::Range => "Range",
            UnreadCertFault::OutOfMemory => "OutOfMemory",
        }
    }
}

impl fmt::Display for UnreadCertFault {
    ghost use Rattle.std.specs.Prelude.{Some};
    ghost use Rattle.cn_unread_cert.specs.FaultText.{unread_cert_fault_text};

    ghost output = { λ fault. Some (unread_cert_fault_text fault) };

    fn fmt<W: fmt::Write>(&self, f: &mut fmt::Formatter<W>) -> fmt::Result {
        write!(f, "{} {}", self.number(), self.name())
    }
}

impl Error for UnreadCertFault {}
