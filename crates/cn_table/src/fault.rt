//! The faults of the bytes of a table.
ghost use Rattle.std.specs.Prelude.{◌≡◌};
ghost use Rattle.cn_table.specs.declared.fault.TableFault.TheVariants.{OutOfMemory};

use std::alloc::{AllocError, AllocFailed};
use std::error::Error;
use std::fmt;

/// Why bytes could not be read as a table.
///
/// Each fault has a number, from 1 to 10. If bytes have several of the first nine, the answer is
/// the one with the least number.
#[derive(Clone, Copy, Debug, PartialEq, Eq)]
pub enum TableFault {
    /// The bytes are not UTF-8, or not a TOML document.
    NotToml = 1,
    /// The root has a key other than `name`, `states`, `responses` and `operation`, or an operation
    /// has one other than `name`, `response` and `next`.
    UnknownKey = 2,
    /// The root or an operation lacks one of these keys.
    MissingKey = 3,
    /// A `name` is not a text, or `operation` is not an array of tables, or `states`, `responses`,
    /// a `response` or a `next` is not an array of texts.
    WrongKind = 4,
    /// The text that names the type, a state, a response or an operation is not a name, which is 1
    /// to [`LONGEST_NAME`](crate::LONGEST_NAME) small letters, digits and underscores.
    BadName = 5,
    /// The type does not have 1 to [`MOST_STATES`](crate::MOST_STATES) states, 1 to
    /// [`MOST_RESPONSES`](crate::MOST_RESPONSES) responses and 1 to
    /// [`MOST_OPERATIONS`](crate::MOST_OPERATIONS) operations.
    Count = 6,
    /// Two states, two responses or two operations have the same name.
    Repeated = 7,
    /// The length of a `response` or a `next` is not the number of states.
    RowLength = 8,
    /// An entry of a `response` names no response, or an entry of a `next` names no state.
    UnknownName = 9,
    /// There was not enough memory to read the table.
    OutOfMemory = 10,
}

impl<T: Drop> From<AllocFailed<T>> for TableFault {
    ghost from_gives = { λ _ e. e ≡ OutOfMemory };

    fn from(_e: AllocFailed<T>) -> TableFault {
        TableFault::OutOfMemory
    }
}

impl From<AllocError> for TableFault {
    ghost from_gives = { λ _ e. e ≡ OutOfMemory };

    fn from(_e: AllocError) -> TableFault {
        TableFault::OutOfMemory
    }
}

impl TableFault {
    ghost use Rattle.cn_table.specs.FaultText.{table_fault_name, table_fault_number};

    /// The number of the fault.
    pub fn number(&self) -> u8
        // promise: fault-texts
        ensures { result ≡ table_fault_number self.now }
    {
        *self as u8
    }

    /// The name of the fault.
    pub fn name(&self) -> &'static str
        // promise: fault-texts
        ensures { result.now ≡ table_fault_name self.now }
    {
        match self {
            TableFault::NotToml => "NotToml",
            TableFault::UnknownKey => "UnknownKey",
            TableFault::MissingKey => "MissingKey",
            TableFault::WrongKind => "WrongKind",
            TableFault::BadName => "BadName",
            TableFault::Count => "Count",
            TableFault::Repeated => "Repeated",
            TableFault::RowLength => "RowLength",
            TableFault::UnknownName => "UnknownName",
            TableFault::OutOfMemory => "OutOfMemory",
        }
    }
}

impl fmt::Display for TableFault {
    ghost use Rattle.std.specs.Prelude.{Some};
    ghost use Rattle.cn_table.specs.FaultText.{table_fault_text};

    ghost output = { λ fault. Some (table_fault_text fault) };

    fn fmt<W: fmt::Write>(&self, f: &mut fmt::Formatter<W>) -> fmt::Result {
        write!(f, "{} {}", self.number(), self.name())
    }
}

impl Error for TableFault {}
