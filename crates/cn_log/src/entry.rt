//! Entries of the log.
ghost use Rattle.std.specs.Prelude.{◌≡◌};
ghost use Rattle.cn_log.specs.Batches.{same_entry};

use cn_table::Operation;

/// A call in the log: the process, its operation, and the number of the call among those of the
/// process, from 0.
#[derive(Clone, Copy, Debug, PartialEq, Eq)]
pub struct Entry {
    /// The process that makes the call, from 0.
    pub process: u8,
    /// The operation of the object.
    pub operation: Operation,
    /// The number of the call among those of its process, from 0.
    pub call: u16,
}

impl Entry {
    /// Whether both are the same call.
    pub(crate) fn is(self, other: Entry) -> bool
        ensures { result ≡ same_entry self other }
    {
        self.process == other.process
            && self.operation.0 == other.operation.0
            && self.call == other.call
    }
}
