//! The faults of commands, with their texts and exit statuses.
ghost use Rattle.std.specs.Prelude.{◌≡◌, Some};
ghost use Rattle.cn_io.specs.declared.fault.AppFault.TheVariants.{OutOfMemory};

use crate::limits::{MOST_ARGUMENT_BYTES, MOST_CERTIFICATE_BYTES, MOST_TABLE_BYTES};
use cn_agree::ScheduleFault;
use cn_cert::CertFault;
use cn_check::CheckFault;
use cn_log::ReplayFault;
use cn_search::FindFault;
use cn_service::ServeFault;
use cn_stock_cert::StockCertFault;
use cn_stock_check::StockCheckFault;
use cn_table::TableFault;
use cn_tree_cert::TreeCertFault;
use cn_tree_check::TreeCheckFault;
use cn_unread_cert::UnreadCertFault;
use cn_unread_check::UnreadCheckFault;
use std::alloc::{AllocError, AllocFailed};
use std::error::Error;
use std::fmt;

/// A text that a command reads.
#[derive(Clone, Copy, Debug, PartialEq, Eq)]
pub enum Source {
    /// The type table.
    Table,
    /// The certificate.
    Certificate,
    /// The table of the object that is served.
    Object,
    /// A file that holds the text of an argument.
    Argument(Argument),
}

/// An argument that a command reads from its text.
#[derive(Clone, Copy, Debug, PartialEq, Eq)]
pub enum Argument {
    /// The numbers that the processes begin with.
    Inputs,
    /// The processes in the order of their steps.
    Schedule,
    /// The state in which the object starts.
    Start,
    /// How many slots the log has.
    Capacity,
    /// The events of the log.
    Events,
    /// The calls of each process.
    Calls,
    /// How many processes there are.
    Processes,
    /// What the names of a program in C begin with.
    Prefix,
}

/// Why a command wrote nothing, or could not write.
#[derive(Clone, Copy, Debug, PartialEq, Eq)]
pub enum AppFault {
    /// The words of the command line were refused. Only the program makes this fault.
    Words,
    /// An argument was refused.
    Argument(Argument),
    /// The text of the type table was refused.
    Table(TableFault),
    /// The text of the object's table was refused.
    Object(TableFault),
    /// The text of the certificate was refused.
    Certificate(CertFault),
    /// The text of a certificate by stocks was refused.
    StockCertificate(StockCertFault),
    /// The text of a certificate of a number without reads was refused.
    UnreadCertificate(UnreadCertFault),
    /// The text of a certificate of a plan tree was refused.
    TreeCertificate(TreeCertFault),
    /// A text is longer than its limit.
    TooLong(Source),
    /// The check refused the certificate.
    Check(CheckFault),
    /// The check refused the certificate by stocks.
    StockCheck(StockCheckFault),
    /// The check refused the certificate of a number without reads, or came to no end.
    UnreadCheck(UnreadCheckFault),
    /// The check refused the certificate of a plan tree.
    TreeCheck(TreeCheckFault),
    /// The certificate has no witness.
    NoWitness,
    /// The type has no recording witness for so many processes.
    NoRecordingWitness,
    /// The type has no plan tree for so many processes.
    NoPlanTree,
    /// The limit, or the count of choices at the limit, was refused.
    Find(FindFault),
    /// The inputs or the schedule were refused.
    Schedule(ScheduleFault),
    /// The events were refused.
    Replay(ReplayFault),
    /// A reader failed.
    Read(Source),
    /// The writer failed.
    Write,
    /// A thread could not be started.
    Thread,
    /// An allocation was refused, in any layer.
    OutOfMemory,
}

impl Source {
    ghost use Rattle.cn_io.specs.FaultText.{source_text};
    ghost use Rattle.cn_io.specs.Streams.Reading.{most_of};

    /// How many bytes the text may have.
    pub fn most_bytes(&self) -> usize
        ensures { result ≡ most_of self.now }
    {
        match self {
            Source::Table | Source::Object => MOST_TABLE_BYTES,
            Source::Certificate => MOST_CERTIFICATE_BYTES,
            Source::Argument(_) => MOST_ARGUMENT_BYTES,
        }
    }

    /// The word for it in the text of a fault.
    pub fn name(&self) -> &'static str
        // promise: texts-of-faults
        ensures { result.now ≡ source_text self.now }
    {
        match self {
            Source::Table => "table",
            Source::Certificate => "certificate",
            Source::Object => "object",
            Source::Argument(argument) => argument.name(),
        }
    }
}

impl Argument {
    ghost use Rattle.cn_io.specs.FaultText.{argument_text};

    /// The word for it in the text of a fault.
    pub fn name(&self) -> &'static str
        // promise: texts-of-faults
        ensures { result.now ≡ argument_text self.now }
    {
        match self {
            Argument::Inputs => "INPUTS",
            Argument::Schedule => "SCHEDULE",
            Argument::Start => "START",
            Argument::Capacity => "CAPACITY",
            Argument::Events => "EVENTS",
            Argument::Calls => "CALLS",
            Argument::Processes => "PROCESSES",
            Argument::Prefix => "PREFIX",
        }
    }
}

impl fmt::Display for Source {
    ghost use Rattle.cn_io.specs.FaultText.{source_text};

    ghost output = { λ s. Some (source_text s) };

    fn fmt<W: fmt::Write>(&self, f: &mut fmt::Formatter<W>) -> fmt::Result {
        f.write_str(self.name())
    }
}

impl fmt::Display for Argument {
    ghost use Rattle.cn_io.specs.FaultText.{argument_text};

    ghost output = { λ p. Some (argument_text p) };

    fn fmt<W: fmt::Write>(&self, f: &mut fmt::Formatter<W>) -> fmt::Result {
        f.write_str(self.name())
    }
}

impl AppFault {
    ghost use Rattle.cn_io.specs.FaultText.{head_of, is_of_every_table, plain_of, status_of, tail_of};

    /// The same fault; want of memory in any layer becomes `OutOfMemory`.
    pub fn plain(&self) -> AppFault
        // promise: texts-of-faults
        ensures { result ≡ plain_of self.now }
    {
        match self {
            AppFault::Table(TableFault::OutOfMemory)
            | AppFault::Object(TableFault::OutOfMemory)
            | AppFault::Certificate(CertFault::OutOfMemory)
            | AppFault::StockCertificate(StockCertFault::OutOfMemory)
            | AppFault::StockCheck(StockCheckFault::OutOfMemory)
            | AppFault::UnreadCertificate(UnreadCertFault::OutOfMemory)
            | AppFault::UnreadCheck(UnreadCheckFault::OutOfMemory)
            | AppFault::TreeCertificate(TreeCertFault::OutOfMemory)
            | AppFault::TreeCheck(TreeCheckFault::OutOfMemory)
            | AppFault::Find(FindFault::OutOfMemory)
            | AppFault::Schedule(ScheduleFault::OutOfMemory)
            | AppFault::Replay(ReplayFault::OutOfMemory) => AppFault::OutOfMemory,
            fault => *fault,
        }
    }

    /// The words before the text of the fault that it carries. If it carries none, the words before
    /// the [`tail`](AppFault::tail).
    pub fn head(&self) -> &'static str
        // promise: texts-of-faults
        ensures { result.now ≡ head_of (plain_of self.now) }
    {
        match self.plain() {
            AppFault::Words => "words refused",
            AppFault::Argument(_) => "argument: ",
            AppFault::Table(_) => "table: ",
            AppFault::Object(_) => "object: ",
            AppFault::Certificate(_) | AppFault::UnreadCertificate(_) => "certificate: ",
            AppFault::TreeCertificate(_) | AppFault::StockCertificate(_) => "certificate: ",
            AppFault::TooLong(source) => source.name(),
            AppFault::Check(_) | AppFault::UnreadCheck(_) => "check: ",
            AppFault::TreeCheck(_) | AppFault::StockCheck(_) => "check: ",
            AppFault::NoWitness => "certificate: no witness",
            AppFault::NoRecordingWitness => "table: no recording witness",
            AppFault::NoPlanTree => "table: no plan tree",
            AppFault::Find(_) => "find: ",
            AppFault::Schedule(_) => "schedule: ",
            AppFault::Replay(_) => "replay: ",
            AppFault::Read(_) => "cannot read ",
            AppFault::Write => "cannot write",
            AppFault::Thread => "cannot start a thread",
            AppFault::OutOfMemory => "out of memory",
        }
    }

    /// The words behind the text of the fault that it carries, if there are any.
    pub fn tail(&self) -> &'static str
        // promise: texts-of-faults
        ensures { result.now ≡ tail_of self.now }
    {
        match self {
            AppFault::Argument(argument) => argument.name(),
            AppFault::TooLong(_) => ": too long",
            AppFault::Read(source) => source.name(),
            _ => "",
        }
    }

    /// The exit status of the program:
    ///
    /// - 1: the check refused the certificate or came to no end, or there is no witness or no plan
    ///   tree;
    /// - 2: a text was refused;
    /// - 3: words, an argument, a limit, a count of choices, a schedule or events were refused;
    /// - 4: reading or writing failed, or a thread could not be started;
    /// - 5: want of memory.
    pub fn status(&self) -> u8
        // promise: texts-of-faults
        ensures { result ≡ status_of self.now }
    {
        match self.plain() {
            AppFault::Check(_) | AppFault::UnreadCheck(_) | AppFault::NoWitness => 1,
            AppFault::TreeCheck(_) | AppFault::StockCheck(_) => 1,
            AppFault::NoRecordingWitness | AppFault::NoPlanTree => 1,
            AppFault::Table(_) | AppFault::Object(_) => 2,
            AppFault::Certificate(_) | AppFault::UnreadCertificate(_) => 2,
            AppFault::TreeCertificate(_) | AppFault::StockCertificate(_) => 2,
            AppFault::TooLong(_) => 2,
            AppFault::Words | AppFault::Argument(_) => 3,
            AppFault::Find(_) | AppFault::Schedule(_) | AppFault::Replay(_) => 3,
            AppFault::Read(_) | AppFault::Write | AppFault::Thread => 4,
            AppFault::OutOfMemory => 5,
        }
    }

    /// Whether every table would have this fault: it is one of the limit or of the writer.
    pub fn is_of_every_table(&self) -> bool
        ensures { result ≡ is_of_every_table self.now }
    {
        matches!(self, AppFault::Find(_) | AppFault::Write)
    }
}

impl fmt::Display for AppFault {
    ghost use Rattle.cn_io.specs.FaultText.{app_fault_text};

    ghost output = { λ e. Some (app_fault_text e) };

    fn fmt<W: fmt::Write>(&self, f: &mut fmt::Formatter<W>) -> fmt::Result {
        let (head, tail) = (self.head(), self.tail());
        match self.plain() {
            AppFault::Table(fault) | AppFault::Object(fault) => write!(f, "{head}{fault}{tail}"),
            AppFault::Certificate(fault) => write!(f, "{head}{fault}{tail}"),
            AppFault::UnreadCertificate(fault) => write!(f, "{head}{fault}{tail}"),
            AppFault::Check(fault) => write!(f, "{head}{fault}{tail}"),
            AppFault::UnreadCheck(fault) => write!(f, "{head}{fault}{tail}"),
            AppFault::StockCertificate(fault) => write!(f, "{head}{fault}{tail}"),
            AppFault::StockCheck(fault) => write!(f, "{head}{fault}{tail}"),
            AppFault::TreeCertificate(fault) => write!(f, "{head}{fault}{tail}"),
            AppFault::TreeCheck(fault) => write!(f, "{head}{fault}{tail}"),
            AppFault::Find(fault) => write!(f, "{head}{fault}{tail}"),
            AppFault::Schedule(fault) => write!(f, "{head}{fault}{tail}"),
            AppFault::Replay(fault) => write!(f, "{head}{fault}{tail}"),
            _ => write!(f, "{head}{tail}"),
        }
    }
}

impl Error for AppFault {}

impl<T: Drop> From<AllocFailed<T>> for AppFault {
    ghost from_gives = { λ _ e. e ≡ OutOfMemory };

    fn from(_e: AllocFailed<T>) -> AppFault {
        AppFault::OutOfMemory
    }
}

impl From<TableFault> for AppFault {
    ghost use Rattle.cn_io.specs.FaultText.{plain_of};
    ghost use Rattle.cn_io.specs.declared.fault.AppFault.TheVariants.{Table};

    ghost from_gives = { λ fault e. e ≡ plain_of (Table fault) };

    fn from(fault: TableFault) -> AppFault {
        AppFault::Table(fault).plain()
    }
}

impl From<FindFault> for AppFault {
    ghost use Rattle.cn_io.specs.FaultText.{plain_of};
    ghost use Rattle.cn_io.specs.declared.fault.AppFault.TheVariants.{Find};

    ghost from_gives = { λ fault e. e ≡ plain_of (Find fault) };

    fn from(fault: FindFault) -> AppFault {
        AppFault::Find(fault).plain()
    }
}

impl From<CertFault> for AppFault {
    ghost use Rattle.cn_io.specs.FaultText.{plain_of};
    ghost use Rattle.cn_io.specs.declared.fault.AppFault.TheVariants.{Certificate};

    ghost from_gives = { λ fault e. e ≡ plain_of (Certificate fault) };

    fn from(fault: CertFault) -> AppFault {
        AppFault::Certificate(fault).plain()
    }
}

impl From<UnreadCertFault> for AppFault {
    ghost use Rattle.cn_io.specs.FaultText.{plain_of};
    ghost use Rattle.cn_io.specs.declared.fault.AppFault.TheVariants.{UnreadCertificate};

    ghost from_gives = { λ fault e. e ≡ plain_of (UnreadCertificate fault) };

    fn from(fault: UnreadCertFault) -> AppFault {
        AppFault::UnreadCertificate(fault).plain()
    }
}

impl From<CheckFault> for AppFault {
    ghost use Rattle.cn_io.specs.declared.fault.AppFault.TheVariants.{Check};

    ghost from_gives = { λ fault e. e ≡ Check fault };

    fn from(fault: CheckFault) -> AppFault {
        AppFault::Check(fault)
    }
}

impl From<UnreadCheckFault> for AppFault {
    ghost use Rattle.cn_io.specs.FaultText.{plain_of};
    ghost use Rattle.cn_io.specs.declared.fault.AppFault.TheVariants.{UnreadCheck};

    ghost from_gives = { λ fault e. e ≡ plain_of (UnreadCheck fault) };

    fn from(fault: UnreadCheckFault) -> AppFault {
        AppFault::UnreadCheck(fault).plain()
    }
}

impl From<TreeCertFault> for AppFault {
    ghost use Rattle.cn_io.specs.FaultText.{plain_of};
    ghost use Rattle.cn_io.specs.declared.fault.AppFault.TheVariants.{TreeCertificate};

    ghost from_gives = { λ fault e. e ≡ plain_of (TreeCertificate fault) };

    fn from(fault: TreeCertFault) -> AppFault {
        AppFault::TreeCertificate(fault).plain()
    }
}

impl From<TreeCheckFault> for AppFault {
    ghost use Rattle.cn_io.specs.FaultText.{plain_of};
    ghost use Rattle.cn_io.specs.declared.fault.AppFault.TheVariants.{TreeCheck};

    ghost from_gives = { λ fault e. e ≡ plain_of (TreeCheck fault) };

    fn from(fault: TreeCheckFault) -> AppFault {
        AppFault::TreeCheck(fault).plain()
    }
}

impl From<StockCertFault> for AppFault {
    ghost use Rattle.cn_io.specs.FaultText.{plain_of};
    ghost use Rattle.cn_io.specs.declared.fault.AppFault.TheVariants.{StockCertificate};

    ghost from_gives = { λ fault e. e ≡ plain_of (StockCertificate fault) };

    fn from(fault: StockCertFault) -> AppFault {
        AppFault::StockCertificate(fault).plain()
    }
}

impl From<StockCheckFault> for AppFault {
    ghost use Rattle.cn_io.specs.FaultText.{plain_of};
    ghost use Rattle.cn_io.specs.declared.fault.AppFault.TheVariants.{StockCheck};

    ghost from_gives = { λ fault e. e ≡ plain_of (StockCheck fault) };

    fn from(fault: StockCheckFault) -> AppFault {
        AppFault::StockCheck(fault).plain()
    }
}

impl From<ScheduleFault> for AppFault {
    ghost use Rattle.cn_io.specs.FaultText.{plain_of};
    ghost use Rattle.cn_io.specs.declared.fault.AppFault.TheVariants.{Schedule};

    ghost from_gives = { λ fault e. e ≡ plain_of (Schedule fault) };

    fn from(fault: ScheduleFault) -> AppFault {
        AppFault::Schedule(fault).plain()
    }
}

impl From<ReplayFault> for AppFault {
    ghost use Rattle.cn_io.specs.FaultText.{plain_of};
    ghost use Rattle.cn_io.specs.declared.fault.AppFault.TheVariants.{Replay};

    ghost from_gives = { λ fault e. e ≡ plain_of (Replay fault) };

    fn from(fault: ReplayFault) -> AppFault {
        AppFault::Replay(fault).plain()
    }
}

impl From<ServeFault> for AppFault {
    ghost use Rattle.cn_io.specs.FaultText.{of_serving};

    ghost from_gives = { λ fault e. e ≡ of_serving fault };

    fn from(fault: ServeFault) -> AppFault {
        match fault {
            ServeFault::Thread => AppFault::Thread,
            ServeFault::OutOfMemory => AppFault::OutOfMemory,
        }
    }
}

impl From<AllocError> for AppFault {
    ghost from_gives = { λ _ e. e ≡ OutOfMemory };

    fn from(_e: AllocError) -> AppFault {
        AppFault::OutOfMemory
    }
}
