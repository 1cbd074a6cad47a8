//! What to do about a fault, for a person who reads it.
ghost use Rattle.std.specs.Prelude.{◌≡◌, Some, option_map};
ghost use Rattle.cn_io.specs.Hints.{argument_hint, certificate_hint, check_hint, find_hint, hint_of, hint_text, lint_hint, plan_hint, replay_hint, schedule_hint, size_hint, stock_certificate_hint, stock_check_hint, table_hint, tree_certificate_hint, tree_check_hint, unread_certificate_hint, unread_check_hint};

use crate::fault::{AppFault, Argument, Source};
use crate::known::Known;
use cn_agree::ScheduleFault;
use cn_cert::CertFault;
use cn_check::CheckFault;
use cn_log::ReplayFault;
use cn_search::FindFault;
use cn_stock_cert::StockCertFault;
use cn_stock_check::StockCheckFault;
use cn_table::TableFault;
use cn_tree_cert::TreeCertFault;
use cn_tree_check::TreeCheckFault;
use cn_unread_cert::UnreadCertFault;
use cn_unread_check::UnreadCheckFault;
use std::fmt;

/// What to do about a fault.
#[derive(Clone, Copy)]
pub enum Hint<'a> {
    /// What the fault means, or what is expected.
    Says(&'static str),
    /// The command `lint` tells the mistakes of the table in this file, or of standard input.
    Lint(Option<&'a str>),
    /// Where and why the table is no TOML.
    NotToml(&'a str),
    /// The greatest limit that is not refused.
    GreatestLimit(u8),
    /// How many processes there are.
    Processes(u8),
}

impl<'a> fmt::Display for Hint<'a> {
    ghost output = { λ hint. Some (hint_text hint) };

    fn fmt<W: fmt::Write>(&self, f: &mut fmt::Formatter<W>) -> fmt::Result {
        match self {
            Hint::Says(text) => f.write_str(text),
            Hint::Lint(Some(file)) => {
                write!(f, "cnum lint {file} tells each mistake and its place")
            }
            Hint::Lint(None) => {
                f.write_str("cnum lint tells each mistake of the table and its place")
            }
            Hint::NotToml(reason) => f.write_str(reason),
            Hint::GreatestLimit(limit) => write!(
                f,
                "the greatest limit for this table is {limit}; find --stocks takes every limit"
            ),
            Hint::Processes(count) => write!(
                f,
                "the protocol has {count} processes: INPUTS has a number for each, and SCHEDULE names them from 0 on"
            ),
        }
    }
}

// What an argument is expected to be.
fn argument_hint(argument: &Argument) -> &'static str
    ensures { result.now ≡ argument_hint argument.now }
{
    match argument {
        Argument::Inputs => "INPUTS is a list of numbers with commas, such as 10,20",
        Argument::Schedule => {
            "SCHEDULE is a list of processes with commas, such as 1,0,0: who takes the next step"
        }
        Argument::Start => "START is the name of a state of the object",
        Argument::Capacity => "CAPACITY is a number from 1 to 1024",
        Argument::Events => {
            "EVENTS is a list with commas, such as i0:inc,s0: process 0 calls inc and takes a step"
        }
        Argument::Calls => {
            "CALLS has operations of the object for each process, such as inc,inc/none for two"
        }
        Argument::Processes => "the number of processes is from 2 to 8",
        Argument::Prefix => {
            "a prefix is 1 to 32 letters, digits or _, the first no digit, and no word of C or C++"
        }
    }
}

// How long the text may be.
fn size_hint(source: &Source) -> &'static str
    ensures { result.now ≡ size_hint source.now }
{
    match source {
        Source::Table | Source::Object => "a table has at most 65536 bytes",
        Source::Certificate => "a certificate has at most 16777216 bytes",
        Source::Argument(_) => "a file with a list has at most 1048576 bytes",
    }
}

// The command that tells the mistakes of a table, unless it has told them.
fn lint_hint(file: Option<&str>, is_linted: bool) -> Option<Hint<'_>>
    ensures { option_map hint_text result ≡ lint_hint (option_map (λ s. s.now) file.entry) is_linted }
{
    if is_linted {
        None
    } else {
        Some(Hint::Lint(file))
    }
}

// The reason, if the text is no TOML and the reason is known; else the command that tells it.
fn table_hint<'a>(
    fault: TableFault,
    file: Option<&'a str>,
    is_linted: bool,
    reason: Option<&'a str>,
) -> Option<Hint<'a>>
    ensures { option_map hint_text result ≡ table_hint fault (option_map (λ s. s.now) file.entry)
        is_linted (option_map (λ s. s.now) reason.entry) }
{
    match fault {
        TableFault::OutOfMemory => None,
        TableFault::NotToml => match reason {
            Some(reason) => Some(Hint::NotToml(reason)),
            None => lint_hint(file, is_linted),
        },
        _ => lint_hint(file, is_linted),
    }
}

fn certificate_hint(fault: CertFault) -> Option<Hint<'static>>
    ensures { option_map hint_text result ≡ certificate_hint fault }
{
    Some(Hint::Says(match fault {
        CertFault::NotJson => "a certificate is one JSON object, as find writes it",
        CertFault::WrongShape => {
            "a certificate has these keys alone: collisions, limit, number, type, version, witness; \
             check --stocks is for one of find --stocks, \
             check --without-read for one of find --without-read, \
             check --shortest for one of find --shortest"
        }
        CertFault::Version => "the version of a certificate is 1 or 2",
        CertFault::Range =>
            "a number or a list is too great for a certificate, or the type has no right name",
        CertFault::OutOfMemory => return None,
    }))
}

fn stock_certificate_hint(fault: StockCertFault) -> Option<Hint<'static>>
    ensures { option_map hint_text result ≡ stock_certificate_hint fault }
{
    Some(Hint::Says(match fault {
        StockCertFault::NotJson => "a certificate is one JSON object, as find --stocks writes it",
        StockCertFault::WrongShape => {
            "a certificate by stocks has these keys alone: \
             at_least, at_most, least, most, type, version"
        }
        StockCertFault::Version => "the version of a certificate by stocks is 3",
        StockCertFault::Range => {
            "a number is too great for a certificate, or the type has no right name"
        }
        StockCertFault::OutOfMemory => return None,
    }))
}

fn unread_certificate_hint(fault: UnreadCertFault) -> Option<Hint<'static>>
    ensures { option_map hint_text result ≡ unread_certificate_hint fault }
{
    Some(Hint::Says(match fault {
        UnreadCertFault::NotJson => {
            "a certificate is one JSON object, as find --without-read writes it"
        }
        UnreadCertFault::WrongShape => {
            "a certificate without reads has these keys alone: \
             at_least, at_most, least, most, type, version"
        }
        UnreadCertFault::Version => "the version of a certificate without reads is 4",
        UnreadCertFault::Range => {
            "a number or a list is too great for a certificate, or the type has no right name"
        }
        UnreadCertFault::OutOfMemory => return None,
    }))
}

// Why the check refuses a certificate by stocks.
fn stock_check_hint(fault: StockCheckFault) -> Option<Hint<'static>>
    ensures { option_map hint_text result ≡ stock_check_hint fault }
{
    Some(Hint::Says(match fault {
        StockCheckFault::OtherType => "the certificate is for a type of another name",
        StockCheckFault::BadNumber => {
            "at_least is from 1 to 16 or null, and at_most from it to 16 or null"
        }
        StockCheckFault::LeastShape => {
            "least is null for 1, a witness for another number, and lasting sets for every number"
        }
        StockCheckFault::NotAChoice => {
            "the witness is no choice of the table for as many processes as at_least"
        }
        StockCheckFault::NoWitness => {
            "in the witness some process cannot always tell which team was first"
        }
        StockCheckFault::NotLasting => {
            "the sets of states do not show that the two operations last"
        }
        StockCheckFault::MostShape => "most has joins exactly if at_most is a number",
        StockCheckFault::NotAJoin(_) => {
            "this join, from 0, has no two words that show one operation the same"
        }
        StockCheckFault::NoticesItself(_) => {
            "two processes with this operation, from 0, can tell who was first"
        }
        StockCheckFault::NotConnected(_) => {
            "from this state, from 0, the joins leave two teams to some stock"
        }
        StockCheckFault::OutOfMemory => return None,
    }))
}

// Why the check refuses a certificate of a number without reads.
fn unread_check_hint(fault: UnreadCheckFault) -> Option<Hint<'static>>
    ensures { option_map hint_text result ≡ unread_check_hint fault }
{
    Some(Hint::Says(match fault {
        UnreadCheckFault::OtherType => "the certificate is for a type of another name",
        UnreadCheckFault::BadNumber => {
            "at_least is from 1 to 8 or null, and at_most from it to 7 or null"
        }
        UnreadCheckFault::Least => "the evidence does not show at_least",
        UnreadCheckFault::Most => "the evidence does not show at_most",
        UnreadCheckFault::TooManyScenes => {
            "the further operations lead to too many scenes for the check"
        }
        UnreadCheckFault::OutOfMemory => return None,
    }))
}

fn tree_certificate_hint(fault: TreeCertFault) -> Option<Hint<'static>>
    ensures { option_map hint_text result ≡ tree_certificate_hint fault }
{
    Some(Hint::Says(match fault {
        TreeCertFault::NotJson => "a certificate is one JSON object, as find --shortest writes it",
        TreeCertFault::WrongShape => {
            "a certificate of a plan has these keys alone: nodes, processes, steps, type, version"
        }
        TreeCertFault::Version => "the version of a certificate of a plan is 5",
        TreeCertFault::Range => {
            "a number is too great for a certificate, or the type has no right name"
        }
        TreeCertFault::OutOfMemory => return None,
    }))
}

// Why the check refuses a certificate of a plan tree.
fn tree_check_hint(fault: TreeCheckFault) -> Option<Hint<'static>>
    ensures { option_map hint_text result ≡ tree_check_hint fault }
{
    Some(Hint::Says(match fault {
        TreeCheckFault::OtherType => "the certificate is for a type of another name",
        TreeCheckFault::NotATree => {
            "the teams are not those of a tree of 2 to 8 processes, as many as it tells"
        }
        TreeCheckFault::BadMeeting => {
            "a node has no state of the table, or not an operation of it for each of its processes"
        }
        TreeCheckFault::Meets { .. } => {
            "at this node, from 0, this process cannot always tell which team was first"
        }
        TreeCheckFault::BadSteps => "steps is not the most that a process takes",
        TreeCheckFault::OutOfMemory => return None,
    }))
}

// Why the check refuses a certificate.
fn check_hint(fault: &CheckFault) -> &'static str
    ensures { result.now ≡ check_hint fault.now }
{
    match fault {
        CheckFault::OtherType => "the certificate is for a type of another name",
        CheckFault::BadNumber => {
            "the limit is from 2 to 8, or to 6 in version 1, and the number from 2 to the limit"
        }
        CheckFault::WitnessShape => {
            "the witness is no choice of the table for as many processes as the number"
        }
        CheckFault::WitnessMeets(_) => "this process cannot always tell which team was first",
        CheckFault::Unexpected => "a number that is the limit has no collisions",
        CheckFault::NotNext(_) => {
            "this entry, from 0, is not of the choice that has to be refuted next"
        }
        CheckFault::NotACollision(_) => {
            "this entry, from 0, has no two runs that its process cannot tell apart"
        }
        CheckFault::TooFew => "some choice for one process more is not refuted",
    }
}

fn find_hint(fault: FindFault, greatest_limit: Option<u8>) -> Option<Hint<'static>>
    ensures { option_map hint_text result ≡ find_hint fault greatest_limit }
{
    match fault {
        FindFault::BadLimit => Some(Hint::Says("a limit is from 2 to 8")),
        FindFault::TooManyChoices(_) => match greatest_limit {
            Some(limit) => Some(Hint::GreatestLimit(limit)),
            None => Some(Hint::Says("take a smaller limit")),
        },
        FindFault::OutOfMemory => None,
    }
}

fn schedule_hint(fault: ScheduleFault, processes: Option<u8>) -> Option<Hint<'static>>
    ensures { option_map hint_text result ≡ schedule_hint fault processes }
{
    let otherwise = match fault {
        ScheduleFault::InputCount => "INPUTS has a number for each process",
        ScheduleFault::NoSuchProcess(_) => "SCHEDULE names processes from 0 on",
        ScheduleFault::OutOfMemory => return None,
    };
    match processes {
        Some(count) => Some(Hint::Processes(count)),
        None => Some(Hint::Says(otherwise)),
    }
}

// For how many processes there is a plan. Without reads, other protocols may do more than plan trees.
fn plan_hint(without_read: bool) -> &'static str
    ensures { result.now ≡ plan_hint without_read }
{
    if without_read {
        "protocols of other kinds may exist: classify --without-read tells for how many processes"
    } else {
        "classify tells for how many processes there is one"
    }
}

fn replay_hint(fault: ReplayFault) -> Option<Hint<'static>>
    ensures { option_map hint_text result ≡ replay_hint fault }
{
    Some(Hint::Says(match fault {
        ReplayFault::NoSuchProcess(_) => "the event at this place, from 0, is of no process",
        ReplayFault::NoSuchOperation(_) => "the object has no operation of this event, from 0",
        ReplayFault::NotIdle(_) => "at this event, from 0, the process is still in a call",
        ReplayFault::Idle(_) => "at this event, from 0, the process is in no call",
        ReplayFault::AtEnd(_) => "before this event, from 0, the process has seen the log full",
        ReplayFault::OutOfMemory => return None,
    }))
}

impl AppFault {
    /// What to do about the fault, by what is known of the texts, if there is something to say.
    pub fn hint<'k>(&self, known: &'k Known<'k>) -> Option<Hint<'k>>
        // promise: hints (hint_of)
        ensures { option_map hint_text result ≡ hint_of self.now known.now }
    {
        match self {
            AppFault::Words => Some(Hint::Says(
                "a word is no UTF-8 or missing, two texts would both be standard input, or two words exclude each other",
            )),
            AppFault::Argument(argument) => Some(Hint::Says(argument_hint(argument))),
            AppFault::Table(fault) => {
                table_hint(*fault, known.table, known.is_linted, known.reason())
            },
            AppFault::Object(fault) => table_hint(*fault, known.object, false, None),
            AppFault::Certificate(fault) => certificate_hint(*fault),
            AppFault::StockCertificate(fault) => stock_certificate_hint(*fault),
            AppFault::UnreadCertificate(fault) => unread_certificate_hint(*fault),
            AppFault::TooLong(source) => Some(Hint::Says(size_hint(source))),
            AppFault::Check(fault) => Some(Hint::Says(check_hint(fault))),
            AppFault::StockCheck(fault) => stock_check_hint(*fault),
            AppFault::UnreadCheck(fault) => unread_check_hint(*fault),
            AppFault::TreeCertificate(fault) => tree_certificate_hint(*fault),
            AppFault::TreeCheck(fault) => tree_check_hint(*fault),
            AppFault::NoWitness => Some(Hint::Says("the number is null, so there is no protocol")),
            AppFault::NoRecordingWitness => Some(Hint::Says(
                "classify --recoverable tells for how many processes there is one",
            )),
            AppFault::NoPlanTree => Some(Hint::Says(plan_hint(known.without_read))),
            AppFault::Find(fault) => find_hint(*fault, known.greatest_limit),
            AppFault::Schedule(fault) => schedule_hint(*fault, known.processes),
            AppFault::Replay(fault) => replay_hint(*fault),
            AppFault::Read(_) => Some(Hint::Says("it is not there, or it may not be read")),
            AppFault::Write | AppFault::Thread | AppFault::OutOfMemory => None,
        }
    }
}
