//! What is known of the texts of a command when its fault is told.
ghost use Rattle.std.specs.Prelude.{◌≡◌, ◌⊎◌, IfSome, None, false, option_map, string_bytes};
ghost use Rattle.cn_io.specs.Hints.{IsGreatestLimitOf, IsNumberOf};

use crate::fault::AppFault;
use cn_search::{FindFault, greatest_limit};
use cn_table::TableFault;
use std::alloc::{AllocError, Global};

/// What is known of the texts of a command when its fault is told.
#[derive(Drop)]
pub struct Known<'a> {
    /// The name of the file of the table, if it has one.
    pub table: Option<&'a str>,
    /// The name of the file of the object, if there is one.
    pub object: Option<&'a str>,
    /// Whether the mistakes of the table are told already.
    pub is_linted: bool,
    /// Where and why the text of the table is no TOML.
    pub reason: Option<String>,
    /// The greatest limit that is not refused for the table.
    pub greatest_limit: Option<u8>,
    /// How many processes the protocol of the certificate has.
    pub processes: Option<u8>,
    /// Whether a plan was asked for of which no process reads.
    pub without_read: bool,
}

// Where and why the bytes are no TOML, in the words of the crate that reads it. `None` says nothing.
fn toml_reason(alloc: Global, bytes: &[u8]) -> Result<Option<String>, AllocError> {
    let Ok(text) = str::from_utf8(bytes) else {
        return Ok(None);
    };
    let Err(error) = toml::table_from_str(alloc, text) else {
        return Ok(None);
    };
    if error.is_memory() {
        return Err(AllocError);
    }
    let told = format!(in alloc; "{error}")?;
    match told.trim_end().split_once('\n') {
        Some((place, reason)) => Ok(Some(format!(in alloc; "{place}: {reason}")?)),
        None => Ok(None),
    }
}

// The greatest limit that is not refused for the table that the bytes spell.
fn limit_of(alloc: Global, bytes: &[u8]) -> Option<u8>
    ensures { IfSome result (IsGreatestLimitOf bytes.now) }
{
    match cn_table::read_table(alloc, bytes) {
        Ok(table) => Some(greatest_limit(&table)),
        Err(_) => None,
    }
}

// The number of the certificate that the bytes spell.
fn number_of(alloc: Global, bytes: &[u8]) -> Option<u8>
    ensures { IfSome result (IsNumberOf bytes.now) }
{
    match cn_cert::read_certificate(alloc, bytes) {
        Ok(certificate) => certificate.number,
        Err(_) => None,
    }
}

impl<'a> Known<'a> {
    /// Nothing is known but the names of files.
    pub fn of_files(table: Option<&'a str>, object: Option<&'a str>) -> Known<'a>
        // promise: hints
        ensures { result ≡ record {
          table = table.entry;
          object = object.entry;
          is_linted = false;
          reason = None;
          greatest_limit = None;
          processes = None;
          without_read = false;
        } }
    {
        Known {
            table,
            object,
            is_linted: false,
            reason: None,
            greatest_limit: None,
            processes: None,
            without_read: false,
        }
    }

    /// Where and why the text of the table is no TOML, if it is known.
    pub fn reason(&self) -> Option<&str>
        // promise: hints
        ensures { option_map (λ s. s.now) result ≡ option_map string_bytes self.now.reason }
    {
        match &self.reason {
            Some(reason) => Some(reason.as_str()),
            None => None,
        }
    }

    /// Notes what the text of the table says of a fault: where and why it is no TOML, or the
    /// greatest limit. Where memory is short, nothing is noted.
    pub fn note_table(&mut self, alloc: Global, fault: AppFault, bytes: &[u8])
        ensures files { (self.new.table ≡ self.old.table) × (self.new.object ≡ self.old.object)
            × (self.new.is_linted ≡ self.old.is_linted)
            × (self.new.without_read ≡ self.old.without_read) }
        // promise: hints (IsGreatestLimitOf)
        ensures limit { (self.new.greatest_limit ≡ self.old.greatest_limit)
            ⊎ IfSome self.new.greatest_limit (IsGreatestLimitOf bytes.now) }
        ensures processes { self.new.processes ≡ self.old.processes }
    {
        match fault {
            AppFault::Table(TableFault::NotToml) => {
                self.reason = toml_reason(alloc, bytes).unwrap_or(None);
            }
            AppFault::Find(FindFault::TooManyChoices(_)) => {
                self.greatest_limit = limit_of(alloc, bytes);
            }
            _ => {}
        }
    }

    /// Notes what the text of a certificate that the check has accepted says of a fault: of one of
    /// the inputs or the schedule, how many processes there are. Where memory is short, nothing is
    /// noted.
    pub fn note_certificate(&mut self, alloc: Global, fault: AppFault, bytes: &[u8])
        ensures files { (self.new.table ≡ self.old.table) × (self.new.object ≡ self.old.object)
            × (self.new.is_linted ≡ self.old.is_linted)
            × (self.new.without_read ≡ self.old.without_read) }
        ensures limit { self.new.greatest_limit ≡ self.old.greatest_limit }
        ensures reason { self.new.reason ≡ self.old.reason }
        // promise: hints (IsNumberOf)
        ensures processes { (self.new.processes ≡ self.old.processes)
            ⊎ IfSome self.new.processes (IsNumberOf bytes.now) }
    {
        if let AppFault::Schedule(_) = fault {
            self.processes = number_of(alloc, bytes);
        }
    }
}
