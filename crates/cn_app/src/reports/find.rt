//! The report of `find`.
ghost use Rattle.cn_app.specs.Commands.Find.{GivesFound, IsFindReport, IsLimitFor};

use cn_cert::Certificate;
use cn_find_text::find_text;
use cn_io::{AppFault, Report};
use cn_search::greatest_limit;
use cn_table::Table;
use std::alloc::Global;
use std::thread::Threads;

/// The given limit, or else the greatest that [`find_report`] accepts for this table.
pub fn limit_for(table: &Table, given: Option<u8>) -> u8
    // promise: limit-by-default (IsLimitFor)
    ensures { IsLimitFor table.now given result }
{
    match given {
        Some(limit) => limit,
        None => greatest_limit(table),
    }
}

/// The certificate of the table's consensus number up to the limit.
pub(crate) fn found_certificate<T: Threads + Sync>(
    rt: &T,
    alloc: Global,
    table: &Table,
    limit: u8,
) -> Result<Certificate, AppFault>
    ensures { GivesFound table.now limit result }
{
    let finding = cn_search::find(rt, alloc, table, limit)?;
    match Certificate::of_finding(alloc, table, finding) {
        Ok(certificate) => Ok(certificate),
        Err(_) => Err(AppFault::OutOfMemory),
    }
}

/// The certificate of the table's consensus number up to the limit, and a line feed.
///
/// The number is the greatest n from 2 to the limit for which the type is n-discerning. `rt` starts
/// the threads of the search, which write the certificate as they find it ([`find_text`]).
///
/// # Errors
///
/// [`find_text`] refuses the limit. Want of memory can stand in place of any answer.
pub fn find_report<T: Threads + Sync>(
    rt: &T,
    alloc: Global,
    table: &Table,
    limit: u8,
) -> Result<Report, AppFault>
    // promise: parts-of-commands (IsFindReport)
    ensures { IsFindReport table.now limit result }
{
    let mut text = find_text(rt, alloc, table, limit)?;
    text.push_str("\n")?;
    Ok(Report::whole(text))
}
