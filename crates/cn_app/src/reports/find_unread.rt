//! The report of `find --without-read`.
ghost use Rattle.cn_app.specs.Commands.FindUnread.{IsFindUnreadReport};

use cn_io::{AppFault, Report, with_line_feed};
use cn_table::Table;
use cn_unread_cert::{unread_certificate, write_unread_certificate};
use cn_unread_check::laws::accepted_bounds_hold;
use std::alloc::Global;
use std::thread::Threads;

/// A certificate of the table's number without reads, and a line feed.
///
/// # Errors
///
/// `OutOfMemory`.
pub fn find_unread_report<T: Threads + Sync>(
    rt: &T,
    alloc: Global,
    table: &Table,
) -> Result<Report, AppFault>
    // promise: certificate-by-find-without-reads (IsFindUnreadReport)
    ensures { IsFindUnreadReport table.now result }
{
    let certificate = unread_certificate(rt, alloc, table)?;
    accepted_bounds_hold();
    let text = write_unread_certificate(alloc, &certificate)?;
    Ok(Report::whole(with_line_feed(text)?))
}
