//! The report of `why --stocks`.
ghost use Rattle.cn_app.specs.Commands.WhyStocks.{IsWhyStocksReport};

use crate::reports::explain_stocks::explain_stocks_report;
use cn_io::{AppFault, Report};
use cn_stock_find::find_stocks;
use cn_table::Table;
use std::alloc::Global;
use std::thread::Threads;

/// Why the table's consensus number is what it is, up to the limit if one was given: the text of
/// [`explain_stocks_report`] for the certificate that
/// [`find_stocks_report`](crate::reports::find_stocks_report) writes.
///
/// # Errors
///
/// `Find(BadLimit)` if there is a limit and it is not from 2 to 8. Want of memory can stand in place
/// of any answer.
pub fn why_stocks_report<T: Threads + Sync>(
    rt: &T,
    alloc: Global,
    table: &Table,
    limit: Option<u8>,
    all: bool,
) -> Result<Report, AppFault>
    ensures { IsWhyStocksReport table.now limit all result }
{
    let certificate = find_stocks(rt, alloc, table, limit)?;
    explain_stocks_report(alloc, table, &certificate, all)
}
