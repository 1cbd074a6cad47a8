//! The report of `find --stocks`.
ghost use Rattle.cn_app.specs.Commands.FindStocks.{IsFindStocksReport};

use cn_io::{AppFault, Report, with_line_feed};
use cn_stock_cert::laws::right_bounds_hold;
use cn_stock_cert::write_stock_certificate;
use cn_stock_find::find_stocks;
use cn_table::Table;
use std::alloc::Global;
use std::thread::Threads;

/// A certificate by stocks of the table's consensus number, up to the limit if one was given, and a
/// line feed.
///
/// # Errors
///
/// `Find(BadLimit)` if there is a limit and it is not from 2 to 8. Want of memory can stand in place
/// of any answer.
pub fn find_stocks_report<T: Threads + Sync>(
    rt: &T,
    alloc: Global,
    table: &Table,
    limit: Option<u8>,
) -> Result<Report, AppFault>
    // promise: certificate-by-find-by-stocks (IsFindStocksReport)
    ensures { IsFindStocksReport table.now limit result }
{
    let certificate = find_stocks(rt, alloc, table, limit)?;
    right_bounds_hold();
    let text = write_stock_certificate(alloc, &certificate)?;
    Ok(Report::whole(with_line_feed(text)?))
}
