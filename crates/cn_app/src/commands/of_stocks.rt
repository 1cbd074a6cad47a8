//! The commands of certificates by stocks: they write the certificate of a table or why its number is
//! what it is, check a certificate against a table, and explain it.
ghost use Rattle.cn_app.specs.Commands.CheckStocks.{HasCheckStocksReport};
ghost use Rattle.cn_app.specs.Commands.ExplainStocks.{HasExplainStocksReport};
ghost use Rattle.cn_app.specs.Commands.FindStocks.{HasFindStocksReport};
ghost use Rattle.cn_app.specs.Commands.WhyStocks.{HasWhyStocksReport};
ghost use Rattle.cn_io.specs.Texts.Checked.{HaveReadBoth};
ghost use Rattle.cn_io.specs.Streams.Reading.{HasRead, IsUnread};
ghost use Rattle.cn_io.specs.Streams.Writing.{IsWritable, Reports};

use crate::reports::check_stocks::stock_verdict_report;
use crate::reports::{explain_stocks_report, find_stocks_report, why_stocks_report};
use cn_form::AnswerForm;
use cn_io::readers::{check_stock_certificate, read_right_stock_certificate, read_table};
use cn_io::{AppFault, Outcome, Output, Source, Text};
use std::alloc::Global;
use std::io::{Read, Write};
use std::thread::Threads;

/// Reads a type table, and writes the certificate by stocks of its consensus number, up to the limit
/// if one was given ([`find_stocks_report`]).
///
/// # Errors
///
/// The first of these: those of [`read_table`]; those of [`find_stocks_report`]; the writer fails.
pub fn find_stocks<T: Threads + Sync, R: Read, W: Write>(
    rt: &T,
    alloc: Global,
    table: &mut Text<R>,
    output: &mut Output<W>,
    limit: Option<u8>,
) -> Result<Outcome, AppFault>
    requires table { IsUnread table.old }
    requires output { IsWritable output.old }

    ensures read { HasRead Source.Table R.remaining table.old table.new }
    // promise: certificate-by-find-by-stocks (HasFindStocksReport: IsFoundByStocks: IsRight)
    ensures found { Reports W.contents (HasFindStocksReport table.new limit)
        output.old output.new result }
{
    let table = read_table(alloc, table)?;
    output.report(find_stocks_report(rt, alloc, &table, limit))
}

/// Reads a type table and a certificate by stocks, checks the certificate against the table, and
/// writes `ok` and a line feed if the check accepts it. As JSON, writes the verdict; of a certificate
/// that is refused it has the fault, and so has the outcome.
///
/// # Errors
///
/// The first of these: those of [`read_table`]; those of [`check_stock_certificate`], as JSON without
/// those of the text of the certificate and of the check; the writer fails. Want of memory can stand
/// in place of any answer.
pub fn check_stocks<R: Read, C: Read, W: Write>(
    alloc: Global,
    table: &mut Text<R>,
    certificate: &mut Text<C>,
    output: &mut Output<W>,
    form: AnswerForm,
) -> Result<Outcome, AppFault>
    requires texts { IsUnread table.old × IsUnread certificate.old }
    requires output { IsWritable output.old }

    // promise: order-of-checks (HaveReadBoth: order)
    ensures read { HaveReadBoth R.remaining C.remaining table.old table.new
        certificate.old certificate.new }
    // promise: ok-by-check-by-stocks (HasCheckStocksReport: HasStockVerdictReport: IsRight)
    // promise: verdict-by-check-by-stocks (HasStockVerdictReport: IsStockCheckReport,
    //     IsFaultReport: fault_told, IsRefusal)
    ensures checked { Reports W.contents
        (HasCheckStocksReport table.new certificate.new form) output.old output.new result }
{
    let table = read_table(alloc, table)?;
    let verdict = check_stock_certificate(alloc, &table, certificate);
    output.report(stock_verdict_report(alloc, verdict, form))
}

/// Reads a type table and a certificate by stocks, checks the certificate against the table, and
/// writes why its number is what it is ([`explain_stocks_report`]).
///
/// # Errors
///
/// The first of these: those of [`read_table`]; those of [`read_right_stock_certificate`]; the writer
/// fails. Want of memory can stand in place of any answer.
pub fn explain_stocks<R: Read, C: Read, W: Write>(
    alloc: Global,
    table: &mut Text<R>,
    certificate: &mut Text<C>,
    output: &mut Output<W>,
    all: bool,
) -> Result<Outcome, AppFault>
    requires texts { IsUnread table.old × IsUnread certificate.old }
    requires output { IsWritable output.old }

    // promise: order-of-checks (HaveReadBoth: order)
    ensures read { HaveReadBoth R.remaining C.remaining table.old table.new
        certificate.old certificate.new }
    // promise: explanation-by-explain-by-stocks (HasExplainStocksReport: GivesRightStocks,
    //     IsExplainStocksReport)
    ensures explained { Reports W.contents
        (HasExplainStocksReport table.new certificate.new all) output.old output.new result }
{
    let table = read_table(alloc, table)?;
    let certificate = read_right_stock_certificate(alloc, &table, certificate)?;
    output.report(explain_stocks_report(alloc, &table, &certificate, all))
}

/// Reads a type table, and writes by a certificate by stocks why its consensus number is what it is,
/// up to the limit if one was given ([`why_stocks_report`]).
///
/// # Errors
///
/// The first of these: those of [`read_table`]; those of [`why_stocks_report`]; the writer fails.
pub fn why_stocks<T: Threads + Sync, R: Read, W: Write>(
    rt: &T,
    alloc: Global,
    table: &mut Text<R>,
    output: &mut Output<W>,
    limit: Option<u8>,
    all: bool,
) -> Result<Outcome, AppFault>
    requires table { IsUnread table.old }
    requires output { IsWritable output.old }

    ensures read { HasRead Source.Table R.remaining table.old table.new }
    // promise: why-by-stocks (HasWhyStocksReport: IsWhyStocksReport, IsToldByStocks)
    ensures told { Reports W.contents (HasWhyStocksReport table.new limit all)
        output.old output.new result }
{
    let table = read_table(alloc, table)?;
    output.report(why_stocks_report(rt, alloc, &table, limit, all))
}
