//! Certificates by stocks.
ghost use Rattle.cn_io.specs.Streams.Reading.{HasRead, IsUnread};
ghost use Rattle.cn_io.specs.Texts.Stocks.{EndsStockCheck, GivesRightStocks, GivesStockCertificate};

use crate::fault::{AppFault, Source};
use crate::streams::text::Text;
use cn_stock_cert::StockCertificate;
use cn_stock_check::check_stocks;
use cn_table::Table;
use std::alloc::Global;
use std::io::Read;

/// Reads a certificate by stocks: at most
/// [`MOST_CERTIFICATE_BYTES`](crate::MOST_CERTIFICATE_BYTES). It is not checked.
///
/// # Errors
///
/// The first of these: the reader fails, or gives more; the text is refused. Want of memory can
/// stand in place of any answer.
pub fn read_stock_certificate<C: Read>(
    alloc: Global,
    text: &mut Text<C>,
) -> Result<StockCertificate, AppFault>
    requires { IsUnread text.old }
    // promise: parts-of-commands
    ensures read { HasRead Source.Certificate C.remaining text.old text.new }
    // promise: parts-of-commands
    ensures certificate { GivesStockCertificate text.new result }
{
    text.fill(Source::Certificate)?;
    Ok(cn_stock_cert::read_stock_certificate(alloc, &text.bytes)?)
}

/// Reads a certificate by stocks ([`read_stock_certificate`]) that has to be right for the table: it
/// is checked ([`check_stocks`]).
///
/// # Errors
///
/// The first of these: those of [`read_stock_certificate`]; `StockCheck` with the first fault of the
/// certificate for this table. Want of memory can stand in place of any answer.
pub fn read_right_stock_certificate<C: Read>(
    alloc: Global,
    table: &Table,
    text: &mut Text<C>,
) -> Result<StockCertificate, AppFault>
    requires { IsUnread text.old }
    // promise: parts-of-commands
    ensures read { HasRead Source.Certificate C.remaining text.old text.new }
    // promise: explanation-by-explain-by-stocks (GivesRightStocks)
    ensures right { GivesRightStocks table.now text.new result }
{
    let certificate = read_stock_certificate(alloc, text)?;
    check_stocks(alloc, table, &certificate)?;
    Ok(certificate)
}

/// Reads a certificate by stocks, and checks it against the table
/// ([`read_right_stock_certificate`]).
///
/// # Errors
///
/// Those of [`read_right_stock_certificate`].
pub fn check_stock_certificate<C: Read>(
    alloc: Global,
    table: &Table,
    text: &mut Text<C>,
) -> Result<(), AppFault>
    requires { IsUnread text.old }
    ensures read { HasRead Source.Certificate C.remaining text.old text.new }
    // promise: ok-by-check-by-stocks (EndsStockCheck)
    ensures checked { EndsStockCheck table.now text.new result }
{
    read_right_stock_certificate(alloc, table, text)?;
    Ok(())
}
