//! The report of `explain --stocks`.
ghost use Rattle.std.specs.Prelude.{◌≡◌, IfOk, string_bytes};
ghost use Rattle.cn_stock_cert.specs.Right.{IsRight};
ghost use Rattle.cn_stock_text.specs.Explanation.{stock_explanation};
ghost use Rattle.cn_app.specs.Commands.ExplainStocks.{IsExplainStocksReport};

use cn_io::{AppFault, Report};
use cn_stock_cert::StockCertificate;
use cn_stock_cert::laws::right_bounds_hold;
use cn_stock_text::push_stock_explanation;
use cn_table::Table;
use std::alloc::{AllocError, Global};

/// The text of an explanation.
fn explanation_of(
    alloc: Global,
    table: &Table,
    certificate: &StockCertificate,
    all: bool,
) -> Result<String, AllocError>
    requires { IsRight table.now certificate.now }
    ensures { IfOk result (λ text. string_bytes text
        ≡ stock_explanation table.now certificate.now all) }
{
    let mut text = String::new(alloc);
    push_stock_explanation(alloc, &mut text, table, certificate, all)?;
    Ok(text)
}

/// Why the number of a certificate by stocks is what it is: the text of [`push_stock_explanation`].
/// Without `all`, it tells the first 12 of the joins.
///
/// # Errors
///
/// `OutOfMemory`.
pub fn explain_stocks_report(
    alloc: Global,
    table: &Table,
    certificate: &StockCertificate,
    all: bool,
) -> Result<Report, AppFault>
    requires { IsRight table.now certificate.now }
    ensures { IsExplainStocksReport table.now certificate.now all result }
{
    right_bounds_hold();
    let text = explanation_of(alloc, table, certificate, all)?;
    Ok(Report::whole(text))
}
