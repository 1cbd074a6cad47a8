//! The report of `check --stocks`.
ghost use Rattle.cn_app.specs.Commands.CheckStocks.{IsOkStockReport, IsStockVerdictReport};

use crate::reports::check::{fault_report, ok_text};
use cn_form::AnswerForm;
use cn_io::{AppFault, Report};
use cn_stock_cert::laws::right_bounds_hold;
use std::alloc::Global;

/// The report on every certificate that is right.
fn ok_stock_report(alloc: Global, form: AnswerForm) -> Result<Report, AppFault>
    ensures { IsOkStockReport form result }
{
    right_bounds_hold();
    Ok(Report::whole(ok_text(alloc, form)?))
}

/// What is written of a certificate by stocks by the verdict on it.
pub(crate) fn stock_verdict_report(
    alloc: Global,
    verdict: Result<(), AppFault>,
    form: AnswerForm,
) -> Result<Report, AppFault>
    ensures { IsStockVerdictReport form verdict result }
{
    match verdict {
        Ok(()) => ok_stock_report(alloc, form),
        Err(fault) => fault_report(alloc, fault, form),
    }
}
