//! The report of `check --without-read`.
ghost use Rattle.cn_app.specs.Commands.CheckUnread.{IsOkUnreadReport, IsUnreadVerdictReport};

use crate::reports::check::{fault_report, ok_text};
use cn_form::AnswerForm;
use cn_io::{AppFault, Report};
use cn_unread_check::laws::accepted_bounds_hold;
use std::alloc::Global;

/// The report on every certificate that is right.
fn ok_unread_report(alloc: Global, form: AnswerForm) -> Result<Report, AppFault>
    ensures { IsOkUnreadReport form result }
{
    accepted_bounds_hold();
    Ok(Report::whole(ok_text(alloc, form)?))
}

/// What is written of a certificate of a number without reads by the verdict on it.
pub(crate) fn unread_verdict_report(
    alloc: Global,
    verdict: Result<(), AppFault>,
    form: AnswerForm,
) -> Result<Report, AppFault>
    ensures { IsUnreadVerdictReport form verdict result }
{
    match verdict {
        Ok(()) => ok_unread_report(alloc, form),
        Err(fault) => fault_report(alloc, fault, form),
    }
}
