//! The report of `check`.
ghost use Rattle.std.specs.Prelude.{◌≡◌, ◌++◌, IfErr, IfOk, codes, string_bytes};
ghost use Rattle.serde_json.specs.Written.{compact_text};
ghost use Rattle.cn_json.specs.Verdict.{accepted_data, refused_data};
ghost use Rattle.cn_form.specs.declared.answer_form.AnswerForm.TheVariants.{Json};
ghost use Rattle.cn_app.specs.Commands.Check.{IsFaultReport, IsOkReport, IsVerdictReport};
ghost use Rattle.cn_app.specs.Commands.PlanFaults.{tree_fault_data};
ghost use Rattle.cn_app.specs.Forms.{if_json};
ghost use Rattle.cn_io.specs.declared.fault.AppFault.TheVariants.{OutOfMemory};
ghost use Rattle.cn_io.specs.declared.report.Outcome.TheVariants.{Refused};

use cn_check::laws::accepted_is_right;
use cn_form::AnswerForm;
use cn_io::{AppFault, Outcome, Report, with_line_feed};
use cn_json::{refusal_at_node_json, refusal_json, stock_refusal_json, unread_json, verdict_json};
use cn_tree_check::TreeCheckFault;
use std::alloc::{AllocError, Global};

/// What is written of an accepted certificate.
pub(crate) fn ok_text(alloc: Global, form: AnswerForm) -> Result<String, AllocError>
    ensures { IfOk result (λ text. string_bytes text
        ≡ if_json form (compact_text accepted_data ++ codes "\n") (codes "ok\n")) }
{
    match form {
        AnswerForm::Text => String::from_str(alloc, "ok\n"),
        AnswerForm::Json => with_line_feed(verdict_json(alloc, Ok(()))?),
    }
}

/// The report on every accepted certificate.
fn ok_report(alloc: Global, form: AnswerForm) -> Result<Report, AppFault>
    ensures { IsOkReport form result }
{
    accepted_is_right();
    Ok(Report::whole(ok_text(alloc, form)?))
}

/// The report on a certificate that is refused for this fault.
fn refusal(json: String, fault: AppFault) -> Result<Report, AppFault>
    ensures report { IfOk result (λ report.
        string_bytes report.text ≡ string_bytes json ++ codes "\n") }
    ensures outcome { IfOk result (λ report. report.outcome ≡ Refused fault) }
    ensures memory { IfErr result (λ e. e ≡ OutOfMemory) }
{
    Ok(Report {
        text: with_line_feed(json)?,
        outcome: Outcome::Refused(fault),
    })
}

/// The verdict on a certificate of a plan tree that is refused for this fault.
fn plan_refusal(alloc: Global, fault: TreeCheckFault) -> Result<String, AllocError>
    ensures { IfOk result (λ text. string_bytes text
        ≡ compact_text (refused_data (tree_fault_data fault))) }
{
    let (name, number) = (fault.name(), fault.number());
    match fault {
        TreeCheckFault::Meets { node, process } => {
            refusal_at_node_json(alloc, name, number, node, process)
        }
        _ => refusal_json(alloc, name, number),
    }
}

/// The fault as JSON, if it is one of the certificate.
fn told_fault(alloc: Global, fault: AppFault) -> Result<Report, AppFault>
    ensures { IsFaultReport Json fault result }
{
    match fault {
        AppFault::Certificate(unread) => refusal(unread_json(alloc, unread)?, fault),
        AppFault::Check(refused) => refusal(verdict_json(alloc, Err(refused))?, fault),
        AppFault::UnreadCertificate(unread) => {
            refusal(refusal_json(alloc, unread.name(), unread.number())?, fault)
        }
        AppFault::UnreadCheck(refused) => {
            refusal(
                refusal_json(alloc, refused.name(), refused.number())?,
                fault,
            )
        }
        AppFault::StockCertificate(unread) => {
            refusal(refusal_json(alloc, unread.name(), unread.number())?, fault)
        }
        AppFault::StockCheck(refused) => refusal(stock_refusal_json(alloc, refused)?, fault),
        AppFault::TreeCertificate(unread) => {
            refusal(refusal_json(alloc, unread.name(), unread.number())?, fault)
        }
        AppFault::TreeCheck(refused) => refusal(plan_refusal(alloc, refused)?, fault),
        _ => Err(fault),
    }
}

/// What is written of a certificate with this fault.
pub(crate) fn fault_report(
    alloc: Global,
    fault: AppFault,
    form: AnswerForm,
) -> Result<Report, AppFault>
    ensures { IsFaultReport form fault result }
{
    match form {
        AnswerForm::Text => Err(fault),
        AnswerForm::Json => told_fault(alloc, fault),
    }
}

/// What is written of a certificate by the verdict on it.
pub(crate) fn verdict_report(
    alloc: Global,
    verdict: Result<(), AppFault>,
    form: AnswerForm,
) -> Result<Report, AppFault>
    ensures { IsVerdictReport form verdict result }
{
    match verdict {
        Ok(()) => ok_report(alloc, form),
        Err(fault) => fault_report(alloc, fault, form),
    }
}
