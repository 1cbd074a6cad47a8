//! The report of `check --shortest`.
ghost use Rattle.std.specs.Prelude.{◌≡◌, IfOk, string_bytes};
ghost use Rattle.cn_app.specs.Commands.CheckShortest.{IsOkPlanReport, IsPlanVerdictReport, ok_plan_text};

use crate::reports::check::fault_report;
use cn_form::AnswerForm;
use cn_io::{AppFault, Report, with_line_feed};
use cn_json::accepted_plan_json;
use cn_tree_plans::TreePlan;
use cn_tree_text::head_line;
use std::alloc::{AllocError, Global};

/// What is written where the certificate of this plan is right.
fn ok_plan_text(alloc: Global, plan: &TreePlan, form: AnswerForm) -> Result<String, AllocError>
    ensures { IfOk result (λ text. string_bytes text ≡ ok_plan_text form plan.now) }
{
    match form {
        AnswerForm::Text => {
            let head = head_line(alloc, plan)?;
            format!(in alloc; "ok\n{head}")
        }
        AnswerForm::Json => with_line_feed(accepted_plan_json(alloc, plan)?),
    }
}

/// The report on a certificate of this plan that is right.
fn ok_plan_report(alloc: Global, plan: &TreePlan, form: AnswerForm) -> Result<Report, AppFault>
    ensures { IsOkPlanReport form plan.now result }
{
    Ok(Report::whole(ok_plan_text(alloc, plan, form)?))
}

/// What is written of a certificate of a plan tree by the verdict on it.
pub(crate) fn plan_verdict_report(
    alloc: Global,
    verdict: Result<TreePlan, AppFault>,
    form: AnswerForm,
) -> Result<Report, AppFault>
    ensures { IsPlanVerdictReport form verdict result }
{
    match verdict {
        Ok(plan) => ok_plan_report(alloc, &plan, form),
        Err(fault) => fault_report(alloc, fault, form),
    }
}
