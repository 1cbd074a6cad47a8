//! The report of `show`.
ghost use Rattle.std.specs.Prelude.{◌≡◌, IfOk, Some, option_copied, string_bytes};
ghost use Rattle.cn_app.specs.Commands.Show.{form_text, IsFormReport, IsShowReport};
ghost use Rattle.cn_io.specs.Texts.Checked.{IsChecked};

use crate::plan_style::PlanStyle;
use cn_code::{Served, as_c, as_header, as_rust};
use cn_io::readers::{Checked, ServedPlan};
use cn_io::{AppFault, Report, with_line_feed};
use cn_json::plan_json;
use cn_plan_text::{plan_dot, plan_promela};
use cn_proto::Plan;
use std::alloc::{AllocError, Global};

/// The text of a plan in a style; its last byte is a line feed. Each form writes the same plan:
/// [`Plan::show`], [`plan_json`], [`plan_dot`], [`plan_promela`], [`as_rust`], [`as_c`] or
/// [`as_header`]. Programs also have the object, if there is one.
///
/// # Errors
///
/// `AllocError` if memory runs out.
pub fn plan_as(
    alloc: Global,
    plan: &Plan,
    style: &PlanStyle,
    object: Option<&Served>,
) -> Result<String, AllocError>
    // promise: forms-of-a-plan (form_text: plan_text, plan_data, plan_dot, plan_promela, rust_text,
    //     c_text, header_text)
    ensures { IfOk result (λ text. string_bytes text
        ≡ form_text style.now (option_copied object.entry) plan.now) }
{
    match style {
        PlanStyle::Text => plan.show(alloc),
        PlanStyle::Json => with_line_feed(plan_json(alloc, plan)?),
        PlanStyle::Dot => plan_dot(alloc, plan),
        PlanStyle::Promela => plan_promela(alloc, plan),
        PlanStyle::Rust => as_rust(alloc, plan, object),
        PlanStyle::C => as_c(alloc, plan, object, None),
        PlanStyle::ExternalC(prefix) => as_c(alloc, plan, object, Some(prefix)),
        PlanStyle::Header(prefix) => as_header(alloc, plan, object, prefix),
    }
}

/// The plan of the certificate's witness in a style.
///
/// # Errors
///
/// Those of [`Checked::plan`]. Want of memory can stand in place of any answer.
pub fn show_report(alloc: Global, checked: &Checked, style: &PlanStyle) -> Result<Report, AppFault>
    requires { IsChecked checked.now }
    ensures { IsShowReport checked.now style.now result }
{
    let plan = checked.plan(alloc)?;
    Ok(Report::whole(plan_as(alloc, &plan, style, None)?))
}

/// A plan in a style, with the object that is served by it.
///
/// # Errors
///
/// `OutOfMemory`.
pub fn show_object_report(
    alloc: Global,
    served: &ServedPlan,
    style: &PlanStyle,
) -> Result<Report, AppFault>
    ensures { IsFormReport served.now.plan style.now (Some served.now.object) result }
{
    let object = Some(&served.object);
    Ok(Report::whole(plan_as(alloc, &served.plan, style, object)?))
}
