//! The report of `show` on a shortest plan.
ghost use Rattle.std.specs.Prelude.{◌≡◌, IfOk, option_copied, string_bytes};
ghost use Rattle.cn_app.specs.Commands.ShowShortest.{IsShowShortestObjectReport, IsShowShortestReport, IsTreeReport, tree_text};

use crate::plan_style::PlanStyle;
use crate::reports::shortest::{AskedPlan, plan_for};
use cn_code::{Served, tree_as_c, tree_as_header, tree_as_rust};
use cn_io::readers::served_from;
use cn_io::{AppFault, Report, with_line_feed};
use cn_json::tree_plan_json;
use cn_table::Table;
use cn_tree_plans::TreePlan;
use cn_tree_text::{plan_dot, plan_lines, plan_promela};
use std::alloc::{AllocError, Global};

/// The text of a plan tree in a style; its last byte is a line feed. Each form writes the same plan:
/// [`plan_lines`], [`tree_plan_json`], [`plan_dot`], [`plan_promela`], [`tree_as_rust`],
/// [`tree_as_c`] or [`tree_as_header`]. Programs also have the object, if there is one.
///
/// # Errors
///
/// `AllocError` if memory runs out.
pub fn tree_as(
    alloc: Global,
    plan: &TreePlan,
    style: &PlanStyle,
    object: Option<&Served>,
) -> Result<String, AllocError>
    // promise: forms-of-a-plan-tree (tree_text: plan_text, tree_plan_data, plan_dot, plan_promela,
    //     tree_rust_text, tree_c_text, tree_header_text)
    ensures { IfOk result (λ text. string_bytes text
        ≡ tree_text style.now (option_copied object.entry) plan.now) }
{
    match style {
        PlanStyle::Text => plan_lines(alloc, plan),
        PlanStyle::Json => with_line_feed(tree_plan_json(alloc, plan)?),
        PlanStyle::Dot => plan_dot(alloc, plan),
        PlanStyle::Promela => plan_promela(alloc, plan),
        PlanStyle::Rust => tree_as_rust(alloc, plan, object),
        PlanStyle::C => tree_as_c(alloc, plan, object, None),
        PlanStyle::ExternalC(prefix) => tree_as_c(alloc, plan, object, Some(prefix)),
        PlanStyle::Header(prefix) => tree_as_header(alloc, plan, object, prefix),
    }
}

/// Writes a plan tree in a style.
fn tree_report(
    alloc: Global,
    plan: &TreePlan,
    style: &PlanStyle,
    object: Option<&Served>,
) -> Result<Report, AppFault>
    ensures { IsTreeReport plan.now style.now (option_copied object.entry) result }
{
    Ok(Report::whole(tree_as(alloc, plan, style, object)?))
}

/// The shortest plan of the table in a style, for as many processes as asked for, or for the most for
/// which there is a plan tree; of all such plans, or of those whose processes do not read.
///
/// # Errors
///
/// The first of these: `Argument(Processes)` for a number of processes outside 2 to
/// [`MOST_PROCESSES`](cn_choice::MOST_PROCESSES); `NoPlanTree` if there is no plan tree for this
/// number, or for none. Want of memory can stand in place of any answer but the first.
pub fn show_shortest_report(
    alloc: Global,
    table: &Table,
    asked: AskedPlan,
    style: &PlanStyle,
) -> Result<Report, AppFault>
    ensures { IsShowShortestReport table.now asked style.now result }
{
    let plan = plan_for(alloc, table, asked)?;
    tree_report(alloc, &plan, style, None)
}

/// The same with the object of this table, which starts in the state of this name.
///
/// # Errors
///
/// The first of these: those of [`show_shortest_report`]; `Argument(Start)` if the object has no
/// state of this name.
pub fn show_shortest_object_report(
    alloc: Global,
    table: &Table,
    object: Table,
    start: &str,
    asked: AskedPlan,
    style: &PlanStyle,
) -> Result<Report, AppFault>
    ensures { IsShowShortestObjectReport table.now object start.now asked style.now result }
{
    let tree = plan_for(alloc, table, asked)?;
    let served = served_from(object, start)?;
    tree_report(alloc, &tree, style, Some(&served))
}
