//! The report of `find --shortest`.
ghost use Rattle.cn_app.specs.Commands.FindShortest.{IsFindShortestReport, IsPlanFoundReport};

use crate::reports::shortest::{AskedPlan, plan_for};
use cn_io::{AppFault, Report, with_line_feed};
use cn_table::Table;
use cn_table::laws::tables_are_valid;
use cn_tree_cert::write_tree_certificate;
use cn_tree_check::laws::right_certificates_are_read_back;
use cn_tree_check::tree_certificate;
use cn_tree_plans::TreePlan;
use std::alloc::Global;

/// A certificate of the plan, and a line feed.
fn plan_report(alloc: Global, plan: &TreePlan) -> Result<Report, AppFault>
    ensures { IsPlanFoundReport plan.now.table plan.now result }
{
    tables_are_valid(plan.table());
    right_certificates_are_read_back();
    let certificate = tree_certificate(alloc, plan)?;
    let text = write_tree_certificate(alloc, &certificate)?;
    Ok(Report::whole(with_line_feed(text)?))
}

/// A certificate of the shortest plan of the table, and a line feed; for as many processes as asked
/// for, or for the most for which there is a plan tree.
///
/// # Errors
///
/// The first of these: `Argument(Processes)` for a number of processes outside 2 to
/// [`MOST_PROCESSES`](cn_choice::MOST_PROCESSES); `NoPlanTree` if there is no plan tree for this
/// number, or for none. Want of memory can stand in place of any answer but the first.
pub fn find_shortest_report(
    alloc: Global,
    table: &Table,
    processes: Option<u8>,
) -> Result<Report, AppFault>
    // promise: certificate-by-find-shortest (IsFindShortestReport)
    ensures { IsFindShortestReport table.now processes result }
{
    let asked = AskedPlan {
        processes,
        without_read: false,
    };
    let plan = plan_for(alloc, table, asked)?;
    plan_report(alloc, &plan)
}
