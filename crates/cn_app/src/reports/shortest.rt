//! The shortest plan of a table, for as many processes as asked for.
ghost use Rattle.std.specs.Prelude.{◌≡◌, None, Some};
ghost use Rattle.cn_io.specs.Arguments.Lives.{CanBe};
ghost use Rattle.cn_app.specs.Commands.Shortest.{FindsShortestPlan, GivesShortestPlan, looks_of};

use cn_io::{AppFault, check_processes};
use cn_search::GREATEST_LIMIT;
use cn_shortest::{Looks, greatest_plan, shortest_plan};
use cn_table::Table;
use cn_tree_plans::TreePlan;
use std::alloc::Global;

/// Which shortest plan is asked for.
#[derive(Clone, Copy)]
pub struct AskedPlan {
    /// How many processes there are, if a number was given.
    pub processes: Option<u8>,
    /// Whether no process reads.
    pub without_read: bool,
}

/// How the processes of the plan may look.
fn looks_of(without_read: bool) -> Looks
    ensures { result ≡ looks_of without_read }
{
    if without_read {
        Looks::AtResponses
    } else {
        Looks::AtStates
    }
}

/// The shortest plan for so many processes.
fn plan_of(alloc: Global, table: &Table, looks: Looks, processes: u8) -> Result<TreePlan, AppFault>
    requires { CanBe processes }
    ensures { FindsShortestPlan table.now looks (Some processes) result }
{
    match shortest_plan(alloc, table, looks, processes)? {
        Some(plan) => Ok(plan),
        None => Err(AppFault::NoPlanTree),
    }
}

/// The shortest plan for the most processes for which there is a plan tree.
fn plan_for_most(alloc: Global, table: &Table, looks: Looks) -> Result<TreePlan, AppFault>
    ensures { FindsShortestPlan table.now looks None result }
{
    let found = greatest_plan(alloc, table, looks, GREATEST_LIMIT)?;
    match found {
        Some(plan) => Ok(plan),
        None => Err(AppFault::NoPlanTree),
    }
}

/// The shortest plan for as many processes as asked for, or for the most for which there is one.
pub(crate) fn plan_for(alloc: Global, table: &Table, asked: AskedPlan) -> Result<TreePlan, AppFault>
    ensures { GivesShortestPlan table.now asked result }
{
    check_processes(asked.processes)?;
    let looks = looks_of(asked.without_read);
    match asked.processes {
        Some(processes) => plan_of(alloc, table, looks, processes),
        None => plan_for_most(alloc, table, looks),
    }
}
