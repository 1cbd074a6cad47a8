//! Plans of worked types, and each public call once.
ghost use Rattle.std.specs.Prelude.{◌≤◌, ◌<◌, ◌+◌, length};
ghost use Rattle.cn_choice.specs.declared.limits.TheConstants.{MOST_PROCESSES};
ghost use Rattle.cn_proto.specs.Plan.{processes_of};

use crate::fixtures::{choice_of, plan_of, table_of};
use crate::types::*;
use cn_choice::Team;
use cn_proto::{Place, Plan, PlanFault};
use cn_table::{Operation, Response, State};
use std::alloc::Global;
use std::process::Abort;
use std::test::Fail;

/// The fault of a choice of test-and-set with these lists.
fn fault_of(
    rt: &impl Abort,
    alloc: Global,
    state: u8,
    a: &[u8],
    b: &[u8],
) -> Result<Option<PlanFault>, Fail>
    requires some { 2 ≤ length a.now + length b.now }
    requires few { length a.now + length b.now ≤ MOST_PROCESSES }
{
    let table = table_of(alloc, test_and_set())?;
    let choice = choice_of(rt, &table, state, a, b);
    Ok(Plan::from_witness(alloc, &table, &choice).err())
}

#[test]
fn names_the_least_process_whose_sets_meet(rt: HostRuntime) -> Result<(), Fail> {
    let alloc = rt.alloc();
    assert!(rt; fault_of(&rt, alloc, 0, &[0], &[0])?.is_none());
    assert!(rt; fault_of(&rt, alloc, 1, &[0], &[0])? == Some(PlanFault::Meets(0)));
    assert!(rt; fault_of(&rt, alloc, 0, &[0], &[0, 0])? == Some(PlanFault::Meets(1)));
    Ok(())
}

/// Whether the role judges by the response and the state. It judges a response that no table has to
/// team B.
fn judges(plan: &Plan, role: u8) -> bool
    requires { role < processes_of plan.now }
{
    plan.judge(role, Response(0), State(1)) == Team::A
        && plan.judge(role, Response(1), State(2)) == Team::B
        && plan.judge(role, Response(0), State(2)) == Team::B
        && plan.judge(role, Response(16), State(1)) == Team::B
}

/// Whether the path of process 2 goes over the lower node to the root.
fn is_last_path(path: &[Place]) -> bool {
    match path {
        [lower, root] => {
            (lower.node, lower.team, lower.role) == (1, Team::B, 1)
                && (root.node, root.team, root.role) == (0, Team::B, 2)
        }
        _ => false,
    }
}

#[test]
fn answers_for_a_plan(rt: HostRuntime) -> Result<(), Fail> {
    let plan = plan_of(&rt, rt.alloc(), sticky_bit(), &[0], &[1, 1])?;
    assert!(rt; plan.processes() == 3 && plan.table().states() == 3);
    assert!(rt; plan.nodes() == 2 && plan.start() == State(0));
    assert!(rt; plan.operation(1) == Operation(1) && is_last_path(plan.path(2)));
    assert!(rt; plan.act(1, State(0)) == (Response(1), State(2)));
    assert!(rt; judges(&plan, 0) && judges(&plan, 2));
    Ok(())
}
