//! A queue of two letters with a look at its oldest item, for two processes: each enqueues its
//! letter, and looks.
use crate::four::pair;
use cn_meetings::Sight;
use cn_table::{Operation, State, read_table};
use cn_tree_plans::{Meeting, TreePlan, are_meetings};
use cn_tree_rounds::run_steps;
use cn_tree_text::{plan_lines, step_lines};
use std::alloc::Global;
use std::process::Abort;
use std::test::Fail;

fn peek_queue() -> &'static str {
    r#"name = "peek_queue"
states = ["q", "qa", "qb", "qaa", "qab", "qba", "qbb"]
responses = ["ok", "full", "empty", "a", "b"]
[[operation]]
name = "enq_a"
response = ["ok", "ok", "ok", "full", "full", "full", "full"]
next = ["qa", "qaa", "qba", "qaa", "qab", "qba", "qbb"]
[[operation]]
name = "enq_b"
response = ["ok", "ok", "ok", "full", "full", "full", "full"]
next = ["qb", "qab", "qbb", "qaa", "qab", "qba", "qbb"]
[[operation]]
name = "peek"
response = ["empty", "a", "b", "a", "a", "b", "b"]
next = ["q", "qa", "qb", "qaa", "qab", "qba", "qbb"]
"#
}

/// The text of the tree.
fn lines() -> &'static str {
    r#"type peek_queue processes 2 objects 1 steps 4
node 0 start q by response and look peek teams 0 1
node 0 process 0 enq_a judges ok/a:0 ok/b:1
node 0 process 1 enq_b judges ok/a:0 ok/b:1
process 0 steps 4: node 0 team 0
process 1 steps 4: node 0 team 1
"#
}

/// The text of the schedule.
fn steps() -> &'static str {
    r#"0: writes 10 to team 0 of node 0
1: writes 11 to team 1 of node 0
1: applies enq_b at node 0: ok
0: applies enq_a at node 0: ok
0: looks by peek at node 0: b, team 1
0: decides 11
1: looks by peek at node 0: b, team 1
1: decides 11
1: has decided
"#
}

/// One queue, empty at first.
fn two_of_a_peek_queue(rt: &impl Abort, alloc: Global) -> Result<TreePlan, Fail> {
    let table = read_table(alloc, peek_queue().as_bytes())?;
    let operations = Vec::from_slice(alloc, &[Operation(0), Operation(1)])?;
    let mut meetings = Vec::new(alloc);
    meetings.push(Meeting {
        start: State(0),
        sight: Sight::Response(Operation(2)),
        operations,
    })?;
    let teams = pair(alloc)?;
    assert!(rt; are_meetings(&table, &teams, &meetings));
    Ok(TreePlan::new(alloc, &table, teams, meetings)?)
}

#[test]
fn text_of_a_look(rt: HostRuntime) -> Result<(), Fail> {
    let plan = two_of_a_peek_queue(&rt, rt.alloc())?;
    let text = plan_lines(rt.alloc(), &plan)?;
    assert_eq!(rt; text.as_str(), lines());
    Ok(())
}

/// Process 1 enqueues first, and process 0 looks first.
#[test]
fn both_look(rt: HostRuntime) -> Result<(), Fail> {
    let plan = two_of_a_peek_queue(&rt, rt.alloc())?;
    let schedule = [0, 1, 1, 0, 0, 0, 1, 1, 1];
    let course = run_steps(rt.alloc(), &plan, &[10, 11], &schedule)?;
    assert_eq!(rt;
        course.decisions.as_slice(),
        [Some(11), Some(11)].as_slice()
    );
    let text = step_lines(rt.alloc(), plan.table(), &course.records)?;
    assert_eq!(rt; text.as_str(), steps());
    Ok(())
}
