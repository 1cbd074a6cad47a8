//! Three sticky bits for four processes: two meet at each of two bits, and then all at the third.
ghost use Rattle.std.specs.Prelude.{◌≡◌, IfOk, map};
ghost use Rattle.cn_trees.specs.Tree.Teams.{Alone, Last, Meet};
ghost use Rattle.cn_tree_plans.specs.Teams.{teams_of};

use cn_meetings::Sight;
use cn_table::{Operation, State, read_table};
use cn_tree_plans::{Meeting, Teams, TreePlan};
use cn_tree_rounds::{run_schedule, run_steps};
use cn_tree_text::plan_lines;
use std::alloc::Global;
use std::process::Abort;
use std::test::Fail;

fn sticky_bit() -> &'static str {
    r#"name = "sticky_bit"
states = ["unset", "zero", "one"]
responses = ["zero", "one"]
[[operation]]
name = "put0"
response = ["zero", "zero", "one"]
next = ["zero", "zero", "one"]
[[operation]]
name = "put1"
response = ["one", "zero", "one"]
next = ["one", "zero", "one"]
"#
}

/// The text of the tree.
fn lines() -> &'static str {
    r#"type sticky_bit processes 4 objects 3 steps 6
node 0 start unset by response teams 0-1 2-3
node 0 process 0 put0 judges zero:0 one:1
node 0 process 1 put0 judges zero:0 one:1
node 0 process 2 put1 judges zero:0 one:1
node 0 process 3 put1 judges zero:0 one:1
node 1 start unset by response teams 0 1
node 1 process 0 put0 judges zero:0 one:1
node 1 process 1 put1 judges zero:0 one:1
node 2 start unset by response teams 2 3
node 2 process 2 put0 judges zero:0 one:1
node 2 process 3 put1 judges zero:0 one:1
process 0 steps 6: node 1 team 0, node 0 team 0
process 1 steps 6: node 1 team 1, node 0 team 0
process 2 steps 6: node 2 team 0, node 0 team 1
process 3 steps 6: node 2 team 1, node 0 team 1
"#
}

/// Two processes that meet.
pub(crate) fn pair(alloc: Global) -> Result<Teams, Fail>
    ensures { IfOk result (λ teams. teams_of teams ≡ Alone (Alone Last)) }
{
    let last = Box::new(alloc, Teams::Last)?;
    let second = Box::new(alloc, Teams::Alone(last))?;
    Ok(Teams::Alone(second))
}

/// Two pairs that meet.
fn two_pairs(alloc: Global) -> Result<Teams, Fail>
    ensures { IfOk result (λ teams. teams_of teams
        ≡ Meet (Alone (Alone Last)) (Meet (Alone (Alone Last)) Last)) }
{
    let last = Box::new(alloc, Teams::Last)?;
    let second = Box::new(alloc, pair(alloc)?)?;
    let rest = Box::new(alloc, Teams::Meet(second, last))?;
    let first = Box::new(alloc, pair(alloc)?)?;
    Ok(Teams::Meet(first, rest))
}

/// A meeting at which nobody looks.
fn meeting_of(alloc: Global, operations: &[Operation]) -> Result<Meeting, Fail>
    ensures { IfOk result (λ m. m
        ≡ record { start = 0; sight = Sight.Nothing; operations = map (λ o. o.0) operations.now }) }
{
    let operations = Vec::from_slice(alloc, operations)?;
    Ok(Meeting {
        start: State(0),
        sight: Sight::Nothing,
        operations,
    })
}

/// A bit for each pair, and one for all: team g puts g.
fn four_of_a_sticky_bit(rt: &impl Abort, alloc: Global) -> Result<TreePlan, Fail> {
    let table = read_table(alloc, sticky_bit().as_bytes())?;
    let _states = table.states();
    assert!(rt; table.operations() >= 2);
    let [zero, one] = [Operation(0), Operation(1)];
    let mut meetings = Vec::new(alloc);
    meetings.push(meeting_of(alloc, &[zero, zero, one, one])?)?;
    meetings.push(meeting_of(alloc, &[zero, one])?)?;
    meetings.push(meeting_of(alloc, &[zero, one])?)?;
    let teams = two_pairs(alloc)?;
    Ok(TreePlan::new(alloc, &table, teams, meetings)?)
}

#[test]
fn text_by_hand(rt: HostRuntime) -> Result<(), Fail> {
    let plan = four_of_a_sticky_bit(&rt, rt.alloc())?;
    let text = plan_lines(rt.alloc(), &plan)?;
    assert_eq!(rt; text.as_str(), lines());
    Ok(())
}

/// Process 0 writes its value, process 3 takes all its steps, process 0 the rest of its own, and
/// process 1 all but one.
#[test]
fn last_goes_first(rt: HostRuntime) -> Result<(), Fail> {
    let plan = four_of_a_sticky_bit(&rt, rt.alloc())?;
    let schedule = [0, 3, 3, 3, 3, 3, 3, 0, 0, 0, 0, 0, 1, 1, 1, 1, 1];
    let ends = run_schedule(rt.alloc(), &plan, &[10, 11, 12, 13], &schedule)?;
    assert_eq!(rt;
        ends.decisions.as_slice(),
        [Some(13), None, None, Some(13)].as_slice()
    );
    let course = run_steps(rt.alloc(), &plan, &[10, 11, 12, 13], &schedule)?;
    assert_eq!(rt; course.decisions.as_slice(), ends.decisions.as_slice());
    assert_eq!(rt; course.records.len(), schedule.len());
    Ok(())
}
