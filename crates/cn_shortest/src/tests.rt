//! Costs and plans of worked types.
ghost use Rattle.std.specs.Prelude.{◌≤◌};

use crate::{Looks, greatest_cost, greatest_plan, least_cost, shortest_plan};
use cn_meetings::Sight;
use cn_table::{Operation, read_table};
use cn_tree_plans::Cost;
use std::alloc::Global;
use std::process::Abort;
use std::test::Fail;

fn sticky_bit() -> &'static str {
    r#"name = "sticky_bit"
states = ["unset", "zero", "one"]
responses = ["zero", "one"]
[[operation]]
name = "put0"
response = ["zero", "zero", "one"]
next = ["zero", "zero", "one"]
[[operation]]
name = "put1"
response = ["one", "zero", "one"]
next = ["one", "zero", "one"]
"#
}

fn test_and_set() -> &'static str {
    r#"name = "test_and_set"
states = ["zero", "one"]
responses = ["zero", "one"]
[[operation]]
name = "tas"
response = ["zero", "one"]
next = ["one", "one"]
"#
}

fn compare_and_swap() -> &'static str {
    r#"name = "cas_9"
states = ["0", "1", "2", "3", "4", "5", "6", "7", "8"]
responses = ["0", "1", "2", "3", "4", "5", "6", "7", "8"]
[[operation]]
name = "cas01"
response = ["0", "1", "2", "3", "4", "5", "6", "7", "8"]
next = ["1", "1", "2", "3", "4", "5", "6", "7", "8"]
[[operation]]
name = "cas02"
response = ["0", "1", "2", "3", "4", "5", "6", "7", "8"]
next = ["2", "1", "2", "3", "4", "5", "6", "7", "8"]
[[operation]]
name = "cas03"
response = ["0", "1", "2", "3", "4", "5", "6", "7", "8"]
next = ["3", "1", "2", "3", "4", "5", "6", "7", "8"]
[[operation]]
name = "cas04"
response = ["0", "1", "2", "3", "4", "5", "6", "7", "8"]
next = ["4", "1", "2", "3", "4", "5", "6", "7", "8"]
[[operation]]
name = "cas05"
response = ["0", "1", "2", "3", "4", "5", "6", "7", "8"]
next = ["5", "1", "2", "3", "4", "5", "6", "7", "8"]
[[operation]]
name = "cas06"
response = ["0", "1", "2", "3", "4", "5", "6", "7", "8"]
next = ["6", "1", "2", "3", "4", "5", "6", "7", "8"]
[[operation]]
name = "cas07"
response = ["0", "1", "2", "3", "4", "5", "6", "7", "8"]
next = ["7", "1", "2", "3", "4", "5", "6", "7", "8"]
[[operation]]
name = "cas08"
response = ["0", "1", "2", "3", "4", "5", "6", "7", "8"]
next = ["8", "1", "2", "3", "4", "5", "6", "7", "8"]
"#
}

/// A queue with room for two of two letters.
fn queue() -> &'static str {
    r#"name = "queue"
states = ["empty", "a", "b", "aa", "ab", "ba", "bb"]
responses = ["ok", "none", "a", "b"]
[[operation]]
name = "put_a"
response = ["ok", "ok", "ok", "ok", "ok", "ok", "ok"]
next = ["a", "aa", "ba", "aa", "ab", "ba", "bb"]
[[operation]]
name = "put_b"
response = ["ok", "ok", "ok", "ok", "ok", "ok", "ok"]
next = ["b", "ab", "bb", "aa", "ab", "ba", "bb"]
[[operation]]
name = "take"
response = ["none", "a", "b", "a", "a", "b", "b"]
next = ["empty", "empty", "empty", "a", "b", "a", "b"]
"#
}

/// A sticky bit that does not tell who was first, and an operation that does.
fn mute_sticky_bit() -> &'static str {
    r#"name = "mute_sticky_bit"
states = ["unset", "zero", "one"]
responses = ["ok", "none", "zero", "one"]
[[operation]]
name = "put0"
response = ["ok", "ok", "ok"]
next = ["zero", "zero", "one"]
[[operation]]
name = "put1"
response = ["ok", "ok", "ok"]
next = ["one", "zero", "one"]
[[operation]]
name = "get"
response = ["none", "zero", "one"]
next = ["unset", "zero", "one"]
"#
}

/// A queue of two letters with room for two and a look at its oldest item.
fn peek_queue() -> &'static str {
    r#"name = "peek_queue_2"
states = ["q", "qa", "qb", "qaa", "qab", "qba", "qbb"]
responses = ["ok", "full", "empty", "a", "b"]
[[operation]]
name = "enq_a"
response = ["ok", "ok", "ok", "full", "full", "full", "full"]
next = ["qa", "qaa", "qba", "qaa", "qab", "qba", "qbb"]
[[operation]]
name = "enq_b"
response = ["ok", "ok", "ok", "full", "full", "full", "full"]
next = ["qb", "qab", "qbb", "qaa", "qab", "qba", "qbb"]
[[operation]]
name = "deq"
response = ["empty", "a", "b", "a", "a", "b", "b"]
next = ["q", "q", "q", "qa", "qb", "qa", "qb"]
[[operation]]
name = "peek"
response = ["empty", "a", "b", "a", "a", "b", "b"]
next = ["q", "qa", "qb", "qaa", "qab", "qba", "qbb"]
"#
}

fn register() -> &'static str {
    r#"name = "register"
states = ["0", "1"]
responses = ["ok", "0", "1"]
[[operation]]
name = "write0"
response = ["ok", "ok"]
next = ["0", "0"]
[[operation]]
name = "write1"
response = ["ok", "ok"]
next = ["1", "1"]
[[operation]]
name = "read"
response = ["0", "1"]
next = ["0", "1"]
"#
}

/// The least costs of n processes that read, that look by silent operations, and that do not look,
/// each as steps, objects and sum.
fn costs(alloc: Global, table: &str, n: u8) -> Result<String, Fail>
    requires some { 2 ≤ n }
    requires few { n ≤ 8 }
{
    let table = read_table(alloc, table.as_bytes())?;
    let mut text = String::new(alloc);
    for looks in [Looks::AtStates, Looks::AtResponses, Looks::AtNothing] {
        match least_cost(alloc, &table, looks, n)? {
            Some(Cost { steps, nodes, sum }) => {
                let cost = format!(in alloc; "{steps} {nodes} {sum}; ")?;
                text.push_str(cost.as_str())?;
            }
            None => text.push_str("none; ")?,
        }
    }
    Ok(text)
}

#[test]
fn costs_by_each_way_to_look(rt: HostRuntime) -> Result<(), Fail> {
    let sticky = costs(rt.alloc(), sticky_bit(), 4)?;
    assert!(rt; sticky.as_str() == "6 3 24; 6 3 24; 6 3 24; ");
    let mute = costs(rt.alloc(), mute_sticky_bit(), 3)?;
    assert!(rt; mute.as_str() == "8 2 20; 8 2 20; none; ");
    let two = costs(rt.alloc(), queue(), 2)?;
    assert!(rt; two.as_str() == "3 1 6; 3 1 6; 3 1 6; ");
    let three = costs(rt.alloc(), queue(), 3)?;
    assert!(rt; three.as_str() == "7 2 18; none; none; ");
    let register = costs(rt.alloc(), register(), 2)?;
    assert!(rt; register.as_str() == "none; none; none; ");
    Ok(())
}

#[test]
fn plan_where_nobody_looks(rt: HostRuntime) -> Result<(), Fail> {
    let table = read_table(rt.alloc(), queue().as_bytes())?;
    let Some(plan) = shortest_plan(rt.alloc(), &table, Looks::AtNothing, 2)? else {
        panic!(rt; "no plan")
    };
    assert!(rt; plan.cost().steps == 3 && !plan.looks(0));
    let none = shortest_plan(rt.alloc(), &table, Looks::AtNothing, 3)?;
    assert!(rt; none.is_none());
    Ok(())
}

#[test]
fn most_processes_by_each_way_to_look(rt: HostRuntime) -> Result<(), Fail> {
    let table = read_table(rt.alloc(), peek_queue().as_bytes())?;
    // Two teams at each of seven nodes: at the lowest ones nobody looks.
    let eight = Cost {
        steps: 11,
        nodes: 7,
        sum: 88,
    };
    let two = Cost {
        steps: 3,
        nodes: 1,
        sum: 6,
    };
    let states = greatest_cost(rt.alloc(), &table, Looks::AtStates, 8)?;
    assert!(rt; states == Some((8, eight)));
    let responses = greatest_cost(rt.alloc(), &table, Looks::AtResponses, 8)?;
    assert!(rt; responses == Some((8, eight)));
    let nothing = greatest_cost(rt.alloc(), &table, Looks::AtNothing, 8)?;
    assert!(rt; nothing == Some((2, two)));
    let register = read_table(rt.alloc(), register().as_bytes())?;
    let none = greatest_cost(rt.alloc(), &register, Looks::AtStates, 8)?;
    assert!(rt; none.is_none());
    Ok(())
}

#[test]
fn plan_for_the_most_processes(rt: HostRuntime) -> Result<(), Fail> {
    let table = read_table(rt.alloc(), peek_queue().as_bytes())?;
    let Some(plan) = greatest_plan(rt.alloc(), &table, Looks::AtResponses, 8)? else {
        panic!(rt; "no plan")
    };
    assert!(rt; plan.processes() == 8 && plan.cost().steps == 11);
    let peek = Sight::Response(Operation(3));
    assert!(rt; plan.sight(0) == peek);
    let Some(plan) = greatest_plan(rt.alloc(), &table, Looks::AtNothing, 8)? else {
        panic!(rt; "no plan")
    };
    assert!(rt; plan.processes() == 2 && !plan.looks(0));
    Ok(())
}

#[test]
fn sticky_bit_for_eight(rt: HostRuntime) -> Result<(), Fail> {
    let table = read_table(rt.alloc(), sticky_bit().as_bytes())?;
    let cost = least_cost(rt.alloc(), &table, Looks::AtStates, 8)?;
    assert!(rt;
        cost == Some(Cost {
            steps: 9,
            nodes: 7,
            sum: 72
        })
    );
    Ok(())
}

#[test]
fn test_and_set_for_two_and_three(rt: HostRuntime) -> Result<(), Fail> {
    let table = read_table(rt.alloc(), test_and_set().as_bytes())?;
    let two = least_cost(rt.alloc(), &table, Looks::AtStates, 2)?;
    assert!(rt;
        two == Some(Cost {
            steps: 3,
            nodes: 1,
            sum: 6
        })
    );
    let three = least_cost(rt.alloc(), &table, Looks::AtStates, 3)?;
    assert!(rt; three.is_none());
    Ok(())
}

#[test]
fn compare_and_swap_for_four(rt: HostRuntime) -> Result<(), Fail> {
    let table = read_table(rt.alloc(), compare_and_swap().as_bytes())?;
    let cost = least_cost(rt.alloc(), &table, Looks::AtStates, 4)?;
    assert!(rt;
        cost == Some(Cost {
            steps: 3,
            nodes: 1,
            sum: 12
        })
    );
    Ok(())
}

#[test]
fn three_sticky_bits_for_four(rt: HostRuntime) -> Result<(), Fail> {
    let table = read_table(rt.alloc(), sticky_bit().as_bytes())?;
    let Some(plan) = shortest_plan(rt.alloc(), &table, Looks::AtStates, 4)? else {
        panic!(rt; "no plan")
    };
    let cost = plan.cost();
    assert!(rt; cost.steps == 6 && cost.nodes == 3 && cost.sum == 24);
    assert!(rt; plan.nodes() == 3);
    assert!(rt; plan.team_count(0) == 2 && plan.size(1) == 2 && plan.size(2) == 2);
    Ok(())
}

#[test]
fn one_compare_and_swap_for_eight(rt: HostRuntime) -> Result<(), Fail> {
    let table = read_table(rt.alloc(), compare_and_swap().as_bytes())?;
    let Some(plan) = shortest_plan(rt.alloc(), &table, Looks::AtStates, 8)? else {
        panic!(rt; "no plan")
    };
    let cost = plan.cost();
    assert!(rt; cost.steps == 3 && cost.nodes == 1 && cost.sum == 24);
    Ok(())
}

#[test]
fn no_plan_of_test_and_set_for_three(rt: HostRuntime) -> Result<(), Fail> {
    let table = read_table(rt.alloc(), test_and_set().as_bytes())?;
    let plan = shortest_plan(rt.alloc(), &table, Looks::AtStates, 3)?;
    assert!(rt; plan.is_none());
    Ok(())
}
