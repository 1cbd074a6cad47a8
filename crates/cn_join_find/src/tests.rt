//! Tests of what no contract says: that joins and witnesses are found where memory suffices.

use crate::{find_joins, find_witness};
use cn_stocks::Threading;
use cn_table::read_table;
use std::test::Fail;

fn three_shot() -> &'static str {
    r#"name = "three_shot"
states = ["bot", "a1", "a2", "b1", "b2", "dead"]
responses = ["a", "b", "none"]
[[operation]]
name = "x"
response = ["a", "a", "a", "b", "b", "none"]
next = ["a1", "a2", "dead", "b2", "dead", "dead"]
[[operation]]
name = "y"
response = ["b", "a", "a", "b", "b", "none"]
next = ["b1", "a2", "dead", "b2", "dead", "dead"]
"#
}

#[test]
fn joins_of_three_shot(rt: HostRuntime) -> Result<(), Fail> {
    let alloc = rt.alloc();
    let table = read_table(alloc, three_shot().as_bytes())?;
    let none = find_joins(&rt, alloc, &table, 3, Threading::One)?;
    assert!(rt; none.is_none());
    let joins = find_joins(&rt, alloc, &table, 4, Threading::One)?;
    assert!(rt; joins.is_some());
    Ok(())
}

fn test_and_set_twice() -> &'static str {
    r#"name = "test_and_set_twice"
states = ["free", "taken"]
responses = ["won", "lost"]
[[operation]]
name = "take"
response = ["won", "lost"]
next = ["taken", "taken"]
[[operation]]
name = "take_too"
response = ["won", "lost"]
next = ["taken", "taken"]
[[operation]]
name = "look"
response = ["won", "lost"]
next = ["free", "taken"]
"#
}

#[test]
fn joins_behind_a_copy(rt: HostRuntime) -> Result<(), Fail> {
    let alloc = rt.alloc();
    let table = read_table(alloc, test_and_set_twice().as_bytes())?;
    let none = find_joins(&rt, alloc, &table, 2, Threading::One)?;
    assert!(rt; none.is_none());
    let joins = find_joins(&rt, alloc, &table, 3, Threading::One)?;
    assert!(rt; joins.is_some_and(|joins| !joins.is_empty()));
    Ok(())
}

fn register_of_two_names() -> &'static str {
    r#"name = "register_of_two_names"
states = ["zero", "one"]
responses = ["ok", "done"]
[[operation]]
name = "write0"
response = ["ok", "ok"]
next = ["zero", "zero"]
[[operation]]
name = "put0"
response = ["done", "done"]
next = ["zero", "zero"]
[[operation]]
name = "write1"
response = ["ok", "ok"]
next = ["one", "one"]
"#
}

#[test]
fn no_joins_of_one_row(rt: HostRuntime) -> Result<(), Fail> {
    let alloc = rt.alloc();
    let table = read_table(alloc, register_of_two_names().as_bytes())?;
    let joins = find_joins(&rt, alloc, &table, 2, Threading::One)?;
    assert!(rt; joins.is_some_and(|joins| joins.len() == 4));
    Ok(())
}

#[test]
fn witness_of_three_shot(rt: HostRuntime) -> Result<(), Fail> {
    let alloc = rt.alloc();
    let table = read_table(alloc, three_shot().as_bytes())?;
    let none = find_witness(&rt, alloc, &table, 4, Threading::One)?;
    assert!(rt; none.is_none());
    let found = find_witness(&rt, alloc, &table, 3, Threading::One)?;
    assert!(rt; found.is_some_and(|w| w.a.len() + w.b.len() == 3));
    Ok(())
}
