//! Divisions by hand: of objects for which the first operation is told for good, by its responses or
//! by silent operations, and of one that tells only two processes apart.
ghost use Rattle.cn_meetings.specs.Sights.{AreSightsOf};

use crate::{Division, find_divisions};
use cn_meetings::Sight;
use cn_table::{Operation, Table, read_table};
use cn_views::is_silent;
use std::alloc::Global;
use std::test::Fail;

/// The sizes of the divisions, one after the other.
fn told(alloc: Global, divisions: &[Division]) -> Result<String, Fail> {
    let mut text = String::new(alloc);
    for division in divisions {
        for size in division.sizes.as_slice() {
            let digit = format!(in alloc; "{}", *size)?;
            text.push_str(digit.as_str())?;
        }
        text.push(' ')?;
    }
    Ok(text)
}

/// The sizes for 2, 3 and 4 processes, by each of the sights.
fn told_by(alloc: Global, table: &Table, sights: &[Sight]) -> Result<String, Fail>
    requires { AreSightsOf table.now sights.now }
{
    let mut text = String::new(alloc);
    for divisions in &find_divisions(alloc, table, sights, 4)? {
        for of_sight in &divisions.by_sight {
            text.push_str(told(alloc, of_sight.list.as_slice())?.as_str())?;
            text.push_str("| ")?;
        }
        text.push_str("; ")?;
    }
    Ok(text)
}

/// The sizes where the processes read the state, and where they do not look.
fn all_told(alloc: Global, table: &str) -> Result<String, Fail> {
    let table = read_table(alloc, table.as_bytes())?;
    told_by(alloc, &table, &[Sight::State, Sight::Nothing])
}

/// The sizes where the processes do not look, and where they look by this operation. No text, if it
/// is not silent.
fn told_by_response(alloc: Global, table: &str, number: u8) -> Result<String, Fail> {
    let table = read_table(alloc, table.as_bytes())?;
    let operation = Operation(number);
    if number < table.operations() && is_silent(&table, operation) {
        return told_by(alloc, &table, &[Sight::Nothing, Sight::Response(operation)]);
    }
    Ok(String::new(alloc))
}

#[test]
fn sticky_bit_has_two_teams(rt: HostRuntime) -> Result<(), Fail> {
    let table = r#"name = "sticky_bit"
states = ["unset", "zero", "one"]
responses = ["zero", "one"]
[[operation]]
name = "put0"
response = ["zero", "zero", "one"]
next = ["zero", "zero", "one"]
[[operation]]
name = "put1"
response = ["one", "zero", "one"]
next = ["one", "zero", "one"]
"#;
    let sizes = all_told(rt.alloc(), table)?;
    assert!(rt; sizes.as_str() == "11 | 11 | ; 21 | 21 | ; 31 22 | 31 22 | ; ");
    Ok(())
}

#[test]
fn test_and_set_tells_two_processes(rt: HostRuntime) -> Result<(), Fail> {
    let table = r#"name = "test_and_set"
states = ["zero", "one"]
responses = ["zero", "one"]
[[operation]]
name = "tas"
response = ["zero", "one"]
next = ["one", "one"]
"#;
    let sizes = all_told(rt.alloc(), table)?;
    assert!(rt; sizes.as_str() == "11 | 11 | ; | | ; | | ; ");
    Ok(())
}

#[test]
fn compare_and_swap_has_a_team_for_each_value(rt: HostRuntime) -> Result<(), Fail> {
    let table = r#"name = "compare_and_swap"
states = ["none", "one", "two", "three"]
responses = ["none", "one", "two", "three"]
[[operation]]
name = "cas1"
response = ["none", "one", "two", "three"]
next = ["one", "one", "two", "three"]
[[operation]]
name = "cas2"
response = ["none", "one", "two", "three"]
next = ["two", "one", "two", "three"]
[[operation]]
name = "cas3"
response = ["none", "one", "two", "three"]
next = ["three", "one", "two", "three"]
"#;
    let sizes = all_told(rt.alloc(), table)?;
    assert!(rt; sizes.as_str() == "11 | 11 | ; 21 111 | 21 111 | ; 31 22 211 | 31 22 211 | ; ");
    Ok(())
}

#[test]
fn silent_operation_tells_what_responses_do_not(rt: HostRuntime) -> Result<(), Fail> {
    let table = r#"name = "mute_sticky_bit"
states = ["unset", "zero", "one"]
responses = ["ok", "none", "zero", "one"]
[[operation]]
name = "put0"
response = ["ok", "ok", "ok"]
next = ["zero", "zero", "one"]
[[operation]]
name = "put1"
response = ["ok", "ok", "ok"]
next = ["one", "zero", "one"]
[[operation]]
name = "get"
response = ["none", "zero", "one"]
next = ["unset", "zero", "one"]
[[operation]]
name = "is_set"
response = ["none", "one", "one"]
next = ["unset", "zero", "one"]
"#;
    let get = told_by_response(rt.alloc(), table, 2)?;
    assert!(rt; get.as_str() == "| 11 | ; | 21 | ; | 31 22 | ; ");
    let is_set = told_by_response(rt.alloc(), table, 3)?;
    assert!(rt; is_set.as_str() == "| | ; | | ; | | ; ");
    Ok(())
}
