//! Tests of what no contract says: that certificates are found where memory suffices.

ghost use Rattle.std.specs.Prelude.{◌≤◌};

use crate::{find_stocks, joins_against};
use cn_search::FindFault;
use cn_stock_cert::write_stock_certificate;
use cn_table::{Table, read_table};
use std::alloc::Global;
use std::test::Fail;
use std::thread::Threads;

fn test_and_set() -> &'static str {
    r#"name = "test_and_set"
states = ["zero", "one"]
responses = ["zero", "one"]
[[operation]]
name = "tas"
response = ["zero", "one"]
next = ["one", "one"]
"#
}

fn binary_register() -> &'static str {
    r#"name = "binary_register"
states = ["zero", "one"]
responses = ["ok"]
[[operation]]
name = "write0"
response = ["ok", "ok"]
next = ["zero", "zero"]
[[operation]]
name = "write1"
response = ["ok", "ok"]
next = ["one", "one"]
"#
}

fn sticky_bit() -> &'static str {
    r#"name = "sticky_bit"
states = ["unset", "zero", "one"]
responses = ["zero", "one"]
[[operation]]
name = "put0"
response = ["zero", "zero", "one"]
next = ["zero", "zero", "one"]
[[operation]]
name = "put1"
response = ["one", "zero", "one"]
next = ["one", "zero", "one"]
"#
}

fn three_shot() -> &'static str {
    r#"name = "three_shot"
states = ["bot", "a1", "a2", "b1", "b2", "dead"]
responses = ["a", "b", "none"]
[[operation]]
name = "x"
response = ["a", "a", "a", "b", "b", "none"]
next = ["a1", "a2", "dead", "b2", "dead", "dead"]
[[operation]]
name = "y"
response = ["b", "a", "a", "b", "b", "none"]
next = ["b1", "a2", "dead", "b2", "dead", "dead"]
"#
}

/// The type of a counter with so many states, which stays at the last one when it is incremented,
/// and comes back to it when the first one is decremented. Its number is that of its states.
fn inc_dec(alloc: Global, states: u8) -> Result<String, Fail>
    requires few { 1 ≤ states }
    requires some { states ≤ 16 }
{
    let mut names = String::new(alloc);
    let mut inc = String::new(alloc);
    let mut dec = String::new(alloc);
    for state in 0..states {
        let next = if state + 1 < states { state + 1 } else { state };
        let last = if state > 0 { state - 1 } else { states - 1 };
        names.push_str(format!(in alloc; "\"s{state}\",")?.as_str())?;
        inc.push_str(format!(in alloc; "\"s{next}\",")?.as_str())?;
        dec.push_str(format!(in alloc; "\"s{last}\",")?.as_str())?;
    }
    let head = format!(in alloc;
        "name = \"inc_dec\"\nstates = [{names}]\nresponses = [{names}]\n"
    )?;
    let first = format!(in alloc;
        "[[operation]]\nname = \"inc\"\nresponse = [{names}]\nnext = [{inc}]\n"
    )?;
    let second = format!(in alloc;
        "[[operation]]\nname = \"dec\"\nresponse = [{names}]\nnext = [{dec}]\n"
    )?;
    Ok(format!(in alloc; "{head}{first}{second}")?)
}

/// The text of the certificate of a type.
fn told<T: Threads + Sync>(
    rt: &T,
    alloc: Global,
    type_text: &str,
    limit: Option<u8>,
) -> Result<String, Fail> {
    let table = read_table(alloc, type_text.as_bytes())?;
    let certificate = find_stocks(rt, alloc, &table, limit)?;
    Ok(write_stock_certificate(alloc, &certificate)?)
}

#[test]
fn certificates_of_types(rt: HostRuntime) -> Result<(), Fail> {
    let alloc = rt.alloc();
    let two =
        "{\"at_least\":2,\"at_most\":2,\"least\":{\"witness\":[0,[0],[0]]},\"most\":[],\"type\":\"test_and_set\",\"version\":3}";
    assert!(rt; told(&rt, alloc, test_and_set(), None)?.as_str() == two);
    assert!(rt; told(&rt, alloc, test_and_set(), Some(3))?.as_str() == two);
    let one =
        "{\"at_least\":1,\"at_most\":1,\"least\":null,\"most\":[[0,[0],0,[1,0],1],[1,[0],0,[1,0],1]],\"type\":\"binary_register\",\"version\":3}";
    assert!(rt; told(&rt, alloc, binary_register(), Some(2))?.as_str() == one);
    let every =
        "{\"at_least\":null,\"at_most\":null,\"least\":{\"lasting\":[0,0,1,[0,1],[1],[2]]},\"most\":null,\"type\":\"sticky_bit\",\"version\":3}";
    assert!(rt; told(&rt, alloc, sticky_bit(), None)?.as_str() == every);
    Ok(())
}

#[test]
fn bounds_at_a_limit(rt: HostRuntime) -> Result<(), Fail> {
    let alloc = rt.alloc();
    let table = read_table(alloc, three_shot().as_bytes())?;
    let known = find_stocks(&rt, alloc, &table, None)?;
    assert!(rt; known.at_least == Some(3) && known.at_most == Some(3));
    let cut = find_stocks(&rt, alloc, &table, Some(3))?;
    assert!(rt; cut.at_least == Some(3) && cut.at_most.is_none());
    let refused = find_stocks(&rt, alloc, &table, Some(9));
    assert!(rt; refused.err() == Some(FindFault::BadLimit));
    Ok(())
}

/// How many joins there are against a number of processes.
fn joins<T: Threads + Sync>(
    rt: &T,
    alloc: Global,
    table: &Table,
    n: u8,
) -> Result<Option<usize>, Fail>
    requires some { 2 ≤ n }
    requires few { n ≤ 16 }
{
    match joins_against(rt, alloc, table, n)? {
        Some(joins) => Ok(Some(joins.len())),
        None => Ok(None),
    }
}

#[test]
fn joins_of_three_shot(rt: HostRuntime) -> Result<(), Fail> {
    let alloc = rt.alloc();
    let table = read_table(alloc, three_shot().as_bytes())?;
    assert!(rt; joins(&rt, alloc, &table, 3)?.is_none());
    assert!(rt; joins(&rt, alloc, &table, 4)? == Some(10));
    Ok(())
}

/// The bounds of a counter with so many states, with no limit.
fn bounds<T: Threads + Sync>(
    rt: &T,
    alloc: Global,
    states: u8,
) -> Result<(Option<u8>, Option<u8>), Fail>
    requires few { 1 ≤ states }
    requires some { states ≤ 16 }
{
    let text = inc_dec(alloc, states)?;
    let table = read_table(alloc, text.as_bytes())?;
    let found = find_stocks(rt, alloc, &table, None)?;
    Ok((found.at_least, found.at_most))
}

#[test]
fn bounds_of_counters(rt: HostRuntime) -> Result<(), Fail> {
    let alloc = rt.alloc();
    assert!(rt; bounds(&rt, alloc, 9)? == (Some(9), Some(9)));
    assert!(rt; bounds(&rt, alloc, 15)? == (Some(15), Some(15)));
    assert!(rt; bounds(&rt, alloc, 16)? == (Some(16), Some(16)));
    Ok(())
}
