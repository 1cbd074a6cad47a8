//! Tests of what no contract says: the whole text of some certificates, where memory suffices.

use crate::push_stock_explanation;
use cn_stock_cert::read_stock_certificate;
use cn_stock_check::check_stocks;
use cn_table::read_table;
use std::alloc::Global;
use std::test::Fail;

/// Whether a certificate with these members, in the order of their names, is right, and its
/// explanation is this text.
fn tells(
    alloc: Global,
    table: &str,
    members: [&str; 4],
    all: bool,
    wanted: &str,
) -> Result<bool, Fail> {
    let [at_least, at_most, least, most] = members;
    let table = read_table(alloc, table.as_bytes())?;
    let name = table.name();
    let text = format!(in alloc;
        "{{\"at_least\":{at_least},\"at_most\":{at_most},\"least\":{least},\"most\":{most},\"type\":\"{name}\",\"version\":3}}"
    )?;
    let certificate = read_stock_certificate(alloc, text.as_bytes())?;
    if let Err(_fault) = check_stocks(alloc, &table, &certificate) {
        return Ok(false);
    }
    let mut text = String::new(alloc);
    push_stock_explanation(alloc, &mut text, &table, &certificate, all)?;
    Ok(text.as_str() == wanted)
}

/// A bit that is written, and answers what it was: two processes.
fn binary_swap() -> &'static str {
    "name = \"binary_swap\"
states = [\"zero\", \"one\"]
responses = [\"zero\", \"one\"]
[[operation]]
name = \"swap0\"
response = [\"zero\", \"one\"]
next = [\"zero\", \"zero\"]
[[operation]]
name = \"swap1\"
response = [\"zero\", \"one\"]
next = [\"one\", \"one\"]
"
}

/// A bit that is written and not read: one process.
fn binary_register() -> &'static str {
    "name = \"binary_register\"
states = [\"zero\", \"one\"]
responses = [\"ok\"]
[[operation]]
name = \"write0\"
response = [\"ok\", \"ok\"]
next = [\"zero\", \"zero\"]
[[operation]]
name = \"write1\"
response = [\"ok\", \"ok\"]
next = [\"one\", \"one\"]
"
}

/// A bit that keeps what is first written: every number of processes.
fn sticky_bit() -> &'static str {
    "name = \"sticky_bit\"
states = [\"unset\", \"zero\", \"one\"]
responses = [\"zero\", \"one\"]
[[operation]]
name = \"put0\"
response = [\"zero\", \"zero\", \"one\"]
next = [\"zero\", \"zero\", \"one\"]
[[operation]]
name = \"put1\"
response = [\"one\", \"zero\", \"one\"]
next = [\"one\", \"zero\", \"one\"]
"
}

/// A bit that is tested and set: two processes.
fn test_and_set() -> &'static str {
    "name = \"test_and_set\"
states = [\"zero\", \"one\"]
responses = [\"zero\", \"one\"]
[[operation]]
name = \"tas\"
response = [\"zero\", \"one\"]
next = [\"one\", \"one\"]
"
}

#[test]
fn a_witness_and_joins(rt: HostRuntime) -> Result<(), Fail> {
    let joins =
        "[[0,[0,1,0],2,[1,0],1],[0,[0,1],1,[1,0,1],2],[1,[0,1,0],2,[1,0],1],[1,[0,1],1,[1,0,1],2]]";
    let of_two = ["2", "2", "{\"witness\":[0,[1],[1]]}", joins];
    let text = "binary_swap: consensus number 2 (for processes that can read the whole state)

Why 2: from state zero, p0 (team A) does swap1, p1 (team B) does swap1.
  p0, A first: got zero, reads one
  p0, B first: got one, reads one
  p1, A first: got one, reads one
  p1, B first: got zero, reads one
  No process sees the same where team A is first as where team B is, so each can tell which team was first.

Why not 3: 4 joins; in both runs of each some process gets the response behind the slash and reads the state left.
  from zero: swap0 swap1 swap0/one and swap1 swap0/one both leave zero: swap0 and swap1 are in one team
  from zero: swap0 swap1/zero and swap1 swap0 swap1/zero both leave one: swap0 and swap1 are in one team
  from one: swap0 swap1 swap0/one and swap1 swap0/one both leave zero: swap0 and swap1 are in one team
  from one: swap0 swap1/zero and swap1 swap0 swap1/zero both leave one: swap0 and swap1 are in one team
  Processes with one operation are in one team: a third one sees the same, whichever of them is first.
  From each state, the joins whose runs 3 processes can do put all of them into one team; operations that lead from each state to the same one count as one.
No protocol at all does it for 3: this is proved (docs/PROVED.md).
";
    assert!(rt; tells(rt.alloc(), binary_swap(), of_two, false, text)?);
    Ok(())
}

#[test]
fn operations_that_last(rt: HostRuntime) -> Result<(), Fail> {
    let of_all = [
        "null",
        "null",
        "{\"lasting\":[0,0,1,[0,1],[1],[2]]}",
        "null",
    ];
    let text = "sticky_bit: consensus number infinite (for processes that can read the whole state)

Why infinite: from state unset, one process does put1, and any number of others do put0.
  put1 first: the state is one of one
  put1 not yet: the state is one of unset zero
  put1 behind put0: the state is one of zero
  No state of the first list is in another one, so each process can tell which came first, however many there are.

It is so for each number of processes: this is proved (docs/PROVED.md).
";
    assert!(rt; tells(rt.alloc(), sticky_bit(), of_all, false, text)?);
    Ok(())
}

#[test]
fn one_process(rt: HostRuntime) -> Result<(), Fail> {
    let of_one = ["1", "1", "null", "[[0,[0],0,[1,0],1],[1,[0,1],1,[1],0]]"];
    let text = "binary_register: consensus number 1 (for processes that can read the whole state)

One process alone agrees with itself, so the number is at least 1.

Why not 2: 2 joins; in both runs of each some process gets the response behind the slash and reads the state left.
  from zero: write0/ok and write1 write0/ok both leave zero: write0 and write1 are in one team
  from one: write0 write1/ok and write1/ok both leave one: write0 and write1 are in one team
  Two processes with one operation cannot tell either: done twice in a row, it gets the same response both times.
  From each state, the joins whose runs 2 processes can do put all of them into one team; operations that lead from each state to the same one count as one.
No protocol at all does it for 2: this is proved (docs/PROVED.md).
";
    assert!(rt; tells(rt.alloc(), binary_register(), of_one, true, text)?);
    Ok(())
}

#[test]
fn many_joins_are_cut(rt: HostRuntime) -> Result<(), Fail> {
    let one = "[0,[0],0,[1,0],1]";
    let joins = format!(in rt.alloc();
        "[{one},{one},{one},{one},{one},{one},{one},{one},{one},{one},{one},{one},{one},[1,[0,1],1,[1],0]]"
    )?;
    let of_one = ["1", "1", "null", joins.as_str()];
    let text = "binary_register: consensus number 1 (for processes that can read the whole state)

One process alone agrees with itself, so the number is at least 1.

Why not 2: 14 joins; in both runs of each some process gets the response behind the slash and reads the state left.
  from zero: write0/ok and write1 write0/ok both leave zero: write0 and write1 are in one team
  from zero: write0/ok and write1 write0/ok both leave zero: write0 and write1 are in one team
  from zero: write0/ok and write1 write0/ok both leave zero: write0 and write1 are in one team
  from zero: write0/ok and write1 write0/ok both leave zero: write0 and write1 are in one team
  from zero: write0/ok and write1 write0/ok both leave zero: write0 and write1 are in one team
  from zero: write0/ok and write1 write0/ok both leave zero: write0 and write1 are in one team
  from zero: write0/ok and write1 write0/ok both leave zero: write0 and write1 are in one team
  from zero: write0/ok and write1 write0/ok both leave zero: write0 and write1 are in one team
  from zero: write0/ok and write1 write0/ok both leave zero: write0 and write1 are in one team
  from zero: write0/ok and write1 write0/ok both leave zero: write0 and write1 are in one team
  from zero: write0/ok and write1 write0/ok both leave zero: write0 and write1 are in one team
  from zero: write0/ok and write1 write0/ok both leave zero: write0 and write1 are in one team
  and 2 more (--all tells them)
  Two processes with one operation cannot tell either: done twice in a row, it gets the same response both times.
  From each state, the joins whose runs 2 processes can do put all of them into one team; operations that lead from each state to the same one count as one.
No protocol at all does it for 2: this is proved (docs/PROVED.md).
";
    assert!(rt; tells(rt.alloc(), binary_register(), of_one, false, text)?);
    Ok(())
}

#[test]
fn bounds_that_differ(rt: HostRuntime) -> Result<(), Fail> {
    let up_to_two = ["1", "2", "null", "[]"];
    let text = "test_and_set: consensus number 1 to 2 (for processes that can read the whole state)

One process alone agrees with itself, so the number is at least 1.

Why not 3: no join is needed, since no two operations of the type lead from a state to different ones.
  Processes with one operation are in one team: a third one sees the same, whichever of them is first.
No protocol at all does it for 3: this is proved (docs/PROVED.md).
";
    assert!(rt; tells(rt.alloc(), test_and_set(), up_to_two, false, text)?);
    let of_nine = [
        "9",
        "null",
        "{\"witness\":[0,[0],[1,1,1,1,1,1,1,1]]}",
        "null",
    ];
    let text =
        "sticky_bit: consensus number at least 9 (for processes that can read the whole state)

Why 9: from state unset, team A does put0, team B does put1 put1 put1 put1 put1 put1 put1 put1.
  No process sees the same where team A is first as where team B is, so each can tell which team was first.

The certificate shows no upper bound.
";
    assert!(rt; tells(rt.alloc(), sticky_bit(), of_nine, false, text)?);
    Ok(())
}
