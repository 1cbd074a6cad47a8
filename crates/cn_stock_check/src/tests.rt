//! Tests of what no contract says: that certificates are judged where memory suffices.

use crate::{StockCheckFault, check_stocks};
use cn_stock_cert::read_stock_certificate;
use cn_table::read_table;
use std::alloc::Global;
use std::test::Fail;

/// A bit that is tested and set: two processes, and no three.
fn test_and_set() -> &'static str {
    "name = \"test_and_set\"
states = [\"zero\", \"one\"]
responses = [\"zero\", \"one\"]
[[operation]]
name = \"tas\"
response = [\"zero\", \"one\"]
next = [\"one\", \"one\"]
"
}

/// A bit that is written and not read: one process.
fn binary_register() -> &'static str {
    "name = \"binary_register\"
states = [\"zero\", \"one\"]
responses = [\"ok\"]
[[operation]]
name = \"write0\"
response = [\"ok\", \"ok\"]
next = [\"zero\", \"zero\"]
[[operation]]
name = \"write1\"
response = [\"ok\", \"ok\"]
next = [\"one\", \"one\"]
"
}

/// The bit that is written and not read, with a copy of the first write.
fn copied_register() -> &'static str {
    "name = \"copied_register\"
states = [\"zero\", \"one\"]
responses = [\"ok\"]
[[operation]]
name = \"write0\"
response = [\"ok\", \"ok\"]
next = [\"zero\", \"zero\"]
[[operation]]
name = \"put0\"
response = [\"ok\", \"ok\"]
next = [\"zero\", \"zero\"]
[[operation]]
name = \"write1\"
response = [\"ok\", \"ok\"]
next = [\"one\", \"one\"]
"
}

/// The register with another response of the second write of zero, which is no copy then.
fn named_register() -> &'static str {
    "name = \"named_register\"
states = [\"zero\", \"one\"]
responses = [\"ok\", \"done\"]
[[operation]]
name = \"write0\"
response = [\"ok\", \"ok\"]
next = [\"zero\", \"zero\"]
[[operation]]
name = \"put0\"
response = [\"done\", \"done\"]
next = [\"zero\", \"zero\"]
[[operation]]
name = \"write1\"
response = [\"ok\", \"ok\"]
next = [\"one\", \"one\"]
"
}

/// A bit that is tested and set under two names, with responses of their own: two processes.
fn two_names() -> &'static str {
    "name = \"two_names\"
states = [\"zero\", \"one\"]
responses = [\"zero\", \"one\", \"free\", \"taken\"]
[[operation]]
name = \"take\"
response = [\"zero\", \"one\"]
next = [\"one\", \"one\"]
[[operation]]
name = \"grab\"
response = [\"free\", \"taken\"]
next = [\"one\", \"one\"]
"
}

/// A bit that keeps what is first written: every number of processes.
fn sticky_bit() -> &'static str {
    "name = \"sticky_bit\"
states = [\"unset\", \"zero\", \"one\"]
responses = [\"zero\", \"one\"]
[[operation]]
name = \"put0\"
response = [\"zero\", \"zero\", \"one\"]
next = [\"zero\", \"zero\", \"one\"]
[[operation]]
name = \"put1\"
response = [\"one\", \"zero\", \"one\"]
next = [\"one\", \"zero\", \"one\"]
"
}

/// The verdict on a certificate with these members, in the order of their names.
fn verdict(
    alloc: Global,
    table: &str,
    members: [&str; 4],
    name: &str,
) -> Result<Result<(), StockCheckFault>, Fail> {
    let [at_least, at_most, least, most] = members;
    let table = read_table(alloc, table.as_bytes())?;
    let text = format!(in alloc;
        "{{\"at_least\":{at_least},\"at_most\":{at_most},\"least\":{least},\"most\":{most},\"type\":\"{name}\",\"version\":3}}"
    )?;
    let certificate = read_stock_certificate(alloc, text.as_bytes())?;
    Ok(check_stocks(alloc, &table, &certificate))
}

#[test]
fn right_certificates_are_accepted(rt: HostRuntime) -> Result<(), Fail> {
    let alloc = rt.alloc();
    let of_two = ["2", "null", "{\"witness\":[0,[0],[0]]}", "null"];
    assert!(rt; verdict(alloc, test_and_set(), of_two, "test_and_set")? == Ok(()));
    let of_all = [
        "null",
        "null",
        "{\"lasting\":[0,0,1,[0,1],[1],[2]]}",
        "null",
    ];
    assert!(rt; verdict(alloc, sticky_bit(), of_all, "sticky_bit")? == Ok(()));
    let of_five = ["5", "null", "{\"witness\":[0,[0,0],[1,1,1]]}", "null"];
    assert!(rt; verdict(alloc, sticky_bit(), of_five, "sticky_bit")? == Ok(()));
    let of_one = ["1", "1", "null", register_joins()];
    assert!(rt; verdict(alloc, binary_register(), of_one, "binary_register")? == Ok(()));
    let up_to_two = ["1", "2", "null", "[]"];
    assert!(rt; verdict(alloc, test_and_set(), up_to_two, "test_and_set")? == Ok(()));
    Ok(())
}

/// Joins of the two writes, from each state.
fn register_joins() -> &'static str {
    "[[0,[0],0,[1,0],1],[1,[0,1],1,[1],0]]"
}

#[test]
fn wrong_bounds_and_claims_are_refused(rt: HostRuntime) -> Result<(), Fail> {
    let alloc = rt.alloc();
    let tas = test_and_set();
    let of_other = verdict(alloc, tas, ["1", "null", "null", "null"], "sticky_bit")?;
    assert!(rt; of_other == Err(StockCheckFault::OtherType));
    let of_none = verdict(alloc, tas, ["0", "null", "null", "null"], "test_and_set")?;
    assert!(rt; of_none == Err(StockCheckFault::BadNumber));
    let alone = verdict(alloc, tas, ["2", "null", "null", "null"], "test_and_set")?;
    assert!(rt; alone == Err(StockCheckFault::LeastShape));
    let short = ["3", "null", "{\"witness\":[0,[0],[0]]}", "null"];
    assert!(rt; verdict(alloc, tas, short, "test_and_set")? == Err(StockCheckFault::NotAChoice));
    let of_three = ["3", "null", "{\"witness\":[0,[0],[0,0]]}", "null"];
    assert!(rt; verdict(alloc, tas, of_three, "test_and_set")? == Err(StockCheckFault::NoWitness));
    let set_before = ["2", "null", "{\"witness\":[1,[0],[0]]}", "null"];
    assert!(rt;
        verdict(alloc, tas, set_before, "test_and_set")? == Err(StockCheckFault::NoWitness)
    );
    let sets = [
        "null",
        "null",
        "{\"lasting\":[0,0,1,[0,1],[1],[1]]}",
        "null",
    ];
    let lasting = verdict(alloc, sticky_bit(), sets, "sticky_bit")?;
    assert!(rt; lasting == Err(StockCheckFault::NotLasting));
    Ok(())
}

#[test]
fn wrong_joins_are_refused(rt: HostRuntime) -> Result<(), Fail> {
    let alloc = rt.alloc();
    let register = binary_register();
    let without = ["1", "1", "null", "null"];
    let of_none = verdict(alloc, register, without, "binary_register")?;
    assert!(rt; of_none == Err(StockCheckFault::MostShape));
    let other = ["1", "1", "null", "[[0,[0],0,[1,0],1],[1,[0],0,[1],0]]"];
    let of_other = verdict(alloc, register, other, "binary_register")?;
    assert!(rt; of_other == Err(StockCheckFault::NotAJoin(1)));
    let one = ["1", "1", "null", "[[0,[0],0,[1,0],1]]"];
    let of_one = verdict(alloc, register, one, "binary_register")?;
    assert!(rt; of_one == Err(StockCheckFault::NotConnected(1)));
    let noticed = ["1", "1", "null", "[]"];
    let of_tas = verdict(alloc, test_and_set(), noticed, "test_and_set")?;
    assert!(rt; of_tas == Err(StockCheckFault::NoticesItself(0)));
    Ok(())
}

#[test]
fn copies_need_no_joins(rt: HostRuntime) -> Result<(), Fail> {
    let alloc = rt.alloc();
    let register = copied_register();
    let of_firsts = "[[0,[0],0,[2,0],1],[1,[0,2],1,[2],0]]";
    let of_one = ["1", "1", "null", of_firsts];
    assert!(rt; verdict(alloc, register, of_one, "copied_register")? == Ok(()));
    let from_zero = ["1", "1", "null", "[[0,[0],0,[2,0],1]]"];
    let open = verdict(alloc, register, from_zero, "copied_register")?;
    assert!(rt; open == Err(StockCheckFault::NotConnected(1)));
    Ok(())
}

#[test]
fn operations_of_one_row_need_no_joins(rt: HostRuntime) -> Result<(), Fail> {
    let alloc = rt.alloc();
    let up_to_two = ["2", "2", "{\"witness\":[0,[0],[1]]}", "[]"];
    assert!(rt; verdict(alloc, two_names(), up_to_two, "two_names")? == Ok(()));
    let register = named_register();
    let of_both = "[[0,[0],0,[2,0],1],[0,[1],0,[2,1],1],[1,[0,2],1,[2],0],[1,[1,2],1,[2],0]]";
    let of_one = ["1", "1", "null", of_both];
    assert!(rt; verdict(alloc, register, of_one, "named_register")? == Ok(()));
    let of_copies = ["1", "1", "null", "[[0,[0],0,[2,0],1],[1,[0,2],1,[2],0]]"];
    let open = verdict(alloc, register, of_copies, "named_register")?;
    assert!(rt; open == Err(StockCheckFault::NotConnected(0)));
    Ok(())
}

#[test]
fn faults_are_printed(rt: HostRuntime) -> Result<(), Fail> {
    let text = format!(in rt.alloc(); "{}", StockCheckFault::NotAJoin(7))?;
    assert!(rt; text.as_str() == "8 NotAJoin 7");
    let text = format!(in rt.alloc(); "{}", StockCheckFault::OtherType)?;
    assert!(rt; text.as_str() == "1 OtherType");
    Ok(())
}
