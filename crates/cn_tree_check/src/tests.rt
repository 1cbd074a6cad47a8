//! Tests of what no contract says: that certificates are judged and made where memory suffices.

use crate::{TreeCheckFault, check_tree, tree_certificate};
use cn_table::{Table, read_table};
use cn_tree_cert::{read_tree_certificate, write_tree_certificate};
use std::alloc::Global;
use std::test::Fail;

fn sticky_bit() -> &'static str {
    "name = \"sticky_bit\"
states = [\"unset\", \"zero\", \"one\"]
responses = [\"zero\", \"one\"]
[[operation]]
name = \"put0\"
response = [\"zero\", \"zero\", \"one\"]
next = [\"zero\", \"zero\", \"one\"]
[[operation]]
name = \"put1\"
response = [\"one\", \"zero\", \"one\"]
next = [\"one\", \"zero\", \"one\"]
"
}

/// Three sticky bits for four processes.
fn four() -> &'static str {
    "{\"nodes\":[[0,false,[0,0,1,1],[2,2]],[0,false,[0,1],[1,1]],[0,false,[0,1],[1,1]]],\"processes\":4,\"steps\":6,\"type\":\"sticky_bit\",\"version\":5}"
}

#[test]
fn a_certificate_is_accepted_and_made(rt: HostRuntime) -> Result<(), Fail> {
    let alloc = rt.alloc();
    let table = read_table(alloc, sticky_bit().as_bytes())?;
    let certificate = read_tree_certificate(alloc, four().as_bytes())?;
    let plan = check_tree(alloc, &table, &certificate)?;
    let made = tree_certificate(alloc, &plan)?;
    let text = write_tree_certificate(alloc, &made)?;
    assert!(rt; text.as_str() == four());
    Ok(())
}

/// A sticky bit that answers nothing when it is put, and an operation that looks at it.
fn peeked() -> &'static str {
    "name = \"peeked\"
states = [\"unset\", \"zero\", \"one\"]
responses = [\"done\", \"zero\", \"one\"]
[[operation]]
name = \"put0\"
response = [\"done\", \"done\", \"done\"]
next = [\"zero\", \"zero\", \"one\"]
[[operation]]
name = \"put1\"
response = [\"done\", \"done\", \"done\"]
next = [\"one\", \"zero\", \"one\"]
[[operation]]
name = \"peek\"
response = [\"done\", \"zero\", \"one\"]
next = [\"unset\", \"zero\", \"one\"]
"
}

#[test]
fn looks_are_silent_operations(rt: HostRuntime) -> Result<(), Fail> {
    let table = read_table(rt.alloc(), peeked().as_bytes())?;
    let peek =
        "{\"nodes\":[[0,2,[0,1],[1,1]]],\"processes\":2,\"steps\":4,\"type\":\"peeked\",\"version\":5}";
    let put =
        "{\"nodes\":[[0,0,[0,1],[1,1]]],\"processes\":2,\"steps\":4,\"type\":\"peeked\",\"version\":5}";
    let nothing =
        "{\"nodes\":[[0,false,[0,1],[1,1]]],\"processes\":2,\"steps\":3,\"type\":\"peeked\",\"version\":5}";
    let meets = TreeCheckFault::Meets {
        node: 0,
        process: 0,
    };
    assert!(rt; fault(rt.alloc(), &table, peek).is_none());
    assert!(rt; fault(rt.alloc(), &table, put) == Some(TreeCheckFault::BadMeeting));
    assert!(rt; fault(rt.alloc(), &table, nothing) == Some(meets));
    Ok(())
}

/// The fault of a certificate, if it has one.
fn fault(alloc: Global, table: &Table, text: &str) -> Option<TreeCheckFault> {
    match read_tree_certificate(alloc, text.as_bytes()) {
        Ok(certificate) => check_tree(alloc, table, &certificate).err(),
        Err(_) => None,
    }
}

#[test]
fn faults_of_certificates(rt: HostRuntime) -> Result<(), Fail> {
    let alloc = rt.alloc();
    let table = read_table(alloc, sticky_bit().as_bytes())?;
    let other = "{\"nodes\":[],\"processes\":2,\"steps\":3,\"type\":\"bit\",\"version\":5}";
    let no_node =
        "{\"nodes\":[],\"processes\":2,\"steps\":3,\"type\":\"sticky_bit\",\"version\":5}";
    let one_operation =
        "{\"nodes\":[[0,false,[0],[1,1]]],\"processes\":2,\"steps\":3,\"type\":\"sticky_bit\",\"version\":5}";
    let same_operation =
        "{\"nodes\":[[0,false,[0,0],[1,1]]],\"processes\":2,\"steps\":3,\"type\":\"sticky_bit\",\"version\":5}";
    let four_steps =
        "{\"nodes\":[[0,false,[0,1],[1,1]]],\"processes\":2,\"steps\":4,\"type\":\"sticky_bit\",\"version\":5}";
    let meets = TreeCheckFault::Meets {
        node: 0,
        process: 0,
    };
    assert!(rt; fault(alloc, &table, other) == Some(TreeCheckFault::OtherType));
    assert!(rt; fault(alloc, &table, no_node) == Some(TreeCheckFault::NotATree));
    assert!(rt; fault(alloc, &table, one_operation) == Some(TreeCheckFault::BadMeeting));
    assert!(rt; fault(alloc, &table, same_operation) == Some(meets));
    assert!(rt; fault(alloc, &table, four_steps) == Some(TreeCheckFault::BadSteps));
    Ok(())
}
