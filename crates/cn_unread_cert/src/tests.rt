//! Tests of what no contract says: that a certificate is made, written and read where memory
//! suffices.

use crate::{
    UnreadCertFault, read_unread_certificate, unread_certificate, write_unread_certificate,
};
use cn_table::read_table;
use std::alloc::Global;
use std::test::Fail;

/// A queue with room for one of two letters. Its number is 2.
fn queue_of_one() -> &'static str {
    "name = \"queue_1\"
states = [\"q\", \"qa\", \"qb\"]
responses = [\"ok\", \"full\", \"empty\", \"a\", \"b\"]
[[operation]]
name = \"enq_a\"
response = [\"ok\", \"full\", \"full\"]
next = [\"qa\", \"qa\", \"qb\"]
[[operation]]
name = \"enq_b\"
response = [\"ok\", \"full\", \"full\"]
next = [\"qb\", \"qa\", \"qb\"]
[[operation]]
name = \"deq\"
response = [\"empty\", \"a\", \"b\"]
next = [\"q\", \"q\", \"q\"]
"
}

#[test]
fn a_written_certificate_is_read_back(rt: HostRuntime) -> Result<(), Fail> {
    let alloc = rt.alloc();
    let table = read_table(alloc, queue_of_one().as_bytes())?;
    let certificate = unread_certificate(&rt, alloc, &table)?;
    let text = write_unread_certificate(alloc, &certificate)?;
    let again = read_unread_certificate(alloc, text.as_bytes())?;
    let same = write_unread_certificate(alloc, &again)?;
    assert!(rt; text.as_str() == same.as_str());
    assert!(rt; certificate.at_least == Some(2) && certificate.at_most == Some(2));
    Ok(())
}

/// The fault of a text, if it has one.
fn fault(alloc: Global, text: &str) -> Option<UnreadCertFault> {
    read_unread_certificate(alloc, text.as_bytes()).err()
}

#[test]
fn faults_of_texts(rt: HostRuntime) -> Result<(), Fail> {
    let alone =
        "{\"at_least\":1,\"at_most\":null,\"least\":null,\"most\":null,\"type\":\"t\",\"version\":4}";
    let of_version_2 =
        "{\"at_least\":256,\"at_most\":null,\"least\":null,\"most\":null,\"type\":\"t\",\"version\":2}";
    let too_great =
        "{\"at_least\":256,\"at_most\":null,\"least\":null,\"most\":null,\"type\":\"t\",\"version\":4}";
    assert!(rt; fault(rt.alloc(), alone).is_none());
    assert!(rt; fault(rt.alloc(), "{") == Some(UnreadCertFault::NotJson));
    assert!(rt; fault(rt.alloc(), "{}") == Some(UnreadCertFault::WrongShape));
    assert!(rt; fault(rt.alloc(), of_version_2) == Some(UnreadCertFault::Version));
    assert!(rt; fault(rt.alloc(), too_great) == Some(UnreadCertFault::Range));
    Ok(())
}
