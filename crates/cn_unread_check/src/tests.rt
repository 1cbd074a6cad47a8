//! Tests of what no contract says: that certificates are judged where memory suffices.

use crate::{UnreadCheckFault, check_unread};
use cn_table::read_table;
use cn_unread_cert::{LeastClaim, unread_certificate};
use std::test::Fail;

/// A sticky bit whose writes answer nothing, with a read. Every number of processes can agree.
fn sticky_bit() -> &'static str {
    "name = \"sticky_bit\"
states = [\"none\", \"zero\", \"one\"]
responses = [\"none\", \"zero\", \"one\", \"ok\"]
[[operation]]
name = \"set_zero\"
response = [\"ok\", \"ok\", \"ok\"]
next = [\"zero\", \"zero\", \"one\"]
[[operation]]
name = \"set_one\"
response = [\"ok\", \"ok\", \"ok\"]
next = [\"one\", \"zero\", \"one\"]
[[operation]]
name = \"read\"
response = [\"none\", \"zero\", \"one\"]
next = [\"none\", \"zero\", \"one\"]
"
}

#[test]
fn certificates_are_judged(rt: HostRuntime) -> Result<(), Fail> {
    let alloc = rt.alloc();
    let table = read_table(alloc, sticky_bit().as_bytes())?;
    let mut certificate = unread_certificate(&rt, alloc, &table)?;
    assert!(rt; certificate.at_least.is_none());
    assert!(rt; check_unread(alloc, &table, &certificate).is_ok());
    certificate.at_most = Some(3);
    let judged = check_unread(alloc, &table, &certificate);
    assert!(rt; judged == Err(UnreadCheckFault::BadNumber));
    certificate.at_most = None;
    certificate.least = LeastClaim::Alone;
    let judged = check_unread(alloc, &table, &certificate);
    assert!(rt; judged == Err(UnreadCheckFault::Least));
    Ok(())
}
