//! Tests of what no contract says: that a certificate is written and read where memory suffices.

use crate::{StockCertFault, read_stock_certificate, write_stock_certificate};
use std::alloc::Global;
use std::test::Fail;

/// Two processes, and no three, with a bit that is tested and set.
fn of_a_number() -> &'static str {
    "{\"at_least\":2,\"at_most\":2,\"least\":{\"witness\":[0,[0],[0]]},\"most\":[],\"type\":\"test_and_set\",\"version\":3}"
}

/// Every number of processes, with a sticky bit.
fn of_all_numbers() -> &'static str {
    "{\"at_least\":null,\"at_most\":null,\"least\":{\"lasting\":[0,0,1,[0,1],[1],[2]]},\"most\":null,\"type\":\"sticky_bit\",\"version\":3}"
}

/// One process, with a register: two joins.
fn of_one() -> &'static str {
    "{\"at_least\":1,\"at_most\":1,\"least\":null,\"most\":[[0,[0],0,[1,0],1],[1,[0,1],1,[1],0]],\"type\":\"binary_register\",\"version\":3}"
}

#[test]
fn certificates_are_read_and_written(rt: HostRuntime) -> Result<(), Fail> {
    let alloc = rt.alloc();
    for told in [of_a_number(), of_all_numbers(), of_one()] {
        let certificate = read_stock_certificate(alloc, told.as_bytes())?;
        let text = write_stock_certificate(alloc, &certificate)?;
        assert!(rt; text.as_str() == told);
    }
    Ok(())
}

/// The fault of a text, if it has one.
fn fault(alloc: Global, text: &str) -> Option<StockCertFault> {
    read_stock_certificate(alloc, text.as_bytes()).err()
}

#[test]
fn faults_of_texts(rt: HostRuntime) -> Result<(), Fail> {
    let two_keys =
        "{\"at_least\":1,\"at_most\":null,\"least\":{\"lasting\":[0,0,1,[],[],[]],\"witness\":[0,[],[]]},\"most\":null,\"type\":\"t\",\"version\":3}";
    let of_version_2 =
        "{\"at_least\":256,\"at_most\":null,\"least\":null,\"most\":null,\"type\":\"t\",\"version\":2}";
    let too_great =
        "{\"at_least\":256,\"at_most\":null,\"least\":null,\"most\":null,\"type\":\"t\",\"version\":3}";
    assert!(rt; fault(rt.alloc(), "{") == Some(StockCertFault::NotJson));
    assert!(rt; fault(rt.alloc(), "{}") == Some(StockCertFault::WrongShape));
    assert!(rt; fault(rt.alloc(), two_keys) == Some(StockCertFault::WrongShape));
    assert!(rt; fault(rt.alloc(), of_version_2) == Some(StockCertFault::Version));
    assert!(rt; fault(rt.alloc(), too_great) == Some(StockCertFault::Range));
    Ok(())
}
