//! Acceptance in one pass, and a certificate of a version that no text has.
use crate::certificates::found_test_and_set_at_3;
use crate::fixtures::table_of;
use crate::types::{idle, sticky_bit, test_and_set, three_shot};
use cn_cert::{read_certificate, read_frame};
use cn_check::{CheckFault, accepts, check};
use cn_find_text::find_text;
use cn_table::Table;
use std::alloc::Global;
use std::process::Abort;
use std::test::Fail;
use std::thread::Threads;

/// Whether the certificate that is found is accepted in one pass over its entries.
fn is_accepted_in_one_pass<T: Threads + Sync>(
    rt: &T,
    alloc: Global,
    table: &Table,
    limit: u8,
) -> Result<bool, Fail> {
    let text = find_text(rt, alloc, table, limit)?;
    match read_frame(alloc, text.as_bytes()) {
        Some(frame) => Ok(accepts(table, &frame.certificate, frame.entries)),
        None => Ok(false),
    }
}

#[test]
fn written_certificates_are_accepted_in_one_pass(rt: HostRuntime) -> Result<(), Fail> {
    for text in [test_and_set(), idle(), sticky_bit(), three_shot()] {
        let table = table_of(rt.alloc(), text)?;
        for limit in 2..6 {
            assert!(rt; is_accepted_in_one_pass(&rt, rt.alloc(), &table, limit)?);
        }
    }
    Ok(())
}

#[test]
fn there_are_two_versions(rt: HostRuntime) -> Result<(), Fail> {
    let table = table_of(rt.alloc(), test_and_set())?;
    let mut certificate = read_certificate(rt.alloc(), found_test_and_set_at_3().as_bytes())?;
    for version in [0, 3, 255] {
        certificate.version = version;
        assert!(rt; check(&table, &certificate) == Err(CheckFault::BadNumber));
    }
    certificate.version = 2;
    assert!(rt; check(&table, &certificate) == Ok(()));
    Ok(())
}
