//! Tests of what no contract says: that a certificate is written and read where memory suffices.

use crate::{TreeCertFault, read_tree_certificate, write_tree_certificate};
use std::alloc::Global;
use std::test::Fail;

/// Three sticky bits for four processes.
fn four() -> &'static str {
    "{\"nodes\":[[0,false,[0,0,1,1],[2,2]],[0,false,[0,1],[1,1]],[0,false,[0,1],[1,1]]],\"processes\":4,\"steps\":6,\"type\":\"sticky_bit\",\"version\":5}"
}

#[test]
fn a_certificate_is_read_and_written(rt: HostRuntime) -> Result<(), Fail> {
    let alloc = rt.alloc();
    let certificate = read_tree_certificate(alloc, four().as_bytes())?;
    assert!(rt;
        certificate.nodes.len() == 3 && certificate.processes == 4 && certificate.steps == 6
    );
    let text = write_tree_certificate(alloc, &certificate)?;
    assert!(rt; text.as_str() == four());
    Ok(())
}

/// The fault of a text, if it has one.
fn fault(alloc: Global, text: &str) -> Option<TreeCertFault> {
    read_tree_certificate(alloc, text.as_bytes()).err()
}

#[test]
fn faults_of_texts(rt: HostRuntime) -> Result<(), Fail> {
    let empty = "{\"nodes\":[],\"processes\":2,\"steps\":3,\"type\":\"t\",\"version\":5}";
    let of_version_4 = "{\"nodes\":[],\"processes\":256,\"steps\":3,\"type\":\"t\",\"version\":4}";
    let too_great = "{\"nodes\":[],\"processes\":256,\"steps\":3,\"type\":\"t\",\"version\":5}";
    assert!(rt; fault(rt.alloc(), empty).is_none());
    assert!(rt; fault(rt.alloc(), "{") == Some(TreeCertFault::NotJson));
    assert!(rt; fault(rt.alloc(), "{}") == Some(TreeCertFault::WrongShape));
    assert!(rt; fault(rt.alloc(), of_version_4) == Some(TreeCertFault::Version));
    assert!(rt; fault(rt.alloc(), too_great) == Some(TreeCertFault::Range));
    Ok(())
}
