//! What a call hands back where memory is short.
use super::*;
use crate::certificates::found_test_and_set_at_3;
use crate::fixtures::{events_of, table_of};
use crate::hall::core_after;
use crate::types::test_and_set;
use cn_cert::{Certificate, write_certificate};
use cn_hall::{OpenFault, open};
use cn_log::Event;
use cn_search::find;
use std::process::Abort;
use std::test::Fail;

/// The certificate is made in the end, from the finding that came back.
#[test]
fn a_finding_comes_back(rt: HostRuntime) -> Result<(), Fail> {
    let alloc = rt.alloc();
    let table = table_of(alloc, test_and_set())?;
    let mut finding = find(&rt, alloc, &table, 3)?;
    for number in 1..MANY {
        let refusing = Refusing::new(alloc, REFUSE_ONE + number);
        let made = Certificate::of_finding(alloc, &table, finding);
        let is_met = refusing.is_met();
        match made {
            Ok(certificate) => {
                let text = write_certificate(alloc, &certificate)?;
                assert!(rt; text.as_str() == found_test_and_set_at_3());
                return Ok(());
            }
            Err(back) => {
                assert!(rt; is_met);
                finding = back;
            }
        }
    }
    Err("never made")?
}

/// The core comes back with its entries and its schedule, until a hall is opened over it.
#[test]
fn a_core_comes_back(rt: HostRuntime) -> Result<(), Fail> {
    let alloc = rt.alloc();
    let events = events_of(alloc, &[(Event::Invoke(0, 0), 1), (Event::Step(0), 6)])?;
    let mut core = core_after(&rt, alloc, 2, 4, &events)?;
    for number in 1..MANY {
        let refusing = Refusing::new(alloc, REFUSE_ONE + number);
        let opened = open(&rt, alloc, core);
        let is_met = refusing.is_met();
        match opened {
            Ok((hall, seats)) => {
                assert!(rt; seats.len() == 2);
                let closed = hall.close(&rt, seats);
                assert!(rt; closed.schedule() == events.as_slice() && closed.fixed_slots() == 1);
                return Ok(());
            }
            Err(OpenFault::OutOfMemory(back)) => {
                assert!(rt; is_met && back.schedule() == events.as_slice());
                core = back;
            }
        }
    }
    Err("never opened")?
}
