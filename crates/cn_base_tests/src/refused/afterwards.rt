//! A log that is made and a hall that is open want no memory: every allocation is refused, and none
//! is asked for.
use super::*;
use crate::fixtures::events_of;
use crate::gates::StopsAt;
use crate::hall::{call, core_after, one_within_another, opened, reply, resume};
use cn_hall::{AlwaysOn, CallFault, Go};
use cn_log::{Event, LogCore};
use std::cmp::Ordering;
use std::process::Abort;
use std::test::Fail;

/// Whether the core takes each of the events.
fn takes_all(core: &mut LogCore, events: &[Event]) -> bool {
    for event in events {
        if core.take(*event).is_err() {
            return false;
        }
    }
    true
}

#[test]
fn events_of_a_log(rt: HostRuntime) -> Result<(), Fail> {
    let alloc = rt.alloc();
    let events = events_of(alloc, &one_within_another(0, 0, 1, 6, 6))?;
    let mut core = core_after(&rt, alloc, 2, 4, &[])?;
    let refusing = Refusing::new(alloc, REFUSE_ALL + 1);
    let is_whole = takes_all(&mut core, &events) && core.entries().len() == 2;
    let is_met = refusing.is_met();
    assert!(rt; is_whole && !is_met);
    Ok(())
}

/// Call 1 is stopped before its third step, then comes call 0, and then the rest of call 1.
#[test]
fn calls_of_a_hall(rt: HostRuntime) -> Result<(), Fail> {
    let alloc = rt.alloc();
    let (hall, mut zero, mut one) = opened(&rt, alloc, 2, 4, &[])?;
    let mut seats = Vec::with_capacity(alloc, 2)?;
    let mut gate = StopsAt {
        stop: 3,
        last: Go::On,
    };
    let refusing = Refusing::new(alloc, REFUSE_ALL + 1);
    let stopped = call(&rt, &hall, &mut one, &mut gate);
    let first = call(&rt, &hall, &mut zero, &mut AlwaysOn);
    let second = resume(&rt, &hall, &mut one, &mut AlwaysOn);
    let order = hall.meet(&rt, &mut zero, &mut one);
    seats.push_reserved(zero);
    seats.push_reserved(one);
    let core = hall.close(&rt, seats);
    let is_met = refusing.is_met();
    assert!(rt; stopped == Err(CallFault::Stopped) && !is_met);
    assert!(rt; first == reply(0, 0) && second == reply(0, 1) && order == Ordering::Equal);
    assert!(rt; core.schedule().len() == 14);
    Ok(())
}
