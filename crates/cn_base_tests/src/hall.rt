//! Calls on one thread, and calls that overlap on two.
ghost use Rattle.std.specs.Prelude.{◌≡◌, ◌≤◌, ◌<◌, IfOk, length};
ghost use Rattle.cn_choice.specs.declared.limits.TheConstants.{MOST_PROCESSES};
ghost use Rattle.cn_log.specs.declared.limits.TheConstants.{MOST_SLOTS};
ghost use Rattle.cn_proto.specs.Plan.{processes_of};
ghost use Rattle.cn_hall.specs.Seats.{IsSeatOf};
ghost use Rattle.cn_hall.specs.declared.call.Go.TheVariants.{On};

use crate::fixtures::{counter, events_of, plan_for};
use crate::gates::{Holds, StopsAt, WritesDown, comes_to};
use cn_hall::{AlwaysOn, CallFault, Gate, Go, Hall, Reply, Seat, open};
use cn_log::{Event, LogCore, replay};
use cn_table::{Operation, Response, State};
use std::alloc::{AllocError, Global};
use std::cmp::Ordering as Order;
use std::process::Abort;
use std::sync::Wait;
use std::sync::atomic::{AtomicU32, Ordering};
use std::test::Fail;
use std::thread::{Threads, join};

/// A core for n processes after these events. The counter starts at 0.
pub(super) fn core_after(
    rt: &impl Abort,
    alloc: Global,
    n: u8,
    capacity: u16,
    events: &[Event],
) -> Result<LogCore, Fail>
    requires some { (2 ≤ n) × (1 ≤ capacity) }
    requires few { (n ≤ MOST_PROCESSES) × (capacity ≤ MOST_SLOTS) }
    ensures processes { IfOk result (λ core. processes_of core.opening.plan ≡ n) }
    ensures operation { IfOk result (λ core. 0 < length core.opening.object.operations) }
{
    let plan = plan_for(rt, alloc, n)?;
    let object = counter(rt, alloc)?;
    let core = replay(alloc, &plan, &object, State(0), capacity, events)?;
    assert!(rt; core.operations() == 1);
    Ok(core)
}

/// A hall over a core for n processes after these events, and the seats of the last two.
pub(super) fn opened<R: Wait + Abort>(
    rt: &R,
    alloc: Global,
    n: u8,
    capacity: u16,
    events: &[Event],
) -> Result<(Hall, Seat, Seat), Fail>
    requires some { (2 ≤ n) × (1 ≤ capacity) }
    requires few { (n ≤ MOST_PROCESSES) × (capacity ≤ MOST_SLOTS) }
    ensures of { IfOk result (λ r. IsSeatOf r.0 r.1 × IsSeatOf r.0 r.2) }
    ensures operation { IfOk result (λ r. (0 < length r.1.core.opening.object.operations)
        × (0 < length r.2.core.opening.object.operations)) }
{
    let core = core_after(rt, alloc, n, capacity, events)?;
    let Ok((hall, mut seats)) = open(rt, alloc, core) else {
        panic!(rt; "no memory")
    };
    let Some(last) = seats.pop() else {
        unreachable!()
    };
    let Some(other) = seats.pop() else {
        unreachable!()
    };
    Ok((hall, other, last))
}

/// Makes a call of the seat's process, which is in no call.
pub(super) fn call<R: Wait + Abort, G: Gate>(
    rt: &R,
    hall: &Hall,
    seat: &mut Seat,
    gate: &mut G,
) -> Result<Reply, CallFault>
    requires of { IsSeatOf hall.now seat.old }
    requires operation { 0 < length seat.old.core.opening.object.operations }
    requires gate { G.says gate.old ≡ On }
    ensures of { IsSeatOf hall.now seat.new }
    ensures operation { 0 < length seat.new.core.opening.object.operations }
{
    assert!(rt; !seat.in_call());
    hall.call(rt, seat, Operation(0), gate)
}

/// Makes a call with a gate that always says On, and asserts its reply.
fn assert_call<R: Wait + Abort>(
    rt: &R,
    hall: &Hall,
    seat: &mut Seat,
    expected: Result<Reply, CallFault>,
)
    requires of { IsSeatOf hall.now seat.old }
    requires operation { 0 < length seat.old.core.opening.object.operations }
    ensures of { IsSeatOf hall.now seat.new }
    ensures operation { 0 < length seat.new.core.opening.object.operations }
{
    let found = call(rt, hall, seat, &mut AlwaysOn);
    assert!(rt; found == expected);
}

/// Goes on with the call of the seat's process.
pub(super) fn resume<R: Wait + Abort, G: Gate>(
    rt: &R,
    hall: &Hall,
    seat: &mut Seat,
    gate: &mut G,
) -> Result<Reply, CallFault>
    requires of { IsSeatOf hall.now seat.old }
    requires gate { G.says gate.old ≡ On }
    ensures { IsSeatOf hall.now seat.new }
{
    assert!(rt; seat.in_call());
    hall.resume(rt, seat, gate)
}

/// The reply with this slot and this response.
pub(super) fn reply(slot: u16, response: u8) -> Result<Reply, CallFault> {
    Ok(Reply {
        slot,
        response: Response(response),
    })
}

/// Closes the hall with these two seats, and asserts that its schedule has these events, each this
/// many times.
fn close<R: Wait + Abort>(
    rt: &R,
    alloc: Global,
    hall: Hall,
    other: Seat,
    last: Seat,
    parts: &[(Event, u8)],
) -> Result<(), AllocError>
    requires { IsSeatOf hall other × IsSeatOf hall last }
{
    let mut seats = Vec::with_capacity(alloc, 2)?;
    seats.push_reserved(other);
    seats.push_reserved(last);
    let core = hall.close(rt, seats);
    let expected = events_of(alloc, parts)?;
    assert!(rt; core.schedule() == expected.as_slice());
    Ok(())
}

/// The events of a call within another: the outer call with its steps before, the inner call with
/// its steps, and the outer call's steps after.
pub(super) fn one_within_another(
    outer: u8,
    before: u8,
    inner: u8,
    steps: u8,
    after: u8,
) -> [(Event, u8); 5] {
    [
        (Event::Invoke(outer, 0), 1),
        (Event::Step(outer), before),
        (Event::Invoke(inner, 0), 1),
        (Event::Step(inner), steps),
        (Event::Step(outer), after),
    ]
}

/// A gate stops the call of the last of n processes before step `stop`. Then comes a call of the
/// process before it, and then the rest of the last one's call, if there is one. Asserts the replies
/// of both, how their seats compare, and the events; a slot costs either of them 5 n - 4 steps.
fn stops_at<R: Wait + Abort>(
    rt: &R,
    alloc: Global,
    n: u8,
    stop: u8,
    slots: u8,
    replies: (Result<Reply, CallFault>, Result<Reply, CallFault>),
    order: Order,
) -> Result<(), Fail>
    requires some { 2 ≤ n }
    requires few { n ≤ MOST_PROCESSES }
{
    let (hall, mut other, mut last) = opened(rt, alloc, n, 4, &[])?;
    let mut gate = StopsAt {
        stop: u32::from(stop),
        last: Go::On,
    };
    let begun = call(rt, &hall, &mut last, &mut gate);
    assert!(rt; last.in_call() == (begun == Err(CallFault::Stopped)));
    let first = call(rt, &hall, &mut other, &mut AlwaysOn);
    let second = if last.in_call() {
        resume(rt, &hall, &mut last, &mut AlwaysOn)
    } else {
        begun
    };
    assert!(rt; first == replies.0 && second == replies.1);
    assert!(rt; hall.meet(rt, &mut other, &mut last) == order);
    let (before, after) = (stop.saturating_sub(1), (5 * n - 3).saturating_sub(stop));
    let parts = one_within_another(
        n - 1,
        before,
        n - 2,
        (5 * n - 4).saturating_mul(slots),
        after,
    );
    close(rt, alloc, hall, other, last, &parts)?;
    Ok(())
}

/// The call that is stopped has applied an operation once it has taken n + 2 steps.
#[test]
fn resumes_a_call_stopped_before_each_step(rt: HostRuntime) -> Result<(), Fail> {
    for n in [2u8, 5, 6, 7] {
        assert!(rt; 2 <= n && n <= 8);
        for stop in 1..5 * n - 2 {
            let (slots, replies, order) = if stop <= n + 2 {
                (1, (reply(0, 0), reply(0, 1)), Order::Equal)
            } else {
                (2, (reply(1, 1), reply(0, 0)), Order::Greater)
            };
            stops_at(&rt, rt.alloc(), n, stop, slots, replies, order)?;
        }
    }
    Ok(())
}

/// A gate holds call 1 before step 3 until call 0 is answered. Call 0 begins while it holds.
fn overlap<R: Threads + Wait + Sync + Abort>(
    rt: &R,
    hall: &Hall,
    zero: Seat,
    one: Seat,
) -> (
    (Seat, Result<Reply, CallFault>),
    (Seat, Result<Reply, CallFault>),
)
    requires of { IsSeatOf hall.now zero × IsSeatOf hall.now one }
    requires operation { (0 < length zero.core.opening.object.operations)
        × (0 < length one.core.opening.object.operations) }
    ensures { IsSeatOf hall.now result.0.0 × IsSeatOf hall.now result.1.0 }
{
    let begun = AtomicU32::new(0);
    let done = AtomicU32::new(0);
    let (begun, done) = (&begun, &done);
    join(
        rt,
        move || -> (Seat, Result<Reply, CallFault>)
            requires { IsSeatOf hall.now zero × (0 < length zero.core.opening.object.operations) }
            ensures { IsSeatOf hall.entry.now result.0 }
        {
            let mut zero = zero;
            let begins = comes_to(begun, 1);
            let reply = call(rt, hall, &mut zero, &mut AlwaysOn);
            done.store(u32::from(begins), Ordering::SeqCst);
            (zero, reply)
        },
        move || -> (Seat, Result<Reply, CallFault>)
            requires { IsSeatOf hall.now one × (0 < length one.core.opening.object.operations) }
            ensures { IsSeatOf hall.entry.now result.0 }
        {
            let mut one = one;
            let mut gate = Holds {
                counted: begun,
                counts_at: 3,
                awaited: done,
                holds_at: 3,
                number: 1,
                last: Go::On,
            };
            let reply = call(rt, hall, &mut one, &mut gate);
            (one, reply)
        },
    )
}

#[test]
fn calls_overlap(rt: HostRuntime) -> Result<(), Fail> {
    let alloc = rt.alloc();
    let (hall, zero, one) = opened(&rt, alloc, 2, 4, &[])?;
    let ((mut zero, first), (mut one, second)) = overlap(&rt, &hall, zero, one);
    assert!(rt; first == reply(0, 0) && second == reply(0, 1));
    assert!(rt; zero.seen_len() == 2 && one.seen_len() == 2);
    assert!(rt; hall.meet(&rt, &mut zero, &mut one) == Order::Equal);
    let parts = one_within_another(1, 2, 0, 6, 4);
    close(&rt, alloc, hall, zero, one, &parts)?;
    Ok(())
}

#[test]
fn finds_the_log_full(rt: HostRuntime) -> Result<(), Fail> {
    let alloc = rt.alloc();
    let (hall, mut zero, mut one) = opened(&rt, alloc, 2, 1, &[])?;
    assert_call(&rt, &hall, &mut one, reply(0, 0));
    assert_call(&rt, &hall, &mut zero, Err(CallFault::LogFull));
    assert_call(&rt, &hall, &mut zero, Err(CallFault::LogFull));
    assert_call(&rt, &hall, &mut one, Err(CallFault::LogFull));
    assert!(rt; zero.seen_slots() == 1 && zero.seen_len() == 1 && !zero.in_call());
    let parts = [
        (Event::Invoke(1, 0), 1),
        (Event::Step(1), 6),
        (Event::Invoke(0, 0), 1),
        (Event::Step(0), 6),
    ];
    close(&rt, alloc, hall, zero, one, &parts)?;
    Ok(())
}

#[test]
fn opens_over_a_core_in_a_call(rt: HostRuntime) -> Result<(), Fail> {
    let alloc = rt.alloc();
    let before = [(Event::Invoke(0, 0), 1), (Event::Step(0), 3)];
    let events = events_of(alloc, &before)?;
    let (hall, mut zero, mut one) = opened(&rt, alloc, 2, 4, &events)?;
    assert!(rt; zero.in_call() && zero.seen_slots() == 0 && !one.in_call());
    assert_call(&rt, &hall, &mut one, reply(0, 1));
    assert!(rt; resume(&rt, &hall, &mut zero, &mut AlwaysOn) == reply(0, 0));
    let parts = one_within_another(0, 3, 1, 6, 3);
    close(&rt, alloc, hall, zero, one, &parts)?;
    Ok(())
}

/// The questions of a call over two slots, six steps in each, and room for four more.
fn questions() -> [(u32, u16); 16] {
    [
        (1, 0),
        (2, 0),
        (3, 0),
        (4, 0),
        (5, 0),
        (6, 0),
        (7, 1),
        (8, 1),
        (9, 1),
        (10, 1),
        (11, 1),
        (12, 1),
        (0, 0),
        (0, 0),
        (0, 0),
        (0, 0),
    ]
}

/// The hall closes without the other seat.
#[test]
fn asks_before_each_step_of_two_slots(rt: HostRuntime) -> Result<(), Fail> {
    let (hall, mut zero, mut one) = opened(&rt, rt.alloc(), 2, 4, &[])?;
    let mut seats = Vec::with_capacity(rt.alloc(), 1)?;
    assert_call(&rt, &hall, &mut zero, reply(0, 0));
    let mut gate = WritesDown {
        asked: [(0, 0); 16],
        times: 0,
    };
    assert!(rt; call(&rt, &hall, &mut one, &mut gate) == reply(1, 1));
    assert!(rt; gate.times == 12 && gate.asked.as_slice() == questions().as_slice());
    seats.push_reserved(one);
    assert!(rt; hall.close(&rt, seats).schedule().len() == 7 + 13);
    Ok(())
}
