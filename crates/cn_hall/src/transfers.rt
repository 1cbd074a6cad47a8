//! One removal of the core from the queue, or its return.
ghost use Rattle.std.specs.Prelude.{◌≡◌, Some, []};
ghost use Rattle.cn_hall.specs.Rule.{FitsItem, Holds, IsOneEventLater, IsOneSeatMore, MayPut, bare_view, first_view, holding_view, later_view, opened_view, seated_view};
ghost use Rattle.cn_hall.specs.declared.rule.PassStatus.TheVariants.{Live};
ghost use Rattle.crossbeam_queue.specs.Fifo.{Learns, Pushes};
ghost use Rattle.crossbeam_queue.specs.Passes.{view, IsPassOf, IsSamePass, ruled_capacity};

use crate::rule::{Item, Pass, Puts, Queue, Takes};
use std::sync::Wait;
use std::sync::atomic::{AtomicU64, Ordering};
use std::thread::Parker;
use std::time::Duration;

/// The number of looks for the core before a thread sleeps.
const LOOKS: u8 = 4;

/// The count of a thread between two looks. It takes about half a microsecond.
const SPINS: u32 = 100;

/// The sleep of a thread before it looks again, in microseconds.
const SLEEP: u64 = 50;

/// Takes the core out of the queue, and waits until it is there. Each look disturbs the thread that
/// has the core. So a thread that waits looks a few times and then sleeps. Then the other thread
/// does many events in a row, and the processor is free for others.
pub(crate) fn take<R: Wait>(rt: &R, queue: &Queue, pass: &mut Pass) -> Item
    requires queue { IsPassOf queue.now pass.old }
    requires live { (view pass.old).status ≡ Live }
    ensures same { IsSamePass pass.old pass.new }
    ensures held { view pass.new ≡ holding_view (view pass.old) result }
    ensures agrees { FitsItem (view pass.old) result }
{
    let mut looks = 0;
    for _ in rt.forever() {
        if let Some(item) = queue.try_pop_as::<Takes>(pass) {
            return item;
        }
        looks = if looks < LOOKS { looks + 1 } else { 0 };
        wait_awhile(rt, looks);
    }
    unreachable!()
}

/// Counts between the looks of one row, and sleeps before the first one of the next row.
fn wait_awhile<R: Wait>(rt: &R, looks: u8) {
    if looks == 0 {
        Parker::new().park_timeout(rt, Duration::from_micros(SLEEP));
    } else {
        spin();
    }
}

/// The count is atomic so that the compiler keeps it.
fn spin() {
    let count = AtomicU64::new(0);
    for _spin in 0..SPINS {
        count.fetch_add(1, Ordering::Relaxed);
    }
}

/// Puts an item in; its place is free. The first attempt fails only if another thread is in the
/// way.
fn put<R: Wait>(rt: &R, queue: &Queue, pass: &mut Pass, item: Item)
    requires queue { IsPassOf queue.now pass.old × (ruled_capacity queue.now ≡ 1) }
    requires may { Pushes Holds (ruled_capacity queue.now) pass.old.id (view pass.old) item
        (MayPut (view pass.old) item) }
    requires free { Learns Holds pass.old.id (view pass.old) (λ items. items ≡ []) }
    ensures same { IsSamePass pass.old pass.new }
    ensures put { MayPut (view pass.old) item (view pass.new) }
{
    let Err(item) = queue.try_push_as::<Puts>(pass, item) else {
        return;
    };
    let Ok(()) = queue.push_as::<Puts, R>(rt, pass, item) else {
        unreachable!()
    };
}

/// Puts the core back as it was.
pub(crate) fn put_back<R: Wait>(rt: &R, queue: &Queue, pass: &mut Pass, item: Item)
    requires queue { IsPassOf queue.now pass.old × (ruled_capacity queue.now ≡ 1) }
    requires live { (view pass.old).status ≡ Live }
    requires held { (view pass.old).held ≡ Some item }
    ensures same { IsSamePass pass.old pass.new }
    ensures now { view pass.new ≡ bare_view (view pass.old) }
{
    put(rt, queue, pass, item);
}

/// Puts the core in for the first time.
pub(crate) fn put_first<R: Wait>(rt: &R, queue: &Queue, pass: &mut Pass, item: Item)
    requires queue { IsPassOf queue.now pass.old × (ruled_capacity queue.now ≡ 1) }
    requires first { view pass.old ≡ first_view }
    requires one { item.seated ≡ 1 }
    ensures same { IsSamePass pass.old pass.new }
    ensures now { view pass.new ≡ opened_view item }
{
    put(rt, queue, pass, item);
}

/// Puts the core back, one event of the pass's process later.
pub(crate) fn put_step<R: Wait>(rt: &R, queue: &Queue, pass: &mut Pass, item: Item)
    requires queue { IsPassOf queue.now pass.old × (ruled_capacity queue.now ≡ 1) }
    requires live { (view pass.old).status ≡ Live }
    requires event { IsOneEventLater (view pass.old) item }
    ensures same { IsSamePass pass.old pass.new }
    ensures now { view pass.new ≡ later_view (view pass.old) item }
{
    put(rt, queue, pass, item);
}

/// Puts the core back, with one more process seated, in this pass.
pub(crate) fn put_seat<R: Wait>(rt: &R, queue: &Queue, pass: &mut Pass, item: Item)
    requires queue { IsPassOf queue.now pass.old × (ruled_capacity queue.now ≡ 1) }
    requires live { (view pass.old).status ≡ Live }
    requires count { IsOneSeatMore (view pass.old) item }
    ensures same { IsSamePass pass.old pass.new }
    ensures now { view pass.new ≡ seated_view (view pass.old) item }
{
    put(rt, queue, pass, item);
}
