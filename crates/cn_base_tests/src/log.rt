//! Cores by hand.
ghost use Rattle.std.specs.Prelude.{◌≤◌};
ghost use Rattle.cn_log.specs.declared.limits.TheConstants.{MOST_SLOTS};

use crate::fixtures::{counter, plan_for};
use cn_log::{CallEnd, Entry, Event, EventFault, LogCore, Opening, Reply, StepAnswer};
use cn_table::{Operation, Response, State};
use std::alloc::Global;
use std::process::Abort;
use std::test::Fail;

/// Whether the opening is that of two processes and a counter in its first state.
fn is_opening(opening: &Opening) -> bool {
    opening.plan().processes() == 2 && opening.object().states() == 3 && opening.start() == State(0)
}

/// A new core for two processes. Its object is the counter in its first state.
fn opened(rt: &impl Abort, alloc: Global, capacity: u16) -> Result<LogCore, Fail>
    requires some { 1 ≤ capacity }
    requires few { capacity ≤ MOST_SLOTS }
{
    let plan = plan_for(rt, alloc, 2)?;
    let object = counter(rt, alloc)?;
    let core = LogCore::open(alloc, Opening::new(plan, object, State(0), capacity))?;
    assert!(rt; is_opening(core.opening()));
    Ok(core)
}

/// The process makes a call.
fn invoke(rt: &impl Abort, core: &mut LogCore, p: u8) {
    assert!(rt; p < core.processes() && core.operations() > 0);
    assert!(rt; core.is_idle(p) && !core.at_end(p));
    core.invoke(p, Operation(0));
}

/// Takes this many steps of the process, and answers the last. No earlier step may end its call.
fn step(rt: &impl Abort, core: &mut LogCore, p: u8, times: u8) -> StepAnswer {
    let mut answer = StepAnswer::Working;
    for _step in 0..times {
        assert!(rt; answer == StepAnswer::Working && p < core.processes() && !core.is_idle(p));
        answer = core.step(p);
    }
    answer
}

/// The answer with this slot and this response.
fn answered(slot: u16, response: u8) -> StepAnswer {
    StepAnswer::Answered {
        slot,
        response: Response(response),
    }
}

/// The call of a process with this number.
fn entry(process: u8, call: u16) -> Entry {
    Entry {
        process,
        operation: Operation(0),
        call,
    }
}

/// Whether process p is idle, and has applied this many slots with this many entries.
fn rests(rt: &impl Abort, core: &LogCore, p: u8, replayed: u16, seen: u16) -> bool {
    assert!(rt; p < core.processes());
    core.is_idle(p)
        && !core.at_end(p)
        && (core.replayed(p), core.replayed_entries(p)) == (replayed, seen)
}

/// Whether the log of two processes and four slots has three entries, in the slots 0, 0 and 1.
fn has_three(core: &LogCore) -> bool {
    if core.entries() != [entry(0, 0), entry(1, 0), entry(0, 1)].as_slice() {
        return false;
    }
    let is_shaped = core.capacity() == 4 && core.fixed_slots() == 2 && core.schedule().len() == 21;
    is_shaped && (core.slot_at(0), core.slot_at(1), core.slot_at(2)) == (0, 0, 1)
}

/// The first slot takes the calls of both processes, and the next one takes another call.
#[test]
fn answers_for_a_log(rt: HostRuntime) -> Result<(), Fail> {
    let mut core = opened(&rt, rt.alloc(), 4)?;
    invoke(&rt, &mut core, 0);
    invoke(&rt, &mut core, 1);
    assert!(rt; step(&rt, &mut core, 1, 6) == answered(0, 1));
    assert!(rt; step(&rt, &mut core, 0, 6) == answered(0, 0));
    invoke(&rt, &mut core, 0);
    assert!(rt; step(&rt, &mut core, 0, 6) == answered(1, 2) && has_three(&core));
    assert!(rt; rests(&rt, &core, 0, 2, 3) && rests(&rt, &core, 1, 1, 2));
    Ok(())
}

/// Takes the event `before` times without an end of a call, and answers what it does the next time.
fn take(core: &mut LogCore, event: Event, before: u8) -> Result<Option<CallEnd>, EventFault> {
    for _time in 0..before {
        if let Some(end) = core.take(event)? {
            return Ok(Some(end));
        }
    }
    core.take(event)
}

/// Events of a log of one slot, in order. Each has how often it comes before, and its result then.
fn events_of_one_slot() -> [(Event, u8, Result<Option<CallEnd>, EventFault>); 10] {
    let answered = CallEnd::Answered(Reply {
        slot: 0,
        response: Response(0),
    });
    [
        (Event::Step(0), 0, Err(EventFault::Idle(0))),
        (Event::Step(2), 0, Err(EventFault::NoSuchProcess(0))),
        (Event::Invoke(0, 1), 0, Err(EventFault::NoSuchOperation(0))),
        (Event::Invoke(1, 0), 0, Ok(None)),
        (Event::Invoke(1, 0), 0, Err(EventFault::NotIdle(1))),
        (Event::Step(1), 4, Ok(None)),
        (Event::Step(1), 0, Ok(Some(answered))),
        (Event::Invoke(0, 0), 0, Ok(None)),
        (Event::Step(0), 5, Ok(Some(CallEnd::Full))),
        (Event::Invoke(1, 0), 0, Err(EventFault::AtEnd(14))),
    ]
}

/// Events, one at a time. A refused event leaves the core as it was.
#[test]
fn events_are_taken_or_refused(rt: HostRuntime) -> Result<(), Fail> {
    let mut core = opened(&rt, rt.alloc(), 1)?;
    for (event, before, expected) in events_of_one_slot() {
        assert!(rt; take(&mut core, event, before) == expected);
    }
    assert!(rt; core.schedule().len() == 14 && core.entries() == [entry(1, 0)].as_slice());
    Ok(())
}
