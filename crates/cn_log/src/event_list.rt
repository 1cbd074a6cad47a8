//! The core after a list of events.
ghost use Rattle.std.specs.Prelude.{◌≡◌, ◌<◌, ◌≤◌, ◌++◌, [], List, length, IfErr, IfOk};
ghost use Rattle.cn_log.specs.declared.event.Event.{Event as EventOf};
ghost use Rattle.cn_log.specs.declared.limits.TheConstants.{MOST_SLOTS};
ghost use Rattle.cn_log.specs.Bypass.{IsBypassBounded};
ghost use Rattle.cn_log.specs.Faults.{IsFirstEventFault, IsReplayFault};
ghost use Rattle.cn_log.specs.Linearized.{BeginsInTurn, Grows, IsLinearized};
ghost use Rattle.cn_log.specs.Log.{IsEventList};
ghost use Rattle.cn_log.specs.Opening.{opening_of, setting, setting_of};
ghost use Rattle.cn_log.specs.OwnSteps.{IsWaitFree};

use crate::event::Event;
use crate::fault::{EventFault, ReplayFault};
use crate::laws;
use crate::log_core::LogCore;
use cn_proto::Plan;
use cn_table::{State, Table};
use std::alloc::Global;

/// The core after these events, one after the other, from a new core of this plan and this table.
/// It is for callers that have the whole list, such as a stored schedule. The start state is one of
/// the table's, and `capacity` is from 1 to [`MOST_SLOTS`](crate::MOST_SLOTS).
///
/// # Errors
///
/// The fault of the first event that cannot come, with its place in the list. If it has several
/// faults, the answer is the one with the least number. `OutOfMemory` if memory runs out.
pub fn replay(
    alloc: Global,
    plan: &Plan,
    object: &Table,
    start: State,
    capacity: u16,
    events: &[Event],
) -> Result<LogCore, ReplayFault>
    requires start { start.0 < length object.now.states }
    requires some { 1 ≤ capacity }
    requires few { capacity ≤ MOST_SLOTS }
    // promise: replay
    ensures opening { IfOk result (λ core. core.opening
        ≡ opening_of plan.now object.now start.0 capacity) }
    // promise: replay
    ensures schedule { IfOk result (λ core. core.schedule ≡ events.now) }
    // promise: replay (IsReplayFault)
    ensures fault { IfErr result (λ fault. IsReplayFault
        (setting_of (opening_of plan.now object.now start.0 capacity)) events.now fault) }

    // Without a fault, these events can come, and the log is well-formed.
    // promise: replay
    ensures events { IfOk result (λ core. IsEventList (setting core) core.schedule) }
    // promise: linearized-logs (1)
    ensures linearized { IfOk result (λ core. IsLinearized (setting core) core.schedule) }
    // promise: linearized-logs
    ensures grows { IfOk result (λ core. (before after : List EventOf)
        → core.schedule ≡ before ++ after → Grows (setting core) before after) }
    // promise: linearized-logs (2)
    ensures in_turn { IfOk result (λ core. BeginsInTurn (setting core) core.schedule) }
    // promise: linearized-logs (3)
    ensures bypass { IfOk result (λ core. IsBypassBounded (setting core) core.schedule) }
    // promise: linearized-logs (4)
    ensures wait_free { IfOk result (λ core. IsWaitFree (setting core) core.schedule) }
{
    let core = LogCore::new(alloc, plan, object, start, capacity)?;
    Ok(replay_on(core, events)?)
}

/// The core after these events, one after the other, from a core without events. It takes no
/// memory. [`LogCore::take`] does one event and answers how it ends a call.
///
/// # Errors
///
/// The fault of the first event that cannot come, with its place in the list. If it has several
/// faults, the answer is the one with the least number.
pub fn replay_on(core: LogCore, events: &[Event]) -> Result<LogCore, EventFault>
    requires empty { core.schedule ≡ [] }
    // promise: replay
    ensures opening { IfOk result (λ r. r.opening ≡ core.opening) }
    // promise: replay
    ensures schedule { IfOk result (λ r. r.schedule ≡ events.now) }
    // promise: replay (IsFirstEventFault)
    ensures fault { IfErr result
        (λ fault. IsFirstEventFault (setting core) events.now fault) }

    // Without a fault, these events can come, and the log is well-formed.
    // promise: replay
    ensures events { IfOk result (λ r. IsEventList (setting r) r.schedule) }
    // promise: linearized-logs (1)
    ensures linearized { IfOk result (λ r. IsLinearized (setting r) r.schedule) }
    // promise: linearized-logs
    ensures grows { IfOk result (λ r. (before after : List EventOf)
        → r.schedule ≡ before ++ after → Grows (setting r) before after) }
    // promise: linearized-logs (2)
    ensures in_turn { IfOk result (λ r. BeginsInTurn (setting r) r.schedule) }
    // promise: linearized-logs (3)
    ensures bypass { IfOk result (λ r. IsBypassBounded (setting r) r.schedule) }
    // promise: linearized-logs (4)
    ensures wait_free { IfOk result (λ r. IsWaitFree (setting r) r.schedule) }
{
    let mut core = core;
    for event in events {
        core.take(*event)?;
    }
    laws::logs_are_linearized(&core);
    Ok(core)
}
