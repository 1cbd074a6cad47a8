//! The next event: why it cannot come, or its effect.
ghost use Rattle.std.specs.Prelude.{◌≡◌, ◌++◌, ◌∷◌, [], length, IfSome};
ghost use Rattle.cn_log.specs.CallEnds.{call_end, EndsWithResponse};
ghost use Rattle.cn_log.specs.Faults.{event_fault};
ghost use Rattle.cn_log.specs.Log.{MayCome, state_of};
ghost use Rattle.cn_log.specs.Opening.{setting};

use crate::event::{CallEnd, Event};
use crate::fault::EventFault;
use crate::log_core::LogCore;
use cn_table::Operation;

/// The fault of the event as the next one, if it cannot come.
pub(crate) fn fault_of(core: &LogCore, event: Event) -> Option<EventFault>
    ensures { result
        ≡ event_fault (setting core.now) (state_of (setting core.now) core.now.schedule)
        (length core.now.schedule) event }
{
    let place = core.schedule().len() as u64;
    if event.process() >= core.processes() {
        return Some(EventFault::NoSuchProcess(place));
    }
    match event {
        Event::Invoke(p, operation) => {
            if operation >= core.operations() {
                Some(EventFault::NoSuchOperation(place))
            } else if !core.is_idle(p) {
                Some(EventFault::NotIdle(place))
            } else if core.at_end(p) {
                Some(EventFault::AtEnd(place))
            } else {
                None
            }
        }
        Event::Step(p) => {
            if core.is_idle(p) {
                Some(EventFault::Idle(place))
            } else {
                None
            }
        }
    }
}

/// Does the event, which can come, and answers how it ends a call, if it does.
pub(crate) fn apply_event(core: &mut LogCore, event: Event) -> Option<CallEnd>
    requires { MayCome (setting core.old) (state_of (setting core.old) core.old.schedule) event }
    ensures core { core.new ≡ record core.old { schedule = core.old.schedule ++ event ∷ [] } }
    ensures end { result ≡ call_end (setting core.old) core.old.schedule event }
    ensures range { IfSome result (EndsWithResponse core.old.opening.object) }
{
    match event {
        Event::Invoke(p, operation) => {
            core.invoke(p, Operation(operation));
            None
        }
        Event::Step(p) => core.step(p).end(),
    }
}
