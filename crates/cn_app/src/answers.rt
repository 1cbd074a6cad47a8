//! The run of a list of events on a new log.
ghost use Rattle.std.specs.Prelude.{◌≡◌, ◌<◌, ◌≤◌, ◌+◌, ◌++◌, ◌∷◌, [], List, length, vec_capacity, vec_len, IfErr, IfOk, OnOk};
ghost use Rattle.cn_log.specs.Faults.{IsFirstEventFault, IsReplayFault};
ghost use Rattle.cn_log.specs.Linearized.{IsLinearized};
ghost use Rattle.cn_log.specs.Log.{IsEventList};
ghost use Rattle.cn_log.specs.Opening.{setting, setting_of};
ghost use Rattle.cn_log.specs.declared.event.Event.{Event as EventOf};
ghost use Rattle.cn_plan_text.specs.Log.{HaveResponses};
ghost use Rattle.cn_app.specs.Answers.{ends_after, ends_by};

use cn_log::laws::logs_are_linearized;
use cn_log::{CallEnd, Event, EventFault, LogCore, Opening, ReplayFault};
use std::alloc::Global;

/// The core after the events, and how they ended calls, each with its process, in order.
#[derive(Drop)]
pub(crate) struct ReplayHistory {
    pub core: LogCore,
    pub ends: Vec<(u8, CallEnd)>,
}

/// Takes one event into the core. If it ends the call of its process, appends how to `ends`.
fn come(core: &mut LogCore, event: Event, ends: &mut Vec<(u8, CallEnd)>) -> Result<(), EventFault>
    requires room { vec_len ends.old < vec_capacity ends.old }
    ensures core { OnOk result
        (core.new ≡ record core.old { schedule = core.old.schedule ++ event ∷ [] }) }
    ensures ends { OnOk result
        (ends.new.items ≡ ends.old.items ++ ends_by (setting core.old) core.old.schedule event) }
    ensures responses { OnOk result (HaveResponses core.old.opening.object
        (ends_by (setting core.old) core.old.schedule event)) }
    ensures first { IfErr result (λ fault. (rest : List EventOf)
        → IsFirstEventFault (setting core.old) (core.old.schedule ++ event ∷ rest) fault) }
    ensures few { length ends.new.items ≤ length ends.old.items + 1 }
    ensures room { vec_capacity ends.new ≡ vec_capacity ends.old }
{
    if let Some(end) = core.take(event)? {
        ends.push_reserved((event.process(), end));
    }
    Ok(())
}

/// Takes the events, one after the other, into a new log of this opening.
#[inline(never)]
pub(crate) fn answers_of(
    alloc: Global,
    opening: Opening,
    events: &[Event],
) -> Result<ReplayHistory, ReplayFault>
    ensures opening { IfOk result (λ replayed. replayed.core.opening ≡ opening) }
    ensures schedule { IfOk result (λ replayed. replayed.core.schedule ≡ events.now) }
    ensures ends { IfOk result (λ replayed. replayed.ends.items
        ≡ ends_after (setting_of opening) [] events.now) }
    ensures responses { IfOk result (λ replayed. HaveResponses opening.object replayed.ends.items) }
    ensures fault { IfErr result (IsReplayFault (setting_of opening) events.now) }
    ensures events { OnOk result (IsEventList (setting_of opening) events.now) }
    ensures linearized { OnOk result (IsLinearized (setting_of opening) events.now) }
{
    let mut core = LogCore::open(alloc, opening)?;
    let mut ends = Vec::with_capacity(alloc, events.len())?;
    for event in events {
        come(&mut core, *event, &mut ends)?;
    }
    logs_are_linearized(&core);
    Ok(ReplayHistory { core, ends })
}
