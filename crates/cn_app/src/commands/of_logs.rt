//! The commands that serve an object.
ghost use Rattle.std.specs.Prelude.{◌≡◌, ◌⊎◌, ℕ, map};
ghost use Rattle.cn_hall.specs.declared.call.Go.TheVariants.{On};
ghost use Rattle.cn_io.specs.Arguments.Calls.{calls_in};
ghost use Rattle.cn_io.specs.Arguments.Events.{events_in, words_of};
ghost use Rattle.cn_app.specs.Commands.Replay.{HasReplayReport, IsReplayReport, SpellEvents};
ghost use Rattle.cn_app.specs.Commands.Serve.{HasServeReport, IsServeReport, SpellCalls};
ghost use Rattle.cn_io.specs.Texts.Openings.{AreArgumentsUnread, HaveReadAll};
ghost use Rattle.cn_service.specs.Workers.{EachHasOneGate};
ghost use Rattle.cn_io.specs.Streams.Writing.{IsWritable, Reports};

use crate::reports::{replay_report, serve_report};
use cn_form::AnswerForm;
use cn_hall::Gate;
use cn_io::readers::{OpeningArguments, read_opening};
use cn_io::{
    AppFault, EventList, ListText, OperationWord, Outcome, Output, Report, calls_in, read_calls,
    read_capacity, read_events,
};
use cn_log::Opening;
use std::alloc::Global;
use std::io::{Read, Write};
use std::sync::Wait;
use std::thread::Threads;

/// What there is to say of the events of a list, by the operations of the object.
fn event_report(
    alloc: Global,
    opening: Opening,
    list: EventList<'_>,
    form: AnswerForm,
) -> Result<Report, AppFault>
    ensures { IsReplayReport form opening (events_in opening.object (words_of list.entry)) result }
{
    let events = list.events_in(alloc, opening.object())?;
    replay_report(alloc, opening, &events, form)
}

/// What there is to say of the calls of these lists, by the operations of the object.
fn call_report<T: Threads + Wait + Sync, G: Gate + Send + Drop, F: Fn(u8) -> G>(
    rt: &T,
    alloc: Global,
    opening: Opening,
    lists: &[Vec<OperationWord<'_>>],
    form: AnswerForm,
    make_gate: F,
) -> Result<Report, AppFault>
    requires gates { F.IsAlwaysCallable make_gate }
    requires on { (p : ℕ) (g : _) → F.post make_gate p g → G.says g ≡ On }
    ensures { IsServeReport (EachHasOneGate G.asks G.says (λ p g. F.post make_gate p g)) form
        opening (calls_in opening.object (map (λ list. list.items) lists.now)) result }
{
    let calls = calls_in(alloc, lists, opening.object())?;
    serve_report(rt, alloc, opening, &calls, form, make_gate)
}

/// Opens a log for an object, serves the object by the events, and writes a line for each call that
/// is answered or that finds no slot, and then a line for each entry of the log
/// ([`replay_report`]).
///
/// `events` are written as for [`read_events`]; a name is that of an operation of the object
/// ([`EventList::events_in`]).
///
/// # Errors
///
/// The first of these: the capacity, then `events`, is not spelled as it should be or has too many
/// items, and then no text is touched; those of [`read_opening`]; an event cannot come; the writer
/// fails. Want of memory can stand in place of any answer but that for the capacity.
pub fn replay<R: Read, C: Read, O: Read, W: Write>(
    alloc: Global,
    given: &mut OpeningArguments<'_, R, C, O>,
    output: &mut Output<W>,
    events: &ListText<'_>,
    form: AnswerForm,
) -> Result<Outcome, AppFault>
    requires given { AreArgumentsUnread given.old }
    requires output { IsWritable output.old }

    // promise: order-of-checks (HaveReadAll: certificate_order, object_order)
    ensures read { HaveReadAll R.remaining C.remaining O.remaining given.old given.new }
    // promise: order-of-checks
    ensures order { (given.new ≡ given.old) ⊎ SpellEvents given.old.capacity.now events.now }
    // promise: log-by-replay (HasReplayReport: IsServed: may_come, linearized, written, log_lines,
    //     log_text, log_object, ended)
    // promise: refusals-of-lists (IsEventFault, GivesStart)
    // promise: operations-of-lists (HasReplayReport: events_in, event_in, operation_in)
    // promise: list-of-an-argument
    // promise: slots-of-an-argument (GivesCapacity: capacity_of)
    ensures served { Reports W.contents (HasReplayReport given.new events.now form)
        output.old output.new result }
{
    let slots = read_capacity(given.capacity)?;
    let list = read_events(alloc, events)?;
    let opening = read_opening(alloc, given, slots)?;
    output.report(event_report(alloc, opening, list, form))
}

/// Opens a log for an object, serves the object by threads that make the calls, and writes for each
/// process a line for each of its calls, then a line for each entry of the log, and last a line
/// with the events ([`serve_report`]).
///
/// `calls` are written as for [`read_calls`]; a name is that of an operation of the object
/// ([`calls_in`]).
///
/// # Errors
///
/// The first of these: the capacity, then `calls`, is not spelled as it should be, and then no text
/// is touched; those of [`read_opening`]; those of [`serve_report`]; the writer fails. Want of
/// memory can stand in place of any answer but that for the capacity.
pub fn serve<T, R: Read, C: Read, O: Read, W: Write, G, F>(
    rt: &T,
    alloc: Global,
    given: &mut OpeningArguments<'_, R, C, O>,
    output: &mut Output<W>,
    calls: &ListText<'_>,
    form: AnswerForm,
    make_gate: F,
) -> Result<Outcome, AppFault>
where
    T: Threads + Wait + Sync,
    G: Gate + Send + Drop,
    F: Fn(u8) -> G,
    requires given { AreArgumentsUnread given.old }
    requires output { IsWritable output.old }
    requires gates { F.IsAlwaysCallable make_gate }
    requires on { (p : ℕ) (g : _) → F.post make_gate p g → G.says g ≡ On }

    // promise: order-of-checks (HaveReadAll: certificate_order, object_order)
    ensures read { HaveReadAll R.remaining C.remaining O.remaining given.old given.new }
    // promise: order-of-checks
    ensures order { (given.new ≡ given.old) ⊎ SpellCalls given.old.capacity.now calls.now }
    // promise: refusals-of-lists (IsServeReport: calls_fit)
    // promise: log-by-serve (HasServeReport: IsServedByThreads: linearized, bypass, wait_free,
    //     served, written, service_text, service_object; HasServed: made, replied, range)
    // promise: answers-by-serve (HasServed: made, ended; IsServedByThreads: ended)
    // promise: gates-by-serve (IsServedByThreads: gated, written; HasOneGate: made_for, first,
    //     carried, asked, IsCallWithGate; go_at)
    // promise: operations-of-lists (HasServeReport: calls_in, operation_in)
    // promise: slots-of-an-argument (GivesCapacity: capacity_of)
    ensures served { Reports W.contents
        (HasServeReport (EachHasOneGate G.asks G.says (λ p g. F.post make_gate p g)) given.new
        calls.now form)
        output.old output.new result }
{
    let slots = read_capacity(given.capacity)?;
    let lists = read_calls(alloc, calls)?;
    let opening = read_opening(alloc, given, slots)?;
    output.report(call_report(rt, alloc, opening, &lists, form, make_gate))
}
