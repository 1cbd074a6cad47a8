//! The hall, in which threads hand one core on.
ghost use Rattle.std.specs.Prelude.{◌≡◌, ◌≢◌, ◌<◌, ◌⊎◌, [], false, Some, None, All, Err, IfErr, IfOk, length};
ghost use Rattle.cn_log.specs.declared.entry.Entry.{Entry};
ghost use Rattle.cn_hall.specs.Answers.{AddsReply, own, replies_from};
ghost use Rattle.cn_hall.specs.Calls.{CallFails, MakesCall, EndsBy, GoesOn, HasOnlyMade, HasPlaced, HaveMet, IsReply, IsSameSeat, next_call, go_after};
ghost use Rattle.cn_log.specs.Callers.{BeginsWith, HasResponse};
ghost use Rattle.cn_hall.specs.Gates.{IsAsked, asked_times, steps_since};
ghost use Rattle.cn_hall.specs.Rule.{Carries};
ghost use Rattle.cn_hall.specs.Seats.{IsInvoke, IsSeatOf, IsStep, caller, caller_at, pending, entries_seen, slots_seen};
ghost use Rattle.cn_log.specs.Bypass.{IsBypassBounded};
ghost use Rattle.cn_log.specs.Linearized.{IsLinearized};
ghost use Rattle.cn_log.specs.Log.{batches, entries};
ghost use Rattle.cn_log.specs.OwnSteps.{IsWaitFree};
ghost use Rattle.cn_log.specs.Opening.{setting};
ghost use Rattle.std.specs.Ordering.{nat_cmp};
ghost use Rattle.cn_hall.specs.declared.call.CallFault.TheVariants.{LogFull};
ghost use Rattle.cn_hall.specs.declared.call.Go.TheVariants.{On};

use crate::call::{CallFault, Gate, Go};
use crate::laws::seats_have_their_calls;
use crate::rule::{Item, Joins, Queue};
use crate::seat::Seat;
use crate::{events, transfers};
use cn_log::laws::{
    callers_change_by_own_events, calls_are_in_order, event_lists_are_linearized,
    logs_are_linearized,
};
use cn_log::{LogCore, Reply, StepAnswer};
use cn_table::Operation;
use std::cmp::Ordering;
use std::marker::Model;
use std::sync::Wait;

/// The queue of one place through which the threads hand the core on.
#[derive(Drop)]
pub struct Hall {
    pub(crate) queue: Queue,
}

impl Model for Hall {
    ghost use Rattle.std.specs.Prelude.{◌≡◌};
    ghost use Rattle.cn_hall.specs.Seats.{HallId};
    ghost use Rattle.crossbeam_queue.specs.Passes.{ruled_capacity};

    ghost Value = { HallId };

    ghost view = { λ h. h.queue.table.shared.table_id };

    ghost invariant = { λ h. ruled_capacity h.queue ≡ 1 };
}

impl Hall {
    /// One step of the seat's process, which is in a call.
    fn step<R: Wait>(&self, rt: &R, seat: &mut Seat) -> StepAnswer
        requires of { IsSeatOf self.now seat.old }
        requires in_call { pending seat.old ≢ None }
        ensures same { IsSameSeat seat.old seat.new }
        ensures step { IsStep seat.old.process seat.old.core result seat.new.core }
        ensures range { HasResponse seat.old.core.opening.object result }
    {
        let process = seat.process;
        let (answer, standing) = events::step(rt, &self.queue, &mut seat.pass, process);
        seat.standing = standing;
        answer
    }

    /// The seat's process, which is in no call and has not seen every slot, makes a call.
    fn invoke<R: Wait>(&self, rt: &R, seat: &mut Seat, operation: Operation)
        requires of { IsSeatOf self.now seat.old }
        requires idle { pending seat.old ≡ None }
        requires operation { operation.0 < length seat.old.core.opening.object.operations }
        requires room { length (slots_seen seat.old) < seat.old.core.opening.capacity }
        ensures same { IsSameSeat seat.old seat.new }
        ensures invoked { IsInvoke seat.old.process operation.0 seat.old.core seat.new.core }
    {
        let process = seat.process;
        seat.standing = events::invoke(rt, &self.queue, &mut seat.pass, process, operation);
    }

    /// Goes on with the call of the seat. It asks the gate before each step.
    ///
    /// # Errors
    ///
    /// `LogFull` if every slot is fixed and none holds the call, which is then over. `Stopped` if
    /// the gate says so; the seat stays in its call.
    pub fn resume<R: Wait, G: Gate>(
        &self,
        rt: &R,
        seat: &mut Seat,
        gate: &mut G,
    ) -> Result<Reply, CallFault>
        requires of { IsSeatOf self.now seat.old }
        requires in_call { pending seat.old ≢ None }
        requires gate { G.says gate.old ≡ On }
        // promise: calls-of-a-hall
        ensures same { IsSameSeat seat.old seat.new }
        // promise: calls-of-a-hall (GoesOn)
        ensures events { GoesOn seat.old.process seat.old.core seat.new.core }
        // promise: calls-of-a-hall
        ensures seen { BeginsWith (entries_seen seat.new) (entries_seen seat.old) }
        // promise: reply-of-a-call (IsReply)
        ensures reply { IfOk result (λ r. (mine : Entry) → pending seat.old ≡ Some mine
            → IsReply mine seat.new r) }
        // promise: full-log (EndsBy)
        // promise: stopped-call
        ensures fault { IfErr result (λ e. (mine : Entry) → pending seat.old ≡ Some mine
            → EndsBy mine e seat.new) }
        // promise: reply-of-a-call
        ensures own { AddsReply (own seat.old) (own seat.new) result }
        // promise: calls-of-a-seat
        ensures calls { HasPlaced seat.new result }
        // promise: reply-of-a-call
        ensures range { IfOk result (λ r. r.response.0
            < length seat.old.core.opening.object.responses) }
        // promise: stopped-call
        ensures said { G.says gate.new ≡ go_after result }
        // promise: questions-to-a-gate (IsAsked, HasTaken: steps, last, history; asked_times)
        ensures asked { (mine : Entry) → pending seat.old ≡ Some mine
            → IsAsked G.asks G.says mine seat.old seat.new.core
            (asked_times result (steps_since seat.old.process seat.old.core seat.new.core))
            gate.old gate.new }
    {
        seats_have_their_calls(seat);
        event_lists_are_linearized();
        callers_change_by_own_events();
        calls_are_in_order();
        let mut step: u32 = 0;
        for _ in rt.forever() {
            step += 1;
            if let Go::Stop = ask(gate, seat, step) {
                return Err(CallFault::Stopped);
            }
            match self.step(rt, seat) {
                StepAnswer::Working => (),
                StepAnswer::Answered { slot, response } => {
                    return Ok(Reply { slot, response });
                }
                StepAnswer::Full => return Err(CallFault::LogFull),
            }
        }
        unreachable!()
    }

    /// Makes a call of an operation of the object for the seat's process, which is in no call.
    ///
    /// # Errors
    ///
    /// `LogFull` at once, without an event or a question to the gate, if the seat has seen every
    /// slot. Otherwise those of `resume`.
    pub fn call<R: Wait, G: Gate>(
        &self,
        rt: &R,
        seat: &mut Seat,
        operation: Operation,
        gate: &mut G,
    ) -> Result<Reply, CallFault>
        requires of { IsSeatOf self.now seat.old }
        requires idle { pending seat.old ≡ None }
        requires operation { operation.0 < length seat.old.core.opening.object.operations }
        requires gate { G.says gate.old ≡ On }
        // promise: calls-of-a-hall
        ensures same { IsSameSeat seat.old seat.new }
        // promise: calls-of-a-hall
        ensures seen { BeginsWith (entries_seen seat.new) (entries_seen seat.old) }
        // promise: calls-of-a-hall (MakesCall)
        // promise: reply-of-a-call (IsReply)
        ensures reply { IfOk result (λ r. MakesCall seat.old.process operation.0 seat.old.core
            seat.new.core × IsReply (next_call seat.old operation.0) seat.new r) }
        // promise: calls-of-a-hall (CallFails)
        // promise: full-log (CallFails, EndsBy)
        // promise: stopped-call
        ensures fault { IfErr result (λ e. CallFails operation.0 e seat.old seat.new) }
        // promise: full-log
        ensures told { length (slots_seen seat.old) ≡ seat.old.core.opening.capacity
            → (result ≡ Err LogFull) × (seat.new ≡ seat.old) × (gate.new ≡ gate.old) }
        // promise: reply-of-a-call
        ensures own { AddsReply (own seat.old) (own seat.new) result }
        // promise: calls-of-a-seat
        ensures calls { HasPlaced seat.new result }
        // promise: reply-of-a-call
        ensures range { IfOk result (λ r. r.response.0
            < length seat.old.core.opening.object.responses) }
        // promise: stopped-call
        ensures said { G.says gate.new ≡ go_after result }
        // promise: questions-to-a-gate (IsAsked, HasTaken: steps, last, history; asked_times)
        ensures asked { IsAsked G.asks G.says (next_call seat.old operation.0) seat.old
            seat.new.core
            (asked_times result (steps_since seat.old.process seat.old.core seat.new.core)) gate.old
            gate.new }
    {
        seats_have_their_calls(seat);
        callers_change_by_own_events();
        calls_are_in_order();
        if seat.standing.slots == seat.capacity {
            return Err(CallFault::LogFull);
        }
        self.invoke(rt, seat, operation);
        self.resume(rt, seat, gate)
    }

    /// Compares how much two seats have seen. One has seen all that the other has seen, and perhaps
    /// more.
    pub fn meet<R: Wait>(&self, rt: &R, first: &mut Seat, second: &mut Seat) -> Ordering
        requires of { IsSeatOf self.now first.old × IsSeatOf self.now second.old }
        // promise: meeting-of-seats
        ensures same { (first.new ≡ first.old) × (second.new ≡ second.old) }
        // promise: meeting-of-seats
        ensures opening { second.old.core.opening ≡ first.old.core.opening }
        // promise: meeting-of-seats
        ensures met { HaveMet first.old second.old }
        // promise: meeting-of-seats
        ensures made { HasOnlyMade first.old second.old × HasOnlyMade second.old first.old }
        // promise: meeting-of-seats
        ensures seen { BeginsWith (entries_seen second.old) (entries_seen first.old)
            ⊎ BeginsWith (entries_seen first.old) (entries_seen second.old) }
        // promise: meeting-of-seats
        ensures order { result
            ≡ nat_cmp (length (entries_seen first.old)) (length (entries_seen second.old)) }
    {
        let (one, two) = (first.process, second.process);
        events::look(rt, &self.queue, &mut first.pass, &mut second.pass, one);
        events::look(rt, &self.queue, &mut second.pass, &mut first.pass, two);
        callers_change_by_own_events();
        calls_are_in_order();
        first.standing.entries.cmp(&second.standing.entries)
    }

    /// Takes the core out for good. The core carries each seat's core further, without an event of
    /// the seat's process since. So the process has replayed there exactly what the seat has seen,
    /// and the log begins with this. The log of all threads is linearized, and keeps the bypass
    /// bound and the bound on own steps.
    pub fn close<R: Wait>(self, rt: &R, seats: Vec<Seat>) -> LogCore
        requires of { All (IsSeatOf self) seats.items }
        requires some { 0 < length seats.items }
        // promise: core-of-a-closed-hall
        ensures carries { All (λ s. Carries s.process s.core result) seats.items }
        // promise: core-of-a-closed-hall
        ensures replayed { All (λ s. caller_at result s.process ≡ caller s) seats.items }
        // promise: core-of-a-closed-hall
        ensures linearized { IsLinearized (setting result) result.schedule }
        // promise: core-of-a-closed-hall
        ensures bypass { IsBypassBounded (setting result) result.schedule }
        // promise: core-of-a-closed-hall
        ensures wait_free { IsWaitFree (setting result) result.schedule }
        // promise: core-of-a-closed-hall
        ensures slots { All
            (λ s. BeginsWith (batches (setting result) result.schedule) (slots_seen s))
            seats.items }
        // promise: core-of-a-closed-hall
        ensures entries { All
            (λ s. BeginsWith (entries (setting result) result.schedule) (entries_seen s))
            seats.items }
        // promise: core-of-a-closed-hall
        ensures answers { All (λ s. BeginsWith
            (replies_from (setting result) s.process [] (batches (setting result) result.schedule))
            (own s)) seats.items }
    {
        let Hall { queue } = self;
        let mut seats = seats;
        let Some(last) = seats.pop() else {
            unreachable!()
        };
        let Seat { mut pass, .. } = last;
        while let Some(seat) = seats.pop() {
            let Seat { pass: other, .. } = seat;
            queue.absorb::<Joins>(&mut pass, other);
        }
        let Item { core, .. } = transfers::take(rt, &queue, &mut pass);
        logs_are_linearized(&core);
        callers_change_by_own_events();
        core
    }
}

/// Asks the gate about the step of this number.
fn ask<G: Gate>(gate: &mut G, seat: &Seat, step: u32) -> Go
    requires free { seat.now.held ≡ false }
    ensures said { result ≡ G.says gate.new }
    ensures asked { G.asks gate.old seat.now step gate.new }
{
    gate.before(seat, step)
}
