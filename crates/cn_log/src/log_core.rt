//! The core of a log.
ghost use Rattle.std.specs.Prelude.{◌≡◌, ◌<◌, ◌≤◌, ◌↔◌, ◌++◌, ◌∷◌, [], List, Some, length, slice_get, IfErr, IfOk, IfSome, OnErr, OnOk, IsFalse, IsTrue};
ghost use Rattle.std.specs.Vec.{vec_capacity};
ghost use Rattle.cn_proto.specs.Plan.{processes_of};
ghost use Rattle.cn_log.specs.declared.event.Event.{Event as EventOf};
ghost use Rattle.cn_log.specs.declared.event.Event.TheVariants.{Invoke, Step};
ghost use Rattle.cn_log.specs.declared.limits.TheConstants.{MOST_SLOTS};
ghost use Rattle.cn_log.specs.declared.caller_state.Phase.TheVariants.{Idle};
ghost use Rattle.cn_log.specs.CallEnds.{call_end, EndsWithResponse};
ghost use Rattle.cn_log.specs.Callers.{HasResponse, seen_of};
ghost use Rattle.cn_log.specs.Faults.{IsFirstEventFault, event_fault};
ghost use Rattle.cn_log.specs.Linearized.{entry_slots};
ghost use Rattle.cn_log.specs.Log.{MayCome, IsEventList, answer, batches, entries, state_of};
ghost use Rattle.cn_log.specs.Opening.{opening_of, setting, setting_of};
ghost use Rattle.cn_log.specs.OwnSteps.{event_room};
ghost use Rattle.cn_choice.specs.declared.limits.TheConstants.{MOST_PROCESSES};

use crate::caller_state::Phase;
use crate::entry::Entry;
use crate::event::{CallEnd, Event, StepAnswer};
use crate::fault::EventFault;
use crate::laws;
use crate::log_state::LogState;
use crate::next_event::{apply_event, fault_of};
use crate::opening::Opening;
use cn_proto::Plan;
use cn_table::{Operation, State, Table};
use std::alloc::{AllocError, Global};
use std::marker::Model;

/// The universal log over the rounds of a plan, for one object.
///
/// Its opening and its schedule determine it. The opening is a plan, an object, a start state and a
/// number of slots; the schedule is the list of all events so far. `new` and `open` make room for
/// all events, so no event takes memory.
#[derive(Drop)]
pub struct LogCore {
    pub(crate) opening: Box<Opening>,
    state: Box<LogState>,
    schedule: Vec<Event>,
}

impl Model for LogCore {
    ghost use Rattle.std.specs.Prelude.{◌≤◌};
    ghost use Rattle.std.specs.Vec.{vec_capacity};
    ghost use Rattle.cn_proto.specs.Plan.{processes_of};
    ghost use Rattle.cn_log.specs.Fields.{HasRoom, IsStateAfter};
    ghost use Rattle.cn_log.specs.Opening.{Log};
    ghost use Rattle.cn_log.specs.OwnSteps.{event_room};

    ghost Value = { Log };

    ghost view = { λ c. record { opening = c.opening.value; schedule = c.schedule.items } };

    ghost invariant = { λ c. IsStateAfter c.opening.value c.schedule.items c.state.value
        × HasRoom c.opening.value c.state.value
        × (event_room (processes_of c.opening.value.plan) c.opening.value.capacity
        ≤ vec_capacity c.schedule) };
}

impl LogCore {
    /// A core without events, with this plan and this table. The start state is one of the table's,
    /// and `capacity` is from 1 to [`MOST_SLOTS`](crate::MOST_SLOTS).
    ///
    /// # Errors
    ///
    /// `AllocError` if memory runs out.
    pub fn new(
        alloc: Global,
        plan: &Plan,
        object: &Table,
        start: State,
        capacity: u16,
    ) -> Result<LogCore, AllocError>
        requires start { start.0 < length object.now.states }
        requires some { 1 ≤ capacity }
        requires few { capacity ≤ MOST_SLOTS }
        // promise: new-log
        ensures opening { IfOk result (λ core. core.opening
            ≡ opening_of plan.now object.now start.0 capacity) }
        // promise: new-log
        ensures empty { IfOk result (λ core. core.schedule ≡ []) }
    {
        let (plan, object) = (plan.copy(alloc)?, object.copy(alloc)?);
        LogCore::open(alloc, Opening::new(plan, object, start, capacity))
    }

    /// A core of this opening without events.
    ///
    /// # Errors
    ///
    /// `AllocError` if memory runs out.
    pub fn open(alloc: Global, opening: Opening) -> Result<LogCore, AllocError>
        // promise: new-log
        ensures opening { IfOk result (λ core. core.opening ≡ opening) }
        // promise: new-log
        ensures empty { IfOk result (λ core. core.schedule ≡ []) }
    {
        let state = LogState::new(alloc, &opening)?;
        let schedule = empty_schedule(alloc, &opening)?;
        Ok(LogCore {
            opening: Box::new(alloc, opening)?,
            state: Box::new(alloc, state)?,
            schedule,
        })
    }

    /// Process `p` makes a call of an operation of the object. It is in no call, and has not
    /// replayed every slot.
    pub fn invoke(&mut self, p: u8, operation: Operation)
        requires { MayCome (setting self.old) (state_of (setting self.old) self.old.schedule)
            (Invoke p operation.0) }
        // promise: new-log
        ensures { self.new
            ≡ record self.old { schedule = self.old.schedule ++ Invoke p operation.0 ∷ [] } }
    {
        let event = Event::Invoke(p, operation.0);
        put_event(&mut self.schedule, &self.opening, event);
        self.state.invoke(&self.opening, p, operation);
    }

    /// Process `p`, which is in a call, takes one step. `Answered` answers its call, with its slot
    /// and a response of the object. `Full` ends the call without an answer, since every slot is
    /// fixed and none holds the call.
    #[inline(always)]
    pub fn step(&mut self, p: u8) -> StepAnswer
        requires { MayCome (setting self.old) (state_of (setting self.old) self.old.schedule)
            (Step p) }
        // promise: new-log
        ensures core { self.new ≡ record self.old { schedule = self.old.schedule ++ Step p ∷ [] } }
        // promise: step-of-a-log
        ensures answer { result ≡ answer (setting self.old) self.old.schedule p }
        // promise: step-of-a-log
        ensures range { HasResponse self.old.opening.object result }
    {
        put_event(&mut self.schedule, &self.opening, Event::Step(p));
        self.state.step(&self.opening, p)
    }

    /// Does any event, if it can come, and answers how it ended the call of its process, if it did.
    ///
    /// # Errors
    ///
    /// The fault of the event, with the number of events so far as its place. If it has several
    /// faults, the answer is the one with the least number. The core stays unchanged.
    pub fn take(&mut self, event: Event) -> Result<Option<CallEnd>, EventFault>
        // promise: events-of-a-core
        ensures came { OnOk result
            (MayCome (setting self.old) (state_of (setting self.old) self.old.schedule) event) }
        // promise: events-of-a-core
        ensures core { OnOk result (self.new
            ≡ record self.old { schedule = self.old.schedule ++ event ∷ [] }) }
        // promise: events-of-a-core (call_end)
        ensures end { IfOk result (λ end. end
            ≡ call_end (setting self.old) self.old.schedule event) }
        // promise: events-of-a-core (EndsWithResponse)
        ensures range { IfOk result (λ end. IfSome end (EndsWithResponse self.old.opening.object)) }
        // promise: events-of-a-core
        ensures fault { IfErr result (λ fault. event_fault (setting self.old)
            (state_of (setting self.old) self.old.schedule) (length self.old.schedule) event
            ≡ Some fault) }
        // promise: events-of-a-core
        ensures first { IfErr result (λ fault. (rest : List EventOf)
            → IsFirstEventFault (setting self.old) (self.old.schedule ++ event ∷ rest) fault) }
        // promise: events-of-a-core
        ensures same { OnErr result (self.new ≡ self.old) }
    {
        laws::logs_are_linearized(self);
        laws::faults_decide();
        match fault_of(self, event) {
            Some(fault) => Err(fault),
            None => Ok(apply_event(self, event)),
        }
    }

    /// The entries of the fixed slots, by slot, then by process.
    pub fn entries(&self) -> &[Entry]
        // promise: new-log
        // promise: parts-of-a-log
        ensures { result.now ≡ entries (setting self.now) self.now.schedule }
    {
        self.state.entries.as_slice()
    }

    /// The number of fixed slots, whether or not a process has replayed them.
    pub fn fixed_slots(&self) -> u16
        // promise: new-log
        // promise: parts-of-a-log
        ensures { result ≡ length (batches (setting self.now) self.now.schedule) }
    {
        self.state.fixed
    }

    /// The slot of entry `i` of the log.
    pub fn slot_at(&self, i: usize) -> u16
        requires { i < length (entries (setting self.now) self.now.schedule) }
        // promise: new-log
        // promise: parts-of-a-log
        ensures { Some result ≡ slice_get (entry_slots (setting self.now) self.now.schedule) i }
    {
        self.state.slots[i]
    }

    /// All events so far.
    pub fn schedule(&self) -> &[Event]
        // promise: new-log
        ensures { result.now ≡ self.now.schedule }
    {
        self.schedule.as_slice()
    }

    /// The opening of the log.
    pub fn opening(&self) -> &Opening
        // promise: new-log
        ensures { result.now ≡ self.now.opening }
    {
        &self.opening
    }

    /// The number of processes: 2 to 8.
    pub fn processes(&self) -> u8
        // promise: new-log
        ensures number { result ≡ processes_of self.now.opening.plan }
        // promise: new-log
        ensures range { (2 ≤ result) × (result ≤ MOST_PROCESSES) }
    {
        self.opening.plan.processes()
    }

    /// The number of slots: 1 to [`MOST_SLOTS`](crate::MOST_SLOTS).
    pub fn capacity(&self) -> u16
        // promise: new-log
        ensures number { result ≡ self.now.opening.capacity }
        // promise: new-log
        ensures range { (1 ≤ result) × (result ≤ MOST_SLOTS) }
    {
        self.opening.capacity
    }

    /// The number of operations of the object.
    pub fn operations(&self) -> u8
        // promise: new-log
        ensures { result ≡ length self.now.opening.object.operations }
    {
        self.opening.object.operations()
    }

    /// The number of slots that process `p` has replayed.
    // promise: parts-of-a-log
    pub fn replayed(&self, p: u8) -> u16
        requires { p < processes_of self.now.opening.plan }
        // promise: new-log
        ensures number { result
            ≡ length ((state_of (setting self.now) self.now.schedule).caller p).seen }
        // promise: new-log
        ensures range { result ≤ self.now.opening.capacity }
    {
        laws::openings_are_valid(&self.opening);
        self.state.callers[usize::from(p)].replayed_slots
    }

    /// The number of entries in the slots that process `p` has replayed.
    pub fn replayed_entries(&self, p: u8) -> u16
        requires { p < processes_of self.now.opening.plan }
        // promise: new-log
        // promise: parts-of-a-log
        ensures { result ≡ length (seen_of (setting self.now) self.now.schedule p) }
    {
        self.state.callers[usize::from(p)].replayed_entries
    }

    /// Whether process `p` is in no call.
    pub fn is_idle(&self, p: u8) -> bool
        requires { p < processes_of self.now.opening.plan }
        // promise: new-log
        ensures { IsTrue result
            ↔ (((state_of (setting self.now) self.now.schedule).caller p).phase ≡ Idle) }
    {
        matches!(self.state.callers[usize::from(p)].phase, Phase::Idle)
    }

    /// Whether process `p` has replayed every slot. Otherwise it has replayed fewer.
    pub fn at_end(&self, p: u8) -> bool
        requires { p < processes_of self.now.opening.plan }
        // promise: new-log
        ensures end { IsTrue result
            ↔ (length ((state_of (setting self.now) self.now.schedule).caller p).seen
            ≡ self.now.opening.capacity) }
        // promise: new-log
        ensures before { IsFalse result
            ↔ (length ((state_of (setting self.now) self.now.schedule).caller p).seen
            < self.now.opening.capacity) }
    {
        self.replayed(p) == self.opening.capacity
    }
}

/// No events, with room for all that can come.
fn empty_schedule(alloc: Global, opening: &Opening) -> Result<Vec<Event>, AllocError>
    ensures empty { IfOk result (λ schedule. schedule.items ≡ []) }
    ensures room { IfOk result (λ schedule. event_room (processes_of opening.now.plan)
        opening.now.capacity ≤ vec_capacity schedule) }
{
    laws::openings_are_valid(opening);
    let processes = usize::from(opening.plan.processes());
    let slot_cost = 5 * processes - 4;
    let slots = usize::from(opening.capacity);
    Vec::with_capacity(alloc, processes * (slots * (slot_cost + 1) + 1))
}

/// Pushes one event.
fn put_event(schedule: &mut Vec<Event>, opening: &Opening, event: Event)
    requires events { IsEventList (setting_of opening.now) schedule.old.items }
    requires room { event_room (processes_of opening.now.plan) opening.now.capacity
        ≤ vec_capacity schedule.old }
    ensures put { schedule.new.items ≡ schedule.old.items ++ event ∷ [] }
    ensures room { vec_capacity schedule.new ≡ vec_capacity schedule.old }
{
    laws::openings_are_valid(opening);
    laws::event_lists_are_linearized();
    schedule.push_reserved(event);
}
