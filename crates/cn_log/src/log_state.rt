//! The fields that events change, and the steps of a process.
ghost use Rattle.std.specs.Prelude.{◌≡◌, ◌<◌, ◌≤◌, ◌+◌, ◌*◌, Some, [], ◌∷◌, ◌++◌, ℕ, length, IfOk, None, List, replicate};
ghost use Rattle.std.specs.Vec.{vec_capacity};
ghost use Rattle.std.specs.Vec.{vec_len};
ghost use Rattle.cn_table.specs.Run.{state_after as run_of};
ghost use Rattle.cn_table.specs.TypeTable.{transition};
ghost use Rattle.cn_proto.specs.Plan.{processes_of};
ghost use Rattle.cn_agree.specs.Rounds.{fixed_value};
ghost use Rattle.cn_log.specs.Batches.{and_entry, entry_at, members, entries_in, slots_from};
ghost use Rattle.cn_log.specs.declared.batch.Batch.{Batch as BatchOf};
ghost use Rattle.cn_log.specs.declared.entry.Entry.{Entry as EntryOf};
ghost use Rattle.cn_log.specs.declared.event.Event.{Event as EventOf};
ghost use Rattle.cn_log.specs.declared.event.Event.TheVariants.{Invoke, Step};
ghost use Rattle.cn_log.specs.declared.limits.TheConstants.{MOST_SLOTS, MOST_ENTRIES};
ghost use Rattle.cn_log.specs.declared.caller_state.Phase.TheVariants.{Idle, Looks, Runs};
ghost use Rattle.cn_log.specs.Callers.{HasResponse};
ghost use Rattle.cn_log.specs.Fields.{count_at, next_batch, step_answer, HasRoom, HasSameRoom, IsStateAfter, IsStateAt};
ghost use Rattle.cn_log.specs.Log.{MayInvoke, MayStep, answer, first_look, operations_of, phase_after, state_of};
ghost use Rattle.cn_log.specs.Opening.{setting_of};
ghost use Rattle.cn_choice.specs.declared.limits.TheConstants.{MOST_PROCESSES};

use crate::batch::{Batch, put_batch, state_after};
use crate::call_counts::CallCounts;
use crate::caller_state::{CallerState, Phase};
use crate::entry::Entry;
use crate::event::StepAnswer;
use crate::laws::openings_are_valid;
use crate::opening::Opening;
use cn_agree::Round;
use cn_table::{Operation, Response, State};
use std::alloc::{AllocError, Global};
use std::marker::Model;

/// The round of each slot, the announcement of each process, the progress of each process, the
/// entries of the fixed slots, each with its slot, and the number of fixed slots.
#[derive(Drop)]
pub(crate) struct LogState {
    pub rounds: Vec<Round<Batch>>,
    pub announced: Vec<Option<Entry>>,
    pub callers: Vec<CallerState>,
    pub entries: Vec<Entry>,
    pub slots: Vec<u16>,
    pub fixed: u16,
}

impl Model for LogState {
    ghost use Rattle.std.specs.Vec.{vec_capacity};
    ghost use Rattle.cn_log.specs.Fields.{LogFields};

    ghost Value = { LogFields };

    ghost view = { λ s. record {
      rounds = s.rounds.items;
      announced = s.announced.items;
      callers = s.callers.items;
      entries = s.entries.items;
      slots = s.slots.items;
      fixed = s.fixed;
      entries_room = vec_capacity s.entries;
      slots_room = vec_capacity s.slots;
    } };
}

impl LogState {
    /// The state before any event.
    pub fn new(alloc: Global, opening: &Opening) -> Result<LogState, AllocError>
        ensures keeps { IfOk result (λ state. IsStateAfter opening.now [] state) }
        ensures room { IfOk result (λ state. HasRoom opening.now state) }
    {
        openings_are_valid(opening);
        let processes = usize::from(opening.plan.processes());
        let none = CallerState {
            replayed_slots: 0,
            replayed_entries: 0,
            calls_seen: CallCounts::new(),
            calls: 0,
            phase: Phase::Idle,
            state: opening.start,
        };
        Ok(LogState {
            rounds: untouched_rounds(alloc, opening)?,
            announced: Vec::from_elem(alloc, None, processes)?,
            callers: Vec::from_elem(alloc, none, processes)?,
            entries: Vec::with_capacity(alloc, processes * usize::from(opening.capacity))?,
            slots: Vec::with_capacity(alloc, processes * usize::from(opening.capacity))?,
            fixed: 0,
        })
    }

    /// Process p makes a call.
    pub fn invoke(&mut self, opening: &Opening, p: u8, operation: Operation)
        requires { (s : List EventOf) × IsStateAfter opening.now s self.old
            × MayInvoke (setting_of opening.now) (state_of (setting_of opening.now) s) p
            operation.0 }
        ensures room { HasSameRoom self.old self.new }
        ensures keeps { (s : List EventOf) → IsStateAfter opening.now s self.old
            → MayInvoke (setting_of opening.now) (state_of (setting_of opening.now) s) p operation.0
            → IsStateAfter opening.now (s ++ Invoke p operation.0 ∷ []) self.new }
    {
        openings_are_valid(opening);
        let here = &mut self.callers[usize::from(p)];
        let entry = Entry {
            process: p,
            operation,
            call: here.calls,
        };
        here.calls += 1;
        here.phase = first_look(entry);
        self.announced[usize::from(p)] = Some(entry);
    }

    /// One step of process p, which is in a call.
    #[inline(always)]
    pub fn step(&mut self, opening: &Opening, p: u8) -> StepAnswer
        requires room { HasRoom opening.now self.old }
        requires may { (s : List EventOf) × IsStateAfter opening.now s self.old
            × MayStep (setting_of opening.now) (state_of (setting_of opening.now) s) p }
        ensures room { HasSameRoom self.old self.new }
        ensures keeps { (s : List EventOf) → IsStateAfter opening.now s self.old
            → MayStep (setting_of opening.now) (state_of (setting_of opening.now) s) p
            → IsStateAfter opening.now (s ++ Step p ∷ []) self.new }
        ensures answer { (s : List EventOf) → IsStateAfter opening.now s self.old
            → MayStep (setting_of opening.now) (state_of (setting_of opening.now) s) p
            → result ≡ answer (setting_of opening.now) s p }
        ensures range { HasResponse opening.now.object result }
    {
        match self.callers[usize::from(p)].phase {
            Phase::Idle => unreachable!(),
            Phase::Looks(_, q, _) => {
                self.look(opening, p, q);
                StepAnswer::Working
            }
            Phase::Runs(mine) => self.run(opening, p, mine),
        }
    }

    /// The process reads the announcement of process q. After that of the last process, it begins
    /// with its batch in the round of its next slot.
    fn look(&mut self, opening: &Opening, p: u8, q: u8)
        requires { (s : List EventOf) × (mine : EntryOf) × (batch : BatchOf)
            × IsStateAt opening.now s self.old p (Looks mine q batch) }
        ensures room { HasSameRoom self.old self.new }
        ensures keeps { (s : List EventOf) (mine : EntryOf) (batch : BatchOf)
            → IsStateAt opening.now s self.old p (Looks mine q batch)
            → IsStateAfter opening.now (s ++ Step p ∷ []) self.new }
    {
        openings_are_valid(opening);
        let here = &mut self.callers[usize::from(p)];
        let announced = self.announced[usize::from(q)];
        here.look(q, announced);
        if q + 1 == opening.plan.processes() {
            let round = &mut self.rounds[usize::from(here.replayed_slots)];
            round.begin(p, here.begin());
        }
    }

    /// The process takes one atomic step in the round of its next slot, and replays the batch if it
    /// decides.
    // A function of its own, so that a look does not pay for its locals on the stack.
    #[inline(always)]
    fn run(&mut self, opening: &Opening, p: u8, mine: Entry) -> StepAnswer
        requires room { HasRoom opening.now self.old }
        requires at { (s : List EventOf) × IsStateAt opening.now s self.old p (Runs mine) }
        ensures room { HasSameRoom self.old self.new }
        ensures keeps { (s : List EventOf) → IsStateAt opening.now s self.old p (Runs mine)
            → IsStateAfter opening.now (s ++ Step p ∷ []) self.new }
        ensures answer { (s : List EventOf) → IsStateAt opening.now s self.old p (Runs mine)
            → result ≡ answer (setting_of opening.now) s p }
        ensures range { HasResponse opening.now.object result }
    {
        openings_are_valid(opening);
        let here = &mut self.callers[usize::from(p)];
        let slot = here.replayed_slots;
        let round = &mut self.rounds[usize::from(slot)];
        round.step(&opening.plan, p);
        let processes = opening.plan.processes();
        enter(
            &mut self.entries,
            &mut self.slots,
            &mut self.fixed,
            processes,
            slot,
            round,
        );
        // Only a step that decides copies a batch.
        match round.decision(p) {
            None => StepAnswer::Working,
            Some(batch) => replay_batch(opening, here, mine, &batch),
        }
    }
}

/// A round for each slot, without steps.
fn untouched_rounds(alloc: Global, opening: &Opening) -> Result<Vec<Round<Batch>>, AllocError>
    ensures { IfOk result (λ rounds. rounds.items
        ≡ replicate opening.now.capacity (setting_of opening.now).untouched) }
{
    let mut rounds = Vec::with_capacity(alloc, usize::from(opening.capacity))?;
    for _slot in 0..opening.capacity {
        rounds.push_reserved(Round::new(alloc, &opening.plan)?);
    }
    Ok(rounds)
}

/// A process with this call pending goes on to its next slot.
fn first_look(mine: Entry) -> Phase
    ensures { result ≡ first_look mine }
{
    Phase::Looks(mine, 0, Batch::new())
}

/// If the slot is the next one and its round has just fixed a batch, pushes the entries of this
/// batch.
fn enter(
    entries: &mut Vec<Entry>,
    slots: &mut Vec<u16>,
    fixed: &mut u16,
    processes: u8,
    slot: u16,
    round: &Round<Batch>,
)
    requires processes { processes ≤ MOST_PROCESSES }
    requires slot { slot < MOST_SLOTS }
    requires room { fixed.old ≡ slot → vec_len entries.old + processes ≤ vec_capacity entries.old }
    requires slots_room { fixed.old ≡ slot
        → vec_len slots.old + processes ≤ vec_capacity slots.old }
    ensures entries { entries.new.items
        ≡ entries.old.items
        ++ entries_in processes (next_batch fixed.old slot (fixed_value round.now)) }
    ensures slots { slots.new.items
        ≡ slots.old.items
        ++ slots_from processes slot (next_batch fixed.old slot (fixed_value round.now)) }
    ensures fixed { fixed.new
        ≡ fixed.old + length (next_batch fixed.old slot (fixed_value round.now)) }
    ensures room { vec_capacity entries.new ≡ vec_capacity entries.old }
    ensures slots_room { vec_capacity slots.new ≡ vec_capacity slots.old }
{
    if *fixed == slot
        && let Some(batch) = round.fixed()
    {
        put_batch(entries, slots, processes, slot, &batch);
        *fixed += 1;
    }
}

/// The process, with this call of its own pending, replays the batch of its next slot.
#[inline(never)]
fn replay_batch(opening: &Opening, here: &mut CallerState, mine: Entry, batch: &Batch) -> StepAnswer
    requires slot { here.old.replayed_slots < opening.now.capacity }
    requires few { opening.now.capacity ≤ MOST_SLOTS }
    requires replayed_entries { here.old.replayed_entries ≤ MOST_ENTRIES }
    requires calls_places { length here.old.calls_seen.calls ≡ MOST_PROCESSES }
    requires calls_seen { (q : ℕ) → q < processes_of opening.now.plan
        → count_at here.old.calls_seen q ≤ MOST_ENTRIES }
    requires mine { mine.process < processes_of opening.now.plan }
    requires operation { mine.operation.0 < length opening.now.object.operations }
    requires operations { (q : ℕ) (e : EntryOf) → entry_at batch.now q ≡ Some e
        → e.operation.0 < length opening.now.object.operations }
    requires state { here.old.state.0 < length opening.now.object.states }
    ensures replayed_slots { here.new.replayed_slots ≡ here.old.replayed_slots + 1 }
    ensures replayed_entries { here.new.replayed_entries
        ≡ here.old.replayed_entries
        + length (members (processes_of opening.now.plan) 0 batch.now) }
    ensures calls_places { length here.new.calls_seen.calls ≡ MOST_PROCESSES }
    ensures calls_seen { (q : ℕ) → q < processes_of opening.now.plan
        → count_at here.new.calls_seen q
        ≡ count_at here.old.calls_seen q + length (and_entry (entry_at batch.now q) []) }
    ensures calls { here.new.calls ≡ here.old.calls }
    ensures phase { here.new.phase
        ≡ phase_after (setting_of opening.now) here.old.replayed_slots mine batch.now }
    ensures state { here.new.state.0
        ≡ run_of opening.now.object here.old.state.0
        (operations_of (members (processes_of opening.now.plan) 0 batch.now)) }
    ensures known { here.new.state.0 < length opening.now.object.states }
    ensures answer { result
        ≡ step_answer (setting_of opening.now) here.old.replayed_slots here.old.state.0 mine
        batch.now }
    ensures range { HasResponse opening.now.object result }
{
    let processes = opening.plan.processes();
    let slot = here.replayed_slots;
    let (phase, answer) = if batch.has(mine) {
        let response = response_at(opening, here.state, batch, mine);
        (Phase::Idle, StepAnswer::Answered { slot, response })
    } else if slot + 1 == opening.capacity {
        (Phase::Idle, StepAnswer::Full)
    } else {
        (first_look(mine), StepAnswer::Working)
    };
    here.replay(&opening.object, processes, batch);
    here.replayed_slots = slot + 1;
    here.phase = phase;
    answer
}

/// The response to this call at its place in the batch, if the object was in this state before the
/// batch.
fn response_at(opening: &Opening, state: State, batch: &Batch, mine: Entry) -> Response
    requires mine { mine.process ≤ MOST_PROCESSES }
    requires operation { mine.operation.0 < length opening.now.object.operations }
    requires operations { (q : ℕ) (e : EntryOf) → entry_at batch.now q ≡ Some e
        → e.operation.0 < length opening.now.object.operations }
    requires state { state.0 < length opening.now.object.states }
    ensures number { result.0 ≡ (transition opening.now.object mine.operation.0
        (run_of opening.now.object state.0
        (operations_of (members mine.process 0 batch.now)))).0 }
    ensures range { result.0 < length opening.now.object.responses }
{
    let before = state_after(&opening.object, mine.process, batch, state);
    opening.object.apply(mine.operation, before).0
}
