//! Batches, which the slots of the log take.
ghost use Rattle.std.specs.Prelude.{◌≡◌, ◌≤◌, ◌<◌, ◌+◌, ◌++◌, ℕ, Some, length};
ghost use Rattle.cn_log.specs.Batches.{no_entries, each_slot, entry_at, has, members, with_entry};
ghost use Rattle.cn_log.specs.declared.entry.Entry.{Entry as EntryOf};
ghost use Rattle.std.specs.Vec.{vec_len, vec_capacity};
ghost use Rattle.cn_table.specs.Run.{state_after as run_of};
ghost use Rattle.cn_log.specs.Fields.{batch_with_calls};
ghost use Rattle.cn_log.specs.Log.{operations_of};
ghost use Rattle.cn_choice.specs.declared.limits.TheConstants.{MOST_PROCESSES};

use crate::entry::Entry;
use cn_choice::MOST_PROCESSES;
use cn_table::{Operation, State, Table};

/// The calls that a slot takes: of each process one at most.
///
/// Rounds copy a batch to each register that it reaches, so it is small. The places of the other
/// processes hold 0.
#[derive(Clone, Copy, Debug, PartialEq, Eq)]
pub struct Batch {
    /// At the place of each process with a call here, the number of this call among those of the
    /// process.
    calls: [u16; MOST_PROCESSES],
    /// The operation of this call.
    operations: [Operation; MOST_PROCESSES],
    /// The processes that have a call here, as bits.
    callers: u8,
}

impl Batch {
    /// The empty batch.
    pub(crate) fn new() -> Batch
        ensures { result ≡ no_entries }
    {
        Batch {
            calls: [0; MOST_PROCESSES],
            operations: [Operation(0); MOST_PROCESSES],
            callers: 0,
        }
    }

    /// The entry of process `p`.
    pub(crate) fn of(&self, p: u8) -> Option<Entry>
        requires { p < MOST_PROCESSES }
        ensures { result ≡ entry_at self.now p }
    {
        if self.callers >> p & 1 == 1 {
            Some(Entry {
                process: p,
                operation: self.operations[usize::from(p)],
                call: self.calls[usize::from(p)],
            })
        } else {
            None
        }
    }

    /// Whether the entry is in the batch.
    pub(crate) fn has(&self, entry: Entry) -> bool
        requires { entry.process < MOST_PROCESSES }
        ensures { result ≡ has self.now entry }
    {
        match self.of(entry.process) {
            None => false,
            Some(other) => other.is(entry),
        }
    }

    /// Makes this call the entry of process `p`.
    pub(crate) fn put(&mut self, p: u8, entry: Entry)
        requires { p < MOST_PROCESSES }
        ensures { self.new ≡ with_entry self.old p entry }
    {
        self.callers |= 1 << p;
        self.operations[usize::from(p)] = entry.operation;
        self.calls[usize::from(p)] = entry.call;
    }

    /// Reads the announcement of process `q`: the batch takes the call there, unless the process
    /// that reads has replayed it. `calls_seen` is the number of calls of process `q` that it has
    /// replayed, its first ones.
    pub(crate) fn gather(&mut self, q: u8, announced: Option<Entry>, calls_seen: u16)
        requires { q < MOST_PROCESSES }
        ensures { self.new ≡ batch_with_calls announced calls_seen q self.old }
    {
        if let Some(other) = announced
            && other.call >= calls_seen
        {
            self.put(q, other);
        }
    }
}

/// Pushes the entries of a batch, each with its slot.
pub(crate) fn put_batch(
    entries: &mut Vec<Entry>,
    slots: &mut Vec<u16>,
    processes: u8,
    slot: u16,
    batch: &Batch,
)
    requires processes { processes ≤ MOST_PROCESSES }
    requires room { vec_len entries.old + processes ≤ vec_capacity entries.old }
    requires slots_room { vec_len slots.old + processes ≤ vec_capacity slots.old }
    ensures entries { entries.new.items ≡ entries.old.items ++ members processes 0 batch.now }
    ensures slots { slots.new.items
        ≡ slots.old.items ++ each_slot slot (members processes 0 batch.now) }
    ensures room { vec_capacity entries.new ≡ vec_capacity entries.old }
    ensures slots_room { vec_capacity slots.new ≡ vec_capacity slots.old }
{
    for p in 0..processes {
        if let Some(entry) = batch.of(p) {
            entries.push_reserved(entry);
            slots.push_reserved(slot);
        }
    }
}

/// The state of the object after the calls in the batch by processes below `processes`.
pub(crate) fn state_after(object: &Table, processes: u8, batch: &Batch, start: State) -> State
    requires processes { processes ≤ MOST_PROCESSES }
    requires start { start.0 < length object.now.states }
    requires operations { (q : ℕ) (e : EntryOf) → entry_at batch.now q ≡ Some e
        → e.operation.0 < length object.now.operations }
    ensures state { result.0
        ≡ run_of object.now start.0 (operations_of (members processes 0 batch.now)) }
    ensures known { result.0 < length object.now.states }
{
    let mut state = start;
    for p in 0..processes {
        if let Some(call) = batch.of(p) {
            state = object.apply(call.operation, state).1;
        }
    }
    state
}
