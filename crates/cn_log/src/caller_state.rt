//! The knowledge of a process about the log.
ghost use Rattle.std.specs.Prelude.{◌≡◌, ◌+◌, ◌<◌, ◌≤◌, ℕ, Some, [], length};
ghost use Rattle.cn_table.specs.Run.{state_after as run_of};
ghost use Rattle.cn_log.specs.Batches.{and_entry, entry_at, members};
ghost use Rattle.cn_log.specs.Log.{operations_of};
ghost use Rattle.cn_log.specs.declared.limits.TheConstants.{MOST_ENTRIES};
ghost use Rattle.cn_log.specs.declared.batch.Batch.{Batch as BatchOf};
ghost use Rattle.cn_log.specs.declared.entry.Entry.{Entry as EntryOf};
ghost use Rattle.cn_log.specs.declared.caller_state.Phase.TheVariants.{Looks, Runs};
ghost use Rattle.cn_log.specs.Fields.{batch_with_calls, count_at};
ghost use Rattle.cn_choice.specs.declared.limits.TheConstants.{MOST_PROCESSES};

use crate::batch::Batch;
use crate::call_counts::CallCounts;
use crate::entry::Entry;
use cn_table::{State, Table};

/// The next move of a process.
#[derive(Clone, Copy, Debug, PartialEq, Eq)]
pub(crate) enum Phase {
    /// It is in no call.
    Idle,
    /// With this call pending, it is about to read the announcement of this process, for its next
    /// slot. It has gathered this batch from the announcements before.
    Looks(Entry, u8, Batch),
    /// With this call pending, it takes steps in the round of its next slot.
    Runs(Entry),
}

/// The progress of a process: the numbers of slots and entries that it has replayed, and of the
/// calls of each process there; the number of its own calls, its next move, and the state of its
/// copy of the object.
#[derive(Clone, Copy, Debug, PartialEq, Eq)]
pub(crate) struct CallerState {
    pub replayed_slots: u16,
    pub replayed_entries: u16,
    pub calls_seen: CallCounts,
    pub calls: u16,
    pub phase: Phase,
    pub state: State,
}

impl CallerState {
    /// The process looks at the announcement of process `q` and reads this there. Its batch takes
    /// what it gathers, and it looks at the next process next.
    pub fn look(&mut self, q: u8, announced: Option<Entry>)
        requires { q < MOST_PROCESSES }
        ensures { (mine : EntryOf) (batch : BatchOf) → self.old.phase ≡ Looks mine q batch
            → self.new ≡ record self.old {
              phase = Looks mine (q + 1)
                  (batch_with_calls announced (count_at self.old.calls_seen q) q batch);
            } }
    {
        if let Phase::Looks(_, next, batch) = &mut self.phase {
            batch.gather(q, announced, self.calls_seen.of(q));
            *next = q + 1;
        }
    }

    /// The process has looked at all announcements. It begins in the round of its next slot with
    /// its batch.
    pub fn begin(&mut self) -> Batch
        requires { (mine : EntryOf) × (q : ℕ) × (batch : BatchOf)
            × (self.old.phase ≡ Looks mine q batch) }
        ensures { (mine : EntryOf) (q : ℕ) (batch : BatchOf) → self.old.phase ≡ Looks mine q batch
            → (result ≡ batch) × (self.new ≡ record self.old { phase = Runs mine }) }
    {
        match self.phase {
            Phase::Looks(mine, _, batch) => {
                self.phase = Phase::Runs(mine);
                batch
            }
            Phase::Idle | Phase::Runs(_) => unreachable!(),
        }
    }

    /// The process replays the calls in the batch by processes below `processes`, in order.
    pub fn replay(&mut self, object: &Table, processes: u8, batch: &Batch)
        requires processes { processes ≤ MOST_PROCESSES }
        requires replayed_entries { self.old.replayed_entries ≤ MOST_ENTRIES }
        requires calls_places { length self.old.calls_seen.calls ≡ MOST_PROCESSES }
        requires calls_seen { (q : ℕ) → q < processes
            → count_at self.old.calls_seen q ≤ MOST_ENTRIES }
        requires operations { (q : ℕ) (e : EntryOf) → entry_at batch.now q ≡ Some e
            → e.operation.0 < length object.now.operations }
        requires state { self.old.state.0 < length object.now.states }
        ensures replayed_slots { self.new.replayed_slots ≡ self.old.replayed_slots }
        ensures replayed_entries { self.new.replayed_entries
            ≡ self.old.replayed_entries + length (members processes 0 batch.now) }
        ensures calls_places { length self.new.calls_seen.calls ≡ MOST_PROCESSES }
        ensures calls_seen { (q : ℕ) → q < processes
            → count_at self.new.calls_seen q
            ≡ count_at self.old.calls_seen q + length (and_entry (entry_at batch.now q) []) }
        ensures calls { self.new.calls ≡ self.old.calls }
        ensures phase { self.new.phase ≡ self.old.phase }
        ensures state { self.new.state.0
            ≡ run_of object.now self.old.state.0 (operations_of (members processes 0 batch.now)) }
        ensures known { self.new.state.0 < length object.now.states }
    {
        for p in 0..processes {
            if let Some(call) = batch.of(p) {
                self.replayed_entries += 1;
                self.calls_seen.add_one(p);
                self.state = object.apply(call.operation, self.state).1;
            }
        }
    }
}
